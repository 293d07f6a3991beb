//! A map written out.
#![tactic(auto)]

ghost use Rattle.std.specs.Prelude.{◌≡◌, cond, eqb};
ghost use Rattle.records.specs.Records.{flat};
ghost use Rattle.shared.specs.SharedRecord.{shares_of};
ghost use Rattle.text.specs.Numbers.{decimal};
ghost use Rattle.text.specs.Places.{Laid};
ghost use Rattle.pla_print.specs.Printing.{name_line, head_text, outputs_text, product_text, pla_text};

use shared::{Shared, list};
use text::{cubes, number, place};

/// A line with a name and its number at a place of a buffer, and the next place.
fn put_named(out: &mut [u8], at: usize, name: &[u8], x: usize) -> usize
    ensures { Laid out.old at (name_line name.now (decimal x)) result out.new }
{
    let gap = place::put_text(out, at, name);
    let first = place::put_byte(out, gap, b' ');
    let end = number::put_number(out, first, x);
    place::put_byte(out, end, b'\n')
}

/// The lines before the products, of which there are `count`.
fn put_head(out: &mut [u8], at: usize, n: u32, m: u32, count: usize) -> usize
    ensures { Laid out.old at (head_text n m count) result out.new }
{
    let second = put_named(out, at, b".i", n as usize);
    let third = put_named(out, second, b".o", m as usize);
    let last = place::put_text(out, third, b".type esop\n");
    put_named(out, last, b".p", count)
}

/// The character of an output's bit.
fn mark(b: u32) -> u8
    ensures { result ≡ cond (eqb b 1) 49 48 }
{
    if b == 1 { b'1' } else { b'0' }
}

/// The characters of the outputs below m, output 0 first.
// Stays: a loop of one call, like that of `put_cube`; one call for both would take a closure for the character and a contract over it, longer than the two.
fn put_outputs(out: &mut [u8], at: usize, m: u32, outputs: u32) -> usize
    ensures { Laid out.old at (outputs_text m outputs) result out.new }
{
    let mut p = at;
    for k in 0..m {
        p = place::put_byte(out, p, mark(bits::bit(outputs, k)));
    }
    p
}

/// A line with a product.
fn put_product(out: &mut [u8], at: usize, n: u32, m: u32, s: Shared) -> usize
    ensures { Laid out.old at (product_text n m s) result out.new }
{
    let c = s.cube;
    let gap = cubes::put_cube(out, at, n, c);
    let first = place::put_byte(out, gap, b' ');
    let last = put_outputs(out, first, m, s.outputs);
    place::put_byte(out, last, b'\n')
}

/// The lines of all products of a list.
fn put_products(out: &mut [u8], at: usize, n: u32, m: u32, list: &[u8]) -> usize
    ensures { Laid out.old at (flat (product_text n m) (shares_of list.now)) result out.new }
{
    let count = list.len() / list::SHARED_WIDTH;
    let mut p = at;
    for i in 0..count {
        p = put_product(out, p, n, m, list::record_at(list, i));
    }
    p
}

/// The text of a map of n inputs and m outputs, whose products are records of 12 bytes, laid to the front of a buffer, and the place after it.
pub fn print(n: u32, m: u32, list: &[u8], out: &mut [u8]) -> usize
    ensures { Laid out.old 0 (pla_text n m (shares_of list.now)) result out.new }
{
    let first = put_head(out, 0, n, m, list.len() / list::SHARED_WIDTH);
    let last = put_products(out, first, n, m, list);
    place::put_text(out, last, b".e\n")
}
