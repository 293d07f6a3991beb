//! The cheapest choice, from the table of all products. The product without literals is free, and only choices of Davio expansions alone have it: one
//! for each polarity, where the vector's bit there is 1.

ghost use Rattle.std.specs.Prelude.{◌≡◌, ◌%◌, ◌^◌, ◌≤◌, ◌<◌, length};
ghost use Rattle.bits.specs.Bits.{bit};
ghost use Rattle.kronecker.specs.Words.{lowest_of, lesser_from, Covers, LeastEntry, FoundIn, FoundIs};

use crate::{WrittenKronecker, table};

/// How many choices 6 variables have.
const MOST_CHOICES: usize = 729;

/// The least entry, and of several such the first: a choice that has no free product costs what it has of products.
fn least_entry(table: &[u8]) -> WrittenKronecker
    requires { 0 < length table.now }
    ensures { LeastEntry table.now result }
{
    let mut least = table[0];
    let mut choice: usize = 0;
    for i in 1..table.len() {
        let entry = table[i];
        if entry < least {
            least = entry;
            choice = i;
        }
    }
    let products = least as usize;
    WrittenKronecker {
        cost: products,
        choice,
        products,
    }
}

/// Of two that are each the cheapest of a range, where the second's choices count from `from` on: the second where it costs less, else the first.
fn lesser_from(x: WrittenKronecker, y: WrittenKronecker, from: usize) -> WrittenKronecker
    requires { (from ≤ 729) × (y.choice ≤ 729) }
    ensures { result ≡ lesser_from x y from }
{
    if y.cost < x.cost {
        return WrittenKronecker {
            choice: from + y.choice,
            ..y
        };
    }
    x
}

/// With no variable left: the one entry, of which the product is free where the function, the lowest bit of w, is 1.
fn lowest(entry: u8, w: u64) -> WrittenKronecker
    requires { w % 2 ≤ entry }
    ensures { result ≡ lowest_of entry (w % 2) }
{
    let products = entry as usize;
    WrittenKronecker {
        cost: products - (w % 2) as usize,
        choice: 0,
        products,
    }
}

/// With one variable left: three entries. Below Shannon no product is free.
fn least_of_one(w: u64, table: &[u8]) -> WrittenKronecker
    requires { Covers 1 (bit w) table.now }
    ensures { FoundIn 1 (bit w) table.now result }
{
    let shannon = lowest(table[0], 0);
    let positive = lowest(table[1], w);
    let negative = lowest(table[2], w >> 1);
    lesser_from(lesser_from(shannon, positive, 1), negative, 2)
}

/// The cheapest of the choices whose entries these are. By the highest variable: below Shannon no product is free, below a Davio expansion those of its first branch.
fn least_of(left: usize, w: u64, table: &[u8]) -> WrittenKronecker
    requires { (left ≤ 6) × Covers left (bit w) table.now }
    ensures { FoundIn left (bit w) table.now result }
{
    if left == 0 {
        return lowest(table[0], w);
    }
    if left == 1 {
        return least_of_one(w, table);
    }
    let m = left - 1;
    let half: usize = 1 << m;
    let part = table.len() / 3;
    let end = 2 * part;
    let shannon = least_entry(&table[..part]);
    let positive = least_of(m, w, &table[part..end]);
    let negative = least_of(m, w >> half, &table[end..]);
    lesser_from(lesser_from(shannon, positive, part), negative, end)
}

/// How many choices there are.
fn choices(n: usize) -> usize
    requires { n ≤ 6 }
    ensures { result ≡ 3 ^ n }
{
    3_usize.pow(n as u32)
}

/// The cheapest choice of the function of the lowest 2^n bits, and of several such the smallest.
pub(crate) fn find(n: usize, w: u64) -> WrittenKronecker
    requires { n ≤ 6 }
    ensures { FoundIs n (bit w) result }
{
    let mut all = [0u8; MOST_CHOICES];
    let m = choices(n);
    table::fill(n, w, &mut all[..m]);
    least_of(n, w, &all[..m])
}
