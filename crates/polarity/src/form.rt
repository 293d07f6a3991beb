//! The list of a form from its coefficients, its counts, and the rank that choices go by.

ghost use Rattle.std.specs.Prelude.{◌≡◌, length};
ghost use Rattle.std.specs.List.{count_by};
ghost use Rattle.records.specs.Answers.{counted};
ghost use Rattle.records.specs.Records.{written};
ghost use Rattle.cube.specs.Lists.{cubes};
ghost use Rattle.polarity.specs.Forms.{product, form_from};
ghost use Rattle.polarity.specs.Ranks.{rank_of};
ghost use Rattle.polarity.specs.Vectors.{byte_at, Vector};
ghost use Rattle.polarity.specs.Calls.{form_outcome, form_after};
ghost use Rattle.polarity.specs.Words.{nonzero, counts_in};

use crate::{Counts, vector};
use bits::packed::Packed;
use cube::{Cube, list};
use records::{Reason, Refusal};

/// What every choice goes by, here of polarities and in `settling` of candidates: of two lists, the one with the lesser rank costs less, or costs as much
/// and has fewer products.
pub fn rank(counts: Counts) -> usize
    ensures { result ≡ rank_of counts }
{
    2 * (counts.products as usize) + !counts.constant as usize
}

/// The products of the form with these coefficients, and whether the one without literals is among them.
pub(crate) fn counts_of(w: Packed) -> Counts
    ensures { result ≡ counts_in w }
{
    Counts {
        products: w.ones(),
        constant: w.a % 2 != 0,
    }
}

/// How many of the coefficients have a product. Bytes that are only counted are not worth packing.
fn count_products(coefficients: &[u8]) -> usize
    ensures { result ≡ count_by nonzero coefficients.now }
{
    let mut products: usize = 0;
    for coefficient in coefficients {
        products += usize::from(*coefficient != 0);
    }
    products
}

/// The product of the variable set s under p: each variable of s, complemented where p has it.
fn product_of(p: u32, s: u32) -> Cube
    ensures { result ≡ product p s }
{
    Cube {
        seen: s,
        value: s & (s ^ p),
    }
}

/// The products of a form end to end, s ascending.
fn put_form(n: usize, coefficients: &[u8], p: u32, out: &mut [u8])
    requires { Vector n coefficients.now }
    ensures { out.new ≡ written cubes 0 (form_from n p (byte_at coefficients.now)) out.old }
{
    let mut place: usize = 0;
    for s in 0..coefficients.len() {
        if coefficients[s] != 0 {
            list::put_cube(out, place, product_of(p, s as u32));
            place += 1;
        }
    }
}

/// The list of a form from its coefficients: refusals 1, 14, 15 and 5, or its count.
pub fn write_form(n: usize, coefficients: &[u8], p: u64, out: &mut [u8]) -> Result<usize, Refusal>
    ensures result_value { counted result ≡ form_outcome n coefficients.now p (length out.old) }
    ensures out_after { out.new ≡ form_after n coefficients.now p out.old }
{
    let m = vector::check_vector(n, coefficients)?;
    if m as u64 <= p {
        return Err(Reason::PolarityOutside.at(0));
    }
    let count = count_products(coefficients);
    if list::capacity(out.len()) < count {
        return Err(Reason::NoRoom.at(0));
    }
    put_form(n, coefficients, p as u32, out);
    Ok(count)
}
