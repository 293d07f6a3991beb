//! The value of a list at an assignment, and its truth vector.
ghost use Rattle.std.specs.Prelude.{◌≡◌, ℕ, ◌/◌, ◌<◌, ◌≤◌, ◌^◌, ◌++◌, length, drop, get_or};
ghost use Rattle.bits.specs.Sums.{All, one_if};
ghost use Rattle.bits.specs.Packed.{bit_at, both, literal_bits};
ghost use Rattle.records.specs.Answers.{counted};
ghost use Rattle.cube.specs.Cubes.{one, code, Good, holds, HoldsAt};
ghost use Rattle.cube.specs.Lists.{record_width, most_records, cubes_of, trues, list_value, truth_vector};
ghost use Rattle.cube.specs.Calls.{check_at, valued, value_outcome, vector_outcome, vector_after};

use crate::record::{MASK_WIDTH, mask_at};
use crate::{Cube, ValueAt, list};
use bits::packed::Packed;
use records::{Reason, Refusal};

/// Variables of a truth vector, at most.
pub const VECTOR_VARIABLES: usize = 8;

/// Whether the product at a place that the list has is true at a.
// Stays: the list as bytes here and below, with what its check has shown in each contract; C lends it, and docs/CONTRACTS.md (Exceptions) names these functions by what they ask.
fn true_at(list: &[u8], i: usize, a: u32) -> bool
    requires { i < length list.now / record_width }
    ensures { HoldsAt (get_or (cubes_of list.now) i one) a result }
{
    let at = list::RECORD_WIDTH * i;
    let seen = mask_at(list, at);
    let value = mask_at(list, at + MASK_WIDTH);
    Cube { seen, value }.holds_at(a)
}

/// How many products of a list of good cubes are true at a. The count has as many bits as a mask, so that the compiler counts as many at once as it compares.
fn trues_at(n: usize, list: &[u8], a: u32) -> usize
    requires all { All (Good n) (cubes_of list.now) }
    requires record_width_len_bound { length list.now / record_width ≤ most_records }
    requires a_bound { a < 2 ^ n }
    ensures { result ≡ trues n (cubes_of list.now) a }
{
    let count = list.len() / list::RECORD_WIDTH;
    let mut t: u32 = 0;
    for i in 0..count {
        t += true_at(list, i, a) as u32;
    }
    t as usize
}

/// Checking a list and an assignment of its variables: refusals 1 to 4 and 6, or the count of its records.
// Stays: beside `check_at` of `shared::value`, the same two tests; one over any `Kind` would ask a limit below 64 of its caller, for the shift, and this one, which docs/CONTRACTS.md names, would call it.
pub fn check_at(n: usize, list: &[u8], a: u64) -> Result<usize, Refusal>
    ensures { counted result ≡ check_at n list.now a }
{
    let count = list::check(n, list)?;
    if a >> n != 0 {
        return Err(Reason::LabelOutside.at(0));
    }
    Ok(count)
}

/// The value of a list at the assignment a: refusals 1 to 4 and 6, or the bit and the number of true products.
pub fn value(n: usize, list: &[u8], a: u64) -> Result<ValueAt, Refusal>
    ensures { valued result ≡ value_outcome n list.now a }
{
    check_at(n, list, a)?;
    let trues = trues_at(n, list, a as u32);
    Ok(ValueAt {
        bit: (trues % 2) as u8,
        trues,
    })
}

/// The bits of w at whose index the literal of variable k is true.
fn with_literal(w: Packed, c: Cube, k: u32) -> Packed
    ensures { result ≡ both w (literal_bits (code c k) k) }
{
    w.both(Packed::literal(k as usize, c.code_at(k)))
}

/// The assignments of eight variables at which a product is true, a bit each.
fn product_bits(c: Cube) -> Packed
    ensures { (a : ℕ) → a < 256 → bit_at result a ≡ one_if (holds 8 c a) }
{
    let w0 = with_literal(Packed::EVERY, c, 0);
    let w1 = with_literal(w0, c, 1);
    let w2 = with_literal(w1, c, 2);
    let w3 = with_literal(w2, c, 3);
    let w4 = with_literal(w3, c, 4);
    let w5 = with_literal(w4, c, 5);
    let w6 = with_literal(w5, c, 6);
    with_literal(w6, c, 7)
}

/// The value of a list at each assignment of eight variables, a bit each.
fn value_bits(list: &[u8]) -> Packed
    ensures { (a : ℕ) → a < 256 → bit_at result a ≡ list_value 8 (cubes_of list.now) a }
{
    let count = list.len() / list::RECORD_WIDTH;
    let mut w = Packed::NONE;
    for i in 0..count {
        let at = list::RECORD_WIDTH * i;
        let seen = mask_at(list, at);
        let value = mask_at(list, at + MASK_WIDTH);
        w = w.sum(product_bits(Cube { seen, value }));
    }
    w
}

/// The value at each of so many assignments, to the front of a buffer, one by one.
fn fill_each(n: usize, assignments: usize, list: &[u8], out: &mut [u8])
    requires all { All (Good n) (cubes_of list.now) }
    requires record_width_len_bound { length list.now / record_width ≤ most_records }
    requires assignments_value { (assignments ≡ 2 ^ n) × (assignments ≤ 4) }
    requires assignments_in_bounds { assignments ≤ length out.old }
    ensures { out.new ≡ truth_vector n (cubes_of list.now) ++ drop (2 ^ n) out.old }
{
    for a in 0..assignments {
        out[a] = (trues_at(n, list, a as u32) % 2) as u8;
    }
}

/// The value at each of so many assignments, to the front of a buffer. A product at four assignments costs less than its bits at 256.
fn fill_vector(n: usize, assignments: usize, list: &[u8], out: &mut [u8])
    requires all { All (Good n) (cubes_of list.now) }
    requires record_width_len_bound { length list.now / record_width ≤ most_records }
    requires assignments_value { (assignments ≡ 2 ^ n) × (n ≤ 8) }
    requires assignments_in_bounds { assignments ≤ length out.old }
    ensures { out.new ≡ truth_vector n (cubes_of list.now) ++ drop (2 ^ n) out.old }
{
    if assignments <= 4 {
        fill_each(n, assignments, list, out);
        return;
    }
    value_bits(list).put(&mut out[..assignments]);
}

/// The truth vector of a list: refusals 1 to 4 and 5, or its length, written to the front of the buffer.
pub fn truth_vector(n: usize, list: &[u8], out: &mut [u8]) -> Result<usize, Refusal>
    ensures result_value { counted result ≡ vector_outcome n list.now (length out.old) }
    ensures out_after { out.new ≡ vector_after n list.now out.old }
{
    list::check_within(VECTOR_VARIABLES, n, list)?;
    let assignments: usize = 1 << n;
    if out.len() < assignments {
        return Err(Reason::NoRoom.at(0));
    }
    fill_vector(n, assignments, list, out);
    Ok(assignments)
}
