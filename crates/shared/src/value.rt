//! The values of all outputs of a list of shared products at an assignment, as one word.
ghost use Rattle.std.specs.Prelude.{◌≡◌, ◌^◌, ◌<◌};
ghost use Rattle.bits.specs.Sums.{All};
ghost use Rattle.records.specs.Answers.{counted};
ghost use Rattle.shared.specs.SharedRecord.{shares_of, Fine};
ghost use Rattle.shared.specs.Outputs.{value_word};
ghost use Rattle.shared.specs.Calls.{check_shared_at, word_outcome, worded};

use crate::list;
use records::{Reason, Refusal};

/// The outputs of the true products, added bit by bit modulo 2: one pass.
fn word_at(n: usize, list: &[u8], a: u32) -> u32
    requires all { All (Fine n) (shares_of list.now) }
    requires a_bound { a < 2 ^ n }
    ensures { result ≡ value_word n (shares_of list.now) a }
{
    let count = list.len() / list::SHARED_WIDTH;
    let mut w: u32 = 0;
    for i in 0..count {
        let s = list::record_at(list, i);
        if s.cube.holds_at(a) {
            w ^= s.outputs;
        }
    }
    w
}

/// Checking a list and an assignment of its variables: refusals 1 to 4 and 6, or the count of its records.
// Stays: beside `check_at` of `cube::value`, where the reason stands.
fn check_at(n: usize, list: &[u8], a: u64) -> Result<usize, Refusal>
    ensures { counted result ≡ check_shared_at n list.now a }
{
    let count = list::check(n, list)?;
    if a >> n != 0 {
        return Err(Reason::LabelOutside.at(0));
    }
    Ok(count)
}

/// The values of all outputs at the assignment a: refusals 1 to 4 and 6, or the word whose bit k is output k's value.
pub fn value(n: usize, list: &[u8], a: u64) -> Result<u32, Refusal>
    ensures { worded result ≡ word_outcome n list.now a }
{
    check_at(n, list, a)?;
    Ok(word_at(n, list, a as u32))
}
