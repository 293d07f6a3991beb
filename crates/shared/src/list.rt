//! Lists of shared products: their capacity, and the check of a list.
ghost use Rattle.std.specs.Prelude.{◌≡◌};
ghost use Rattle.records.specs.Answers.{counted};
ghost use Rattle.shared.specs.SharedRecord.{shared_capacity};
ghost use Rattle.shared.specs.Calls.{check_shared};

pub use crate::record::{Products, SHARED_WIDTH, put_record, record_at};
use cube::list::MOST_VARIABLES;
use records::{Refusal, kind};

/// How many shared products a lent buffer of so many bytes can hold.
pub fn capacity(room: usize) -> usize
    ensures { result ≡ shared_capacity room }
{
    kind::capacity::<Products>(room)
}

/// Checking a list of shared products: refusals 1 to 4, or the count of its records.
#[tactic(auto, unfolding(crate::specs::Calls::check_shared))]
pub fn check(n: usize, list: &[u8]) -> Result<usize, Refusal>
    ensures { counted result ≡ check_shared n list.now }
{
    records::list::check_within::<Products>(MOST_VARIABLES, n, list)
}
