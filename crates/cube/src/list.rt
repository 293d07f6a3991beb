//! Lists of cubes: their limits, and the check of a list.
ghost use Rattle.std.specs.Prelude.{◌≡◌};
ghost use Rattle.records.specs.Answers.{counted};
ghost use Rattle.cube.specs.Lists.{cube_capacity, most_variables};
ghost use Rattle.cube.specs.Calls.{check_list};

pub use crate::record::{
    Cubes, RECORD_WIDTH, bare_at, cube_at, differing_at, put_cube, put_record, record_at,
};
pub use records::list::STRIDE;
use records::{Refusal, kind};

/// Records of a list, at most.
pub const MOST_RECORDS: usize = 4096;

/// Variables of a list, at most.
pub const MOST_VARIABLES: usize = 32;

/// How many cubes a lent buffer of so many bytes can hold.
pub fn capacity(room: usize) -> usize
    ensures { result ≡ cube_capacity room }
{
    kind::capacity::<Cubes>(room)
}

/// Checking a list of at most `limit` variables: refusals 1 to 4, or the count of its records.
#[tactic(auto, unfolding(crate::specs::Calls::check_list_of))]
pub fn check_within(limit: usize, n: usize, list: &[u8]) -> Result<usize, Refusal>
    ensures { counted result ≡ check_list limit n list.now }
{
    records::list::check_within::<Cubes>(limit, n, list)
}

/// Checking a list: refusals 1 to 4, or the count of its records.
pub fn check(n: usize, list: &[u8]) -> Result<usize, Refusal>
    ensures { counted result ≡ check_list most_variables n list.now }
{
    check_within(MOST_VARIABLES, n, list)
}
