//! Narrow from wide: a list of at most 16 variables as a list of 4-byte records.
ghost use Rattle.std.specs.Prelude.{◌≡◌, length};
ghost use Rattle.records.specs.Answers.{counted};
ghost use Rattle.converters.specs.Calls.{narrow_outcome, narrow_after};

use crate::narrow::{self, NarrowCubes};
use cube::list::{self, Cubes};
use records::{Reason, Refusal};

/// Narrow from wide: refusals 1, 20, 2 to 4 and 5, or the count.
pub fn narrow_from_wide(n: usize, list: &[u8], out: &mut [u8]) -> Result<usize, Refusal>
    ensures result_value { counted result ≡ narrow_outcome n list.now (length out.old) }
    ensures out_after { out.new ≡ narrow_after n list.now out.old }
{
    if list::MOST_VARIABLES < n {
        return Err(Reason::TooManyVariables.at(0));
    }
    if narrow::NARROW_VARIABLES < n {
        return Err(Reason::TooWide.at(0));
    }
    let count = list::check_within(narrow::NARROW_VARIABLES, n, list)?;
    if out.len() < narrow::NARROW_WIDTH * count {
        return Err(Reason::NoRoom.at(0));
    }
    records::list::carry_all::<Cubes, NarrowCubes>(list, out);
    Ok(count)
}
