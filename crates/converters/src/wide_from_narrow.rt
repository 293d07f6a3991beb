//! Wide from narrow: an old list as a list of 8-byte records.
ghost use Rattle.std.specs.Prelude.{◌≡◌, length};
ghost use Rattle.records.specs.Answers.{counted};
ghost use Rattle.converters.specs.Calls.{wide_outcome, wide_after};

use crate::narrow::{self, NarrowCubes};
use cube::list::{self, Cubes};
use records::{Reason, Refusal};

/// Wide from narrow: refusals 1 to 4 of an old list and 5, or the count.
pub fn wide_from_narrow(n: usize, list: &[u8], out: &mut [u8]) -> Result<usize, Refusal>
    ensures result_value { counted result ≡ wide_outcome n list.now (length out.old) }
    ensures out_after { out.new ≡ wide_after n list.now out.old }
{
    let count = records::list::check_within::<NarrowCubes>(narrow::NARROW_VARIABLES, n, list)?;
    if out.len() < list::RECORD_WIDTH * count {
        return Err(Reason::NoRoom.at(0));
    }
    records::list::carry_all::<NarrowCubes, Cubes>(list, out);
    Ok(count)
}
