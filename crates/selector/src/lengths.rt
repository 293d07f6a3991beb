//! The lengths of a map's lists and scripts.
ghost use Rattle.std.specs.Prelude.{◌≡◌, ℕ, length};
ghost use Rattle.records.specs.Answers.{counted};
ghost use Rattle.selector.specs.Maps.{add_up, records_of};
ghost use Rattle.selector.specs.Calls.{check_map, check_map_reasons, check_job, job};
ghost use Rattle.selector.specs.Turns.{Mapped};

use crate::MOST_LISTS;
use records::place::PLACE_WIDTH;
use records::{Reason, Refusal};

/// Whether lengths add up to a size. What is left is counted down, so that nothing wraps.
fn add_up(lengths: &[u64], size: usize) -> bool
    ensures { result ≡ add_up lengths.now size }
{
    let mut left = size;
    for length in lengths {
        let length = *length as usize;
        if left < length {
            return false;
        }
        left -= length;
    }
    left == 0
}

/// Refusals 24 and 26 of lists of so many bytes, or how many lists there are.
pub(crate) fn check_map(lists: usize, lengths: &[u64]) -> Result<usize, Refusal>
    ensures { counted result ≡ check_map lists lengths.now }
{
    if lengths.is_empty() {
        return Err(Reason::NotOneToTwelve.at(0));
    }
    if MOST_LISTS < lengths.len() {
        return Err(Reason::NotOneToTwelve.at(0));
    }
    if add_up(lengths, lists) {
        return Ok(lengths.len());
    }
    Err(Reason::LengthsDiffer.at(0))
}

/// The records of all lists of a map.
fn count_records(lists: &[u8], lengths: &[u64]) -> usize
    requires { Mapped lists.now lengths.now }
    ensures { result ≡ records_of lists.now lengths.now }
{
    let mut records: usize = 0;
    for length in lengths {
        records += *length as usize / cube::list::RECORD_WIDTH;
    }
    records
}

/// Refusals 24, 26 and 5 of the reasons of a map, or how many lists there are.
pub(crate) fn check_map_reasons(lists: &[u8], lengths: &[u64], out: usize) -> Result<usize, Refusal>
    ensures { counted result ≡ check_map_reasons lists.now lengths.now out }
{
    let count = check_map(lists.len(), lengths)?;
    if out / PLACE_WIDTH < count_records(lists, lengths) {
        return Err(Reason::NoRoom.at(0));
    }
    Ok(count)
}

/// Refusals 24, 26 and 5 of settling a map, or how many lists there are. Neither n nor the work buffer is looked at: they are tested list by list.
pub(crate) fn check_job(
    lists: &[u8],
    lengths: &[u64],
    scripts: &[u8],
    script_lengths: &[u64],
    out: usize,
) -> Result<usize, Refusal>
    ensures { (n work : ℕ) → counted result ≡ check_job (job n lists.now lengths.now scripts.now script_lengths.now work) out }
{
    let count = check_map(lists.len(), lengths)?;
    if script_lengths.len() != lengths.len() {
        return Err(Reason::LengthsDiffer.at(0));
    }
    if add_up(script_lengths, scripts.len()) {
        if out < lists.len() {
            return Err(Reason::NoRoom.at(0));
        }
        return Ok(count);
    }
    Err(Reason::LengthsDiffer.at(0))
}
