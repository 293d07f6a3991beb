//! The call: the steps that are left, written to the front of the output.

ghost use Rattle.std.specs.Prelude.{◌≡◌, map, ◌/◌, ◌<◌, ◌≤◌, length, take};
ghost use Rattle.bits.specs.Sums.{All};
ghost use Rattle.records.specs.Records.{written};
ghost use Rattle.records.specs.Answers.{counted};
ghost use Rattle.cube.specs.Lists.{most_records};
ghost use Rattle.script.specs.Scripts.{step_records, step_width, most_steps, steps_of};
ghost use Rattle.compactor.specs.Calls.{compact_outcome, compact_after};
ghost use Rattle.compactor.specs.StepBytes.{record_at};
ghost use Rattle.compactor.specs.Keeping.{Faithful, Compacting};

use crate::{bytes, keep};
use cube::list;
use records::{Reason, Refusal};
use script::check;

/// The records of the top steps that are kept, at the front of an output that has room for them.
fn put_kept(script: &[u8], kept: &[u16], top: usize, out: &mut [u8])
    requires top_in_bounds { (top ≤ length kept.now) × (top ≤ length out.old / step_width) }
    requires all { All (λ k. k < length script.now / step_width) (take top kept.now) }
    ensures { out.new ≡ written step_records 0 (map (record_at script.now) (take top kept.now)) out.old }
{
    for t in 0..top {
        let k = usize::from(kept[t]);
        bytes::put_halves(out, t, bytes::halves_at(script, k));
    }
}

/// The compacted script at the front of an output that has room for the given one: the number of its steps.
fn compact_checked(count: usize, script: &[u8], out: &mut [u8]) -> usize
    requires faithful { Faithful script.now }
    requires script_len_bound { (length (steps_of script.now) ≤ most_steps) × (count ≤ most_records) × (length script.now ≤ length out.old) }
    ensures { Compacting count script.now out.old out.new result }
{
    let mut kept = [0u16; check::MOST_STEPS];
    let top = keep::keep_steps(script, count, &mut kept);
    put_kept(script, &kept, top, out);
    top
}

/// Compacts a script, for lists of so many products: refusals 1, 3 for the count, 7, 8, 9, and 5 for an output shorter than the script; or the number of steps left.
pub fn compact(n: usize, count: usize, script: &[u8], out: &mut [u8]) -> Result<usize, Refusal>
    ensures result_value { counted result ≡ compact_outcome n count script.now (length out.old) }
    ensures out_after { out.new ≡ compact_after n count script.now out.old }
{
    if list::MOST_VARIABLES < n {
        return Err(Reason::TooManyVariables.at(0));
    }
    if list::MOST_RECORDS < count {
        return Err(Reason::TooManyRecords.at(0));
    }
    check::check_script(n, script)?;
    if out.len() < script.len() {
        return Err(Reason::NoRoom.at(0));
    }
    Ok(compact_checked(count, script, out))
}
