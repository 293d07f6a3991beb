//! The steps of the easy script, written and done in turn.
ghost use Rattle.std.specs.Prelude.{◌≡◌, ◌*◌, ◌/◌, ◌<◌, ◌≤◌, length};
ghost use Rattle.records.specs.Answers.{Accepts};
ghost use Rattle.records.specs.Records.{records, image};
ghost use Rattle.cube.specs.Lists.{cubes, cubes_of, cube_capacity, most_records, most_variables};
ghost use Rattle.cube.specs.Calls.{check_list};
ghost use Rattle.steps.specs.Calls.{Ready};
ghost use Rattle.script.specs.Scripts.{record_of};
ghost use Rattle.writer.specs.Pairs.{First};
ghost use Rattle.writer.specs.Easy.{step_at, easy_next};
ghost use Rattle.writer.specs.Calls.{wrote, write_outcome, write_work, write_steps};
ghost use Rattle.writer.specs.Watching.{Unmarked, Made, WritingIs};

use crate::{Pair, Written, find};
use cube::list;
use records::{Reason, Refusal};
use script::{check, record};
use steps::{StepRecord, decide, perform};

/// The step that takes away the cubes at two places: 1 drops them where they are equal, 2 joins them.
// Stays: buffer and count apart, as in `find`.
fn step_for(work: &[u8], n: usize, count: usize, i: usize, j: usize) -> StepRecord
    requires ready { Ready n count count work.now }
    requires i_lt_count { (i < count) × (j < count) }
    ensures { result ≡ record_of (step_at n (records cubes count work.now) i j) }
{
    let set = list::record_at(work, i).differing(list::record_at(work, j));
    let unlike = set.count_ones() != 0;
    // Stays: the operation by its number, 1 or 2, as a script's record has it.
    StepRecord {
        op: 1 + unlike as u8,
        v: 0,
        i,
        j,
        literal: 0,
        zero: 0,
    }
}

/// The step of the first pair done: the count after it. It is done by what `perform` does it by, and not by `do_step`: a call from here too would keep the compiler from
/// taking that into the loop of a run.
fn do_pair(work: &mut [u8], n: usize, count: usize, i: usize, j: usize) -> usize
    requires ready { Ready n count count work.old }
    requires first { First n (records cubes count work.old) i j }
    ensures value { result ≡ length (easy_next n (records cubes count work.old)) }
    ensures work_after { work.new ≡ image cubes (length work.old) (easy_next n (records cubes count work.old)) }
{
    let a = list::record_at(work, i);
    let b = list::record_at(work, j);
    let set = a.differing(b);
    if set.count_ones() == 0 {
        return perform::drop_both(work, count, i, j);
    }
    let v = set.trailing_zeros();
    perform::join_both(work, count, i, j, decide::third_at(a, b, v))
}

/// The step of the first pair written at place k of the script, and done: the count after it.
fn make(
    work: &mut [u8],
    n: usize,
    count: usize,
    i: usize,
    j: usize,
    script: &mut [u8],
    k: usize,
) -> usize
    requires ready { Ready n count count work.old }
    requires count_le_most_records { count ≤ most_records }
    requires first { First n (records cubes count work.old) i j }
    ensures { Made n (records cubes count work.old) k work.old work.new script.old script.new result }
{
    let x = step_for(work, n, count, i, j);
    record::put_step(script, k, x);
    do_pair(work, n, count, i, j)
}

/// The easy script of the first records of the work buffer: each step written and done, until no pair is left or there are 1,024.
fn write_steps(
    work: &mut [u8],
    n: usize,
    first: usize,
    script: &mut [u8],
    marks: &mut [u8],
) -> Written
    requires ready { Ready n first first work.old }
    requires first_le_most_records { first ≤ most_records }
    requires unmarked { Unmarked first marks.old }
    ensures { WritingIs n (records cubes first work.old) work.old work.new script.old script.new result }
{
    let mut count = first;
    let mut row = 0;
    for k in 0..check::MOST_STEPS {
        let Some(Pair { i, j }) = find::find(work, n, count, row, marks) else {
            return Written {
                steps: k,
                finished: true,
            };
        };
        count = make(work, n, count, i, j, script, k);
        marks[i] = 0;
        marks[j] = 0;
        row = i;
    }
    Written {
        steps: check::MOST_STEPS,
        finished: find::find(work, n, count, row, marks).is_none(),
    }
}

/// The easy script of a checked list that the work buffer has room for.
fn write_checked(n: usize, list: &[u8], work: &mut [u8], script: &mut [u8]) -> Written
    requires accepts { Accepts (check_list most_variables n list.now) }
    requires list_len_bound { length (cubes_of list.now) ≤ cube_capacity (length work.old) }
    ensures { WritingIs n (cubes_of list.now) work.old work.new script.old script.new result }
{
    let first = list.len() / list::RECORD_WIDTH;
    records::fill(work, list);
    let mut marks = [0u8; list::MOST_RECORDS];
    write_steps(work, n, first, script, &mut marks)
}

/// Writes the easy script of a list: refusals 1 to 4, 5 for the work buffer and 5 for the script buffer; or the number of steps and whether no pair is left.
pub fn write_script(
    n: usize,
    list: &[u8],
    work: &mut [u8],
    script: &mut [u8],
) -> Result<Written, Refusal>
    ensures result_value { wrote result ≡ write_outcome n list.now (length work.old) (length script.old) }
    ensures work_after { work.new ≡ write_work n list.now work.old (length script.old) }
    ensures script_after { script.new ≡ write_steps n list.now (length work.old) script.old }
{
    let count = list::check(n, list)?;
    if list::capacity(work.len()) < count {
        return Err(Reason::NoRoom.at(0));
    }
    if script.len() < check::STEP_WIDTH * count.min(check::MOST_STEPS) {
        return Err(Reason::NoRoom.at(0));
    }
    Ok(write_checked(n, list, work, script))
}
