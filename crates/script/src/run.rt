//! Running a script: the steps in turn, and then the undoing of what is pending.
ghost use Rattle.std.specs.Prelude.{◌≡◌, true, map, ◌≤◌, ◌<◌, length};
ghost use Rattle.bits.specs.Sums.{All};
ghost use Rattle.records.specs.Records.{Held, records, list_of, image, capacity_of};
ghost use Rattle.records.specs.Kinds.{checked};
ghost use Rattle.cube.specs.Cubes.{Good};
ghost use Rattle.cube.specs.Lists.{cubes, cubes_of, cube_capacity, most_records, most_variables};
ghost use Rattle.cube.specs.Calls.{check_list};
ghost use Rattle.orders.specs.Orders.{order_count};
ghost use Rattle.steps.specs.Steps.{meaning};
ghost use Rattle.steps.specs.Calls.{Ready};
ghost use Rattle.script.specs.Pending.{pend_step, restored};
ghost use Rattle.script.specs.Scripts.{step_records, most_steps, fits, steps_of};
ghost use Rattle.script.specs.Progress.{run_listed, check_run_by, Stepping};
ghost use Rattle.script.specs.Calls.{at_step, ran_outcome, work_after_by, run_outcome, run_after, finished};
ghost use Rattle.records.specs.Answers.{and_then, Accepts};

use crate::check::check_script_on;
use crate::{Cubes, Ended, Peaked, Runnable, Unwatched, WorkList};
use cube::list::MOST_VARIABLES;
use records::{Reason, Refusal};
use steps::{StepRecord, StepRefusal};

/// No order is pending at any variable.
pub const NONE_PENDING: [u8; MOST_VARIABLES] = [0; MOST_VARIABLES];

/// What is pending after one more step: the order of an L step follows that of its variable.
// Stays: every number from 5 on is an L step here, as `meaning` of steps has it, and not 5 alone, as `is_letter` has it.
pub fn pended(pending: [u8; MOST_VARIABLES], x: StepRecord) -> [u8; MOST_VARIABLES]
    ensures { result ≡ pend_step pending (meaning x) }
{
    let op = x.op;
    let v = x.v as usize;
    if op < 5 {
        return pending;
    }
    if MOST_VARIABLES <= v {
        return pending;
    }
    let mut next = pending;
    let before = next[v];
    next[v] = orders::follow(before, orders::letter_order(x.literal));
    next
}

/// The refusal of a run at step k.
pub fn halted(why: StepRefusal, k: usize) -> Refusal
    ensures { result ≡ at_step why k }
{
    Refusal::with_differing(why.number, k, why.differing)
}

/// The steps of a script in turn, on the first records of the work buffer; a refusal clears it.
pub fn run_steps(
    work: &mut [u8],
    n: usize,
    first: usize,
    cap: usize,
    script: &[u8],
) -> Result<Ended, Refusal>
    requires ready { Ready n first cap work.old }
    requires all { All (λ r. fits n r ≡ true) (list_of step_records script.now) }
    ensures { Stepping n cap first (steps_of script.now) work.old work.new result }
{
    WorkList::<Cubes>::of(work, n, first, cap).run_steps::<Unwatched>(script, &mut [])
}

/// What is pending at the n variables taken back in every record.
pub fn undo(work: &mut [u8], n: usize, count: usize, pending: [u8; MOST_VARIABLES])
    requires held { Held cubes count work.old }
    requires all { All (Good most_variables) (records cubes count work.old) }
    requires n_le_most_variables { n ≤ most_variables }
    requires all_2 { All (λ o. o < order_count) pending }
    ensures { work.new ≡ image cubes (length work.old) (map (restored n pending) (records cubes count work.old)) }
{
    WorkList::<Cubes>::of(work, MOST_VARIABLES, count, 0).undo(n, pending);
}

/// The run, on any kind of record, of a checked list that the work buffer has room for: what the check of the script refuses, and then what a step does;
/// or the count and the peak.
#[inline(always)]
pub fn run_checked_on<K: Runnable>(
    n: usize,
    list: &[u8],
    script: &[u8],
    work: &mut [u8],
) -> Result<Peaked, Refusal>
    requires accepts { Accepts (K.check n list.now) }
    requires room { length (list_of K.codec list.now) ≤ capacity_of K.codec most_records (length work.old) }
    ensures answer { finished result ≡ and_then (checked step_records (K.fits n) 7 8 9 most_steps script.now) (ran_outcome (run_listed K.codec K.on_cube K.step n list.now script.now (length work.old))) }
    ensures work_after { work.new ≡ work_after_by K.codec (checked step_records (K.fits n) 7 8 9 most_steps script.now) work.old (run_listed K.codec K.on_cube K.step n list.now script.now (length work.old)) }
{
    check_script_on::<K>(n, script)?;
    let first = list.len() / K::WIDTH;
    let cap = K::capacity(work.len());
    records::fill(work, list);
    WorkList::<K>::of(work, n, first, cap).run(script)
}

/// The run of a script on a list of any kind of record: what the list's check refuses, 5, and then as the run of a checked list.
#[inline(always)]
pub fn run_on<K: Runnable>(
    n: usize,
    list: &[u8],
    script: &[u8],
    work: &mut [u8],
) -> Result<Peaked, Refusal>
    ensures answer { finished result ≡ and_then (check_run_by K.codec K.check K.fits n list.now script.now (length work.old)) (ran_outcome (run_listed K.codec K.on_cube K.step n list.now script.now (length work.old))) }
    ensures work_after { work.new ≡ work_after_by K.codec (check_run_by K.codec K.check K.fits n list.now script.now (length work.old)) work.old (run_listed K.codec K.on_cube K.step n list.now script.now (length work.old)) }
{
    K::check(n, list)?;
    if K::capacity(work.len()) < list.len() / K::WIDTH {
        return Err(Reason::NoRoom.at(0));
    }
    run_checked_on::<K>(n, list, script, work)
}

/// The run of a checked list that the work buffer has room for: refusals 7, 8 and 9, then 10, 11, 16 to 19 and 13 at a step; or the count and the peak.
pub fn run_checked(n: usize, list: &[u8], script: &[u8], work: &mut [u8]) -> Result<Peaked, Refusal>
    requires accepts { Accepts (check_list most_variables n list.now) }
    requires list_len_bound { length (cubes_of list.now) ≤ cube_capacity (length work.old) }
    ensures result_value { finished result ≡ run_outcome n list.now script.now (length work.old) }
    ensures work_after { work.new ≡ run_after n list.now script.now work.old }
{
    run_checked_on::<Cubes>(n, list, script, work)
}

/// Runs a script on a list: refusals 1 to 5, 7, 8, 9 before anything is written, then 10, 11, 16 to 19 and 13 at a step; or the count and the peak.
pub fn run(n: usize, list: &[u8], script: &[u8], work: &mut [u8]) -> Result<Peaked, Refusal>
    ensures result_value { finished result ≡ run_outcome n list.now script.now (length work.old) }
    ensures work_after { work.new ≡ run_after n list.now script.now work.old }
{
    run_on::<Cubes>(n, list, script, work)
}
