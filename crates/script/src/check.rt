//! The check of a script: refusals 7, 8 and 9.
ghost use Rattle.std.specs.Prelude.{◌≡◌};
ghost use Rattle.bits.specs.Sums.{first_bad};
ghost use Rattle.records.specs.Records.{list_of};
ghost use Rattle.records.specs.Answers.{counted};
ghost use Rattle.records.specs.Kinds.{checked};
ghost use Rattle.script.specs.Scripts.{step_records, most_steps, fits};
ghost use Rattle.script.specs.Calls.{check_script};

pub use crate::record::{STEP_WIDTH, step_at};
use crate::{Cubes, Runnable};
use records::{Reason, Refusal};
use steps::StepRecord;

/// Steps of a script, at most.
pub const MOST_STEPS: usize = 1024;

/// Whether a step passes rule 9 over n variables: a row for each operation, and what it doesn't use is zero.
// Stays: numbers, those of a record's bytes; the rule is about the fields that an operation doesn't use, which a `Step` hasn't.
pub fn fits(n: usize, x: StepRecord) -> bool
    ensures { result ≡ fits n x }
{
    let op = x.op;
    let v = x.v as usize;
    let literal = x.literal;
    let zero = x.zero;
    match op {
        1 => (v == 0) & ((literal == 0) & (zero == 0)),
        2 => (v == 0) & ((literal == 0) & (zero == 0)),
        3 => (v < n) & ((x.j == 0) & ((literal == 0) & (zero == 0))),
        4 => (v < n) & ((literal == 0) & (zero == 0)),
        5 => (v < n) & ((x.i == 0) & ((x.j == 0) & ((literal <= 1) & (zero == 0)))),
        _ => false,
    }
}

/// The lowest step that breaks rule 9, or the number of steps.
// Stays: a loop that yields its place by `break`, as the documents ask of it.
#[inline(always)]
fn first_bad<K: Runnable>(n: usize, script: &[u8]) -> usize
    ensures { result ≡ first_bad (K.fits n) (list_of step_records script.now) }
{
    let count = script.len() / STEP_WIDTH;
    let mut k: usize = 0;
    let found = loop {
        if count <= k {
            break count;
        }
        if !K::fits(n, step_at(script, k)) {
            break k;
        }
        k += 1;
    };
    found
}

/// Checking a script over n variables, for any kind of record: refusals 7, 8 and 9, or the number of its steps.
#[inline(always)]
pub fn check_script_on<K: Runnable>(n: usize, script: &[u8]) -> Result<usize, Refusal>
    ensures { counted result ≡ checked step_records (K.fits n) 7 8 9 most_steps script.now }
{
    if script.len() % STEP_WIDTH != 0 {
        return Err(Reason::ScriptCutShort.at(0));
    }
    let count = script.len() / STEP_WIDTH;
    if MOST_STEPS < count {
        return Err(Reason::TooManySteps.at(0));
    }
    let bad = first_bad::<K>(n, script);
    if bad != count {
        return Err(Reason::BadStep.at(bad));
    }
    Ok(count)
}

/// Checking a script over n variables: refusals 7, 8 and 9, or the number of its steps.
pub fn check_script(n: usize, script: &[u8]) -> Result<usize, Refusal>
    ensures { counted result ≡ check_script n script.now }
{
    check_script_on::<Cubes>(n, script)
}
