//! The check of a script for shared products: refusals 7, 8 and 9.
ghost use Rattle.std.specs.Prelude.{◌≡◌};
ghost use Rattle.records.specs.Answers.{counted};
ghost use Rattle.shared_run.specs.SharedScripts.{shared_fits, check_shared_script};

use crate::Products;
use records::Refusal;
use shared_steps::MERGE;
use steps::StepRecord;

/// Whether a step passes rule 9 over n variables: a merge uses no field but i and j.
pub(crate) fn fits(n: usize, x: StepRecord) -> bool
    ensures { result ≡ shared_fits n x }
{
    let op = x.op;
    if op == MERGE {
        let v = x.v;
        let literal = x.literal;
        let zero = x.zero;
        return (v == 0) & ((literal == 0) & (zero == 0));
    }
    script::check::fits(n, x)
}

/// Checking a script over n variables: refusals 7, 8 and 9, or the number of its steps.
pub fn check_script(n: usize, script: &[u8]) -> Result<usize, Refusal>
    ensures { counted result ≡ check_shared_script n script.now }
{
    script::check::check_script_on::<Products>(n, script)
}
