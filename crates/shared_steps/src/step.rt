//! One step on a work buffer of shared products.
ghost use Rattle.std.specs.Prelude.{◌≡◌};
ghost use Rattle.records.specs.Records.{records};
ghost use Rattle.steps.specs.Calls.{stepped, stepped_by};
ghost use Rattle.shared.specs.SharedRecord.{shares};
ghost use Rattle.shared_steps.specs.SharedSteps.{shared_meaning, shared_step};
ghost use Rattle.shared_steps.specs.Calls.{SharedReady, SharedKnown};

use crate::OnProducts;
use steps::step::step_on;
use steps::{StepRecord, StepRefusal};

/// One step on the count records of the work buffer, which has room for cap of them.
#[inline(always)]
pub fn do_step(
    work: &mut [u8],
    n: usize,
    count: usize,
    cap: usize,
    x: StepRecord,
) -> Result<usize, StepRefusal>
    requires shared_ready { SharedReady n count cap work.old }
    requires shared_known { SharedKnown n x }
    ensures value { result ≡ stepped (shared_step n cap (shared_meaning x) (records shares count work.old)) }
    ensures work_after { work.new ≡ stepped_by shares work.old (shared_step n cap (shared_meaning x) (records shares count work.old)) }
{
    step_on::<OnProducts>(work, n, count, cap, x)
}
