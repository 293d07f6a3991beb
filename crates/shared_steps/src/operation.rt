//! A step on shared products by its operation, as an enum.
ghost use Rattle.std.specs.Prelude.{◌≡◌};
ghost use Rattle.shared_steps.specs.SharedSteps.{shared_meaning};
ghost use Rattle.shared_steps.specs.Changes.{shared_step_of};

use crate::MERGE;
use steps::{Step, StepRecord};

/// A step of a plain script, or a merge.
#[derive(Clone, Copy, Debug, PartialEq, Eq)]
pub enum SharedStep {
    Plain(Step),
    Merge { i: usize, j: usize },
}

impl From<StepRecord> for SharedStep {
    ghost from_gives = { λ x step. shared_step_of step ≡ shared_meaning x };

    #[inline(always)]
    fn from(x: StepRecord) -> SharedStep {
        if x.op == MERGE {
            return SharedStep::Merge { i: x.i, j: x.j };
        }
        SharedStep::Plain(Step::from(x))
    }
}
