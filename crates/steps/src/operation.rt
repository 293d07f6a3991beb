//! A step by its operation, as an enum.
ghost use Rattle.std.specs.Prelude.{◌≡◌};
ghost use Rattle.steps.specs.Steps.{meaning};
ghost use Rattle.steps.specs.Changes.{step_of};

use crate::StepRecord;

/// A step, by its operation, with what that operation uses of the record.
#[derive(Clone, Copy, Debug, PartialEq, Eq)]
pub enum Step {
    Drop { i: usize, j: usize },
    Join { i: usize, j: usize },
    Split { v: u32, i: usize },
    Turn { v: u32, i: usize, j: usize },
    L { v: u32, literal: u8 },
}

impl From<StepRecord> for Step {
    ghost from_gives = { λ x step. step_of step ≡ meaning x };

    #[inline(always)]
    fn from(x: StepRecord) -> Step {
        let v = x.v as u32;
        let i = x.i;
        let j = x.j;
        match x.op {
            0 | 1 => Step::Drop { i, j },
            2 => Step::Join { i, j },
            3 => Step::Split { v, i },
            4 => Step::Turn { v, i, j },
            _ => Step::L {
                v,
                literal: x.literal,
            },
        }
    }
}
