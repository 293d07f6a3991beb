//! The five steps of a script: look, decide, perform; and L by one pass over the records.
#![tactic(auto)]

pub mod again;
pub mod decide;
pub mod decides;
pub mod operation;
pub mod perform;
pub mod reorder;
pub mod rewrites;
pub mod step;

ghost use Rattle.std.specs.Prelude.{◌≡◌, eqb};

pub use decides::Decides;
pub use operation::Step;
pub use rewrites::OnCubes;

/// Why a step is refused: the number of the `Reason`; and the number of differing variables, where its two cubes are not as it needs, else 0.
#[derive(Clone, Copy, Debug, PartialEq, Eq)]
pub struct StepRefusal {
    pub number: u8,
    pub differing: u32,
}

/// What a step does to the records at its places.
#[derive(Clone, Copy, Debug, PartialEq, Eq)]
pub enum Change<T> {
    Refuse(StepRefusal),
    Drop,
    Join(T),
    Split(T, T),
    Turn(T, T),
}

/// A step as a script's record has it; `Step` is what it says.
// Stays: the operation is a number, as the bytes of a script have it; `do_step` takes it so (docs/CONTRACTS.md).
#[derive(Clone, Copy, Debug, PartialEq, Eq)]
pub struct StepRecord {
    pub op: u8,
    pub v: u8,
    pub i: usize,
    pub j: usize,
    pub literal: u8,
    pub zero: u8,
}

impl StepRecord {
    /// Whether the step is an L step, which goes over every record.
    #[inline(always)]
    pub fn is_letter(self) -> bool
        ensures { result ≡ eqb self.op 5 }
    {
        self.op == LETTER
    }
}

/// The operation of an L step.
const LETTER: u8 = 5;
