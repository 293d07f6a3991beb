//! The compactor of scripts: the pairs of steps that undo each other, the steps that are left without them, and the call.

#![tactic(auto)]

mod bytes;
pub mod compact;
mod keep;
mod pair;

/// The eight bytes of a step as two numbers of four bytes, by which steps are compared and copied: the operation, the variable and place i; place j, the literal and zero.
#[derive(Clone, Copy, Debug, PartialEq, Eq)]
pub struct Halves {
    pub low: u32,
    pub high: u32,
}
