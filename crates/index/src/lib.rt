//! The index of a list by number of literals: its places, ordered by number of literals and then by place, with the start of each group.
#![tactic(auto)]

pub mod build;
mod count;
pub mod group;

use records::Refusal;

/// Groups of an index: a cube has 0 to 32 literals.
pub const GROUPS: usize = 33;

/// What the build answers: the count, with the start of each group, counted in entries; or a refusal, and then each start is 0.
// Stays: the starts beside the answer; `build_starts`, the clause `starts_value` of `build`: a refusal has them too, all 0.
#[derive(Clone, Copy, Debug, PartialEq, Eq)]
pub struct Indexed {
    pub answer: Result<usize, Refusal>,
    pub starts: [u64; GROUPS],
}
