//! The writer of easy scripts: the pairs of a list, the first of them, and the steps that take them away.
#![tactic(auto)]

mod find;
pub mod write;

/// Two places of a list, the lower one first.
#[derive(Clone, Copy, Debug, PartialEq, Eq)]
pub struct Pair {
    pub i: usize,
    pub j: usize,
}

/// How many steps are written, and whether no pair is left.
#[derive(Clone, Copy, Debug, PartialEq, Eq)]
pub struct Written {
    pub steps: usize,
    pub finished: bool,
}
