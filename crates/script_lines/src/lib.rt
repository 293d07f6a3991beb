//! Scripts as text, one step a line.
#![tactic(auto)]

pub mod print;
pub mod read;

/// The operation of a merge.
const MERGE: u8 = 6;
