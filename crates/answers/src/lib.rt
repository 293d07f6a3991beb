//! What a call answers and leaves, as a row shows it.
#![tactic(auto)]

pub mod answer;
pub mod left;
pub mod row;
