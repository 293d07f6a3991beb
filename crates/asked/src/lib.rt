//! What is asked of a map as text: how large it is, the slot of a label, and why.
#![tactic(auto)]

pub mod ask;
mod lists;
mod trues;
