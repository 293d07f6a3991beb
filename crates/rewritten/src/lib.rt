//! What is made of a map as text: the list to burn, scripts and forms.
#![tactic(auto)]

pub mod rewrite;
pub mod settle;
