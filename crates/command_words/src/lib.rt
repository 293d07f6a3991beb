//! The words of the program `druthmoy`: its commands by their names, and its help.
#![tactic(auto)]

pub mod help;
pub mod verb;
