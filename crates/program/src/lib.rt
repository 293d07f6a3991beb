//! What the programs share: lines that are read, the label of one, files that are loaded, what is printed and what is told where a program gives up.
#![tactic(auto)]

pub mod file;
pub mod label;
pub mod line;
pub mod part;
pub mod print;
pub mod told;
