//! The sheet: one page about a settled map, for the custodian to sign.
#![tactic(auto)]

pub mod page;
mod sentences;
