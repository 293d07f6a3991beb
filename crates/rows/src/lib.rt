//! The rows of a table of calls, read: the name of a call, its numbers and its parts.
#![tactic(auto)]

pub mod call;
pub mod data;
mod gathered;
pub mod given;
pub mod head;
pub mod item;
pub mod part;
pub mod reader;
pub mod table;
