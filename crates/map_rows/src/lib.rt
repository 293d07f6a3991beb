//! The rows whose calls take a map: their parts read, the call made, and what it answers and leaves written.
#![tactic(auto)]

mod calls;
mod parts;
mod row;
mod shown;

pub use row::Maps;
