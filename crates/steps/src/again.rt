//! The decision of a step by another name, which docs/CONTRACTS.md has.
pub use crate::decide::decide;
