//! Running and settling scripts on lists of shared products, in lent buffers.
#![tactic(auto)]

pub mod check;
pub mod kind;
pub mod run;
pub mod settle;

pub use kind::Products;

/// What a settled list of shared products counts.
#[derive(Clone, Copy, Debug, PartialEq, Eq)]
pub struct SharedSettlement {
    pub given: usize,
    pub peak: usize,
    pub script: usize,
    pub burned: usize,
}
