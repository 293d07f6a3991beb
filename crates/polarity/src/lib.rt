//! Fixed-polarity forms of truth vectors.

#![tactic(auto)]

pub mod choose;
pub mod form;
mod pass;
pub mod transform;
pub mod vector;

/// How many products a list has, and whether one of them has no literal.
#[derive(Clone, Copy, Debug, PartialEq, Eq)]
pub struct Counts {
    pub products: u32,
    pub constant: bool,
}

/// The polarity with the fewest products, and how many those are.
#[derive(Clone, Copy, Debug, PartialEq, Eq)]
pub struct BestPolarity {
    pub polarity: usize,
    pub products: usize,
}
