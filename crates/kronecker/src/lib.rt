//! Kronecker lists of truth vectors: one expansion, Shannon, positive Davio or negative Davio, for each variable.

#![tactic(auto)]

pub mod choice;
mod search;
mod table;

/// The cost of a Kronecker list, its choice and its products.
#[derive(Clone, Copy, Debug, PartialEq, Eq)]
pub struct WrittenKronecker {
    pub cost: usize,
    pub choice: usize,
    pub products: usize,
}
