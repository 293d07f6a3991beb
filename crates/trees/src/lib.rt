//! Expansion trees of truth vectors: at each node by Shannon, positive Davio or negative Davio.

#![tactic(auto)]

mod least;
pub mod node;
pub mod tree;

/// How a function is expanded by a variable, in the order that ties go by.
#[derive(Clone, Copy, Debug, PartialEq, Eq)]
pub enum Expansion {
    Shannon,
    Positive,
    Negative,
}

/// Of a function: the least cost of a tree to which no literal leads, its products, and the least cost of one to which a literal leads.
#[derive(Clone, Copy, Debug, PartialEq, Eq)]
pub struct Costs {
    pub cost: usize,
    pub products: usize,
    pub paid: usize,
}

/// The products of a tree's list, and its cost.
#[derive(Clone, Copy, Debug, PartialEq, Eq)]
pub struct WrittenTree {
    pub products: usize,
    pub cost: usize,
}
