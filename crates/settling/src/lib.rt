//! Settling a map: given list plus script in, list to burn out.
#![tactic(auto)]

pub mod burn;
pub mod candidates;
pub mod settle;
mod tree;

use polarity::{BestPolarity, Counts};

/// What a settled map's counts are; the best polarity and its size for at most 8 variables.
#[derive(Clone, Copy)]
pub struct Settlement {
    pub given: usize,
    pub peak: usize,
    pub script: usize,
    pub fixed: Option<BestPolarity>,
    pub burned: usize,
}

/// The best polarity and its size, for at most 8 variables, and how many products are burned.
#[derive(Clone, Copy)]
pub struct Burning {
    pub fixed: Option<BestPolarity>,
    pub burned: usize,
}

/// Where a candidate's list comes from: the script, the caller, the form of a polarity, or the cheapest tree.
#[derive(Clone, Copy)]
pub enum Origin {
    Script,
    Given,
    Form(usize),
    Tree,
}

/// A candidate: what the choice goes by, and where its list comes from.
#[derive(Clone, Copy)]
pub struct Candidate {
    pub rank: usize,
    pub origin: Origin,
}

/// Of a function: the best polarity and its size, where there is one, and what the tree's list counts.
#[derive(Clone, Copy)]
pub struct Forms {
    pub fixed: Option<BestPolarity>,
    pub tree: Counts,
}

/// The best polarity and its size, where there is one, and for at most 8 variables what the tree's list counts and the truth vector that both are of.
#[derive(Clone, Copy)]
pub struct BestForm {
    pub fixed: Option<BestPolarity>,
    pub tree: Counts,
    pub vector: [u8; 256],
}
