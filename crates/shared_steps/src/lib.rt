//! The six steps on shared products: what is decided of them, over the steps of any kind of record.
#![tactic(auto)]

pub mod decide;
pub mod operation;
pub mod reorder;
pub mod rewrites;
pub mod step;

pub use operation::SharedStep;
pub use rewrites::OnProducts;

/// The operation of a merge.
pub const MERGE: u8 = 6;
