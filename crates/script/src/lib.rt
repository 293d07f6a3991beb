//! Running a script on a list of any kind of record, in a lent work buffer.
#![tactic(auto)]

pub mod check;
pub mod kind;
pub mod list;
pub mod record;
pub mod run;

use cube::list::MOST_VARIABLES;
pub use kind::{Cubes, Runnable, Unwatched, Watch};
pub use list::WorkList;

/// The count after the last step, and the highest count on the way.
#[derive(Clone, Copy, Debug, PartialEq, Eq)]
pub struct Peaked {
    pub count: usize,
    pub peak: usize,
}

/// Where the steps of a script ended: the count, the highest count on the way, and an order pending for each variable.
#[derive(Clone, Copy, Debug, PartialEq, Eq)]
pub struct Ended {
    pub count: usize,
    pub peak: usize,
    pub pending: [u8; MOST_VARIABLES],
}
