//! The text of cubes and steps: printed into a lent buffer from a place on, and read from a slice at a place.
#![tactic(auto)]

pub mod cubes;
pub mod number;
pub mod place;
pub mod step;

/// What was read, and the place after it.
#[derive(Clone, Copy, Debug, PartialEq, Eq)]
pub struct Read<T> {
    pub value: T,
    pub next: usize,
}

/// The place that is wrong: nothing was read.
#[derive(Clone, Copy, Debug, PartialEq, Eq)]
pub struct WrongAt {
    pub place: usize,
}
