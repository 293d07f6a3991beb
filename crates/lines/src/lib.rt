//! A text as lines, and a line as words: what stands before a comment, and between blanks.
#![tactic(auto)]

pub mod line;
pub mod word;

/// The most bytes of a text that is read.
pub const MOST_TEXT: usize = 1048576;
