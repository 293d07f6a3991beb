//! A command at work: what it reads, prints and says goes through one value.
use crate::told::{Told, Trouble};
use records::Refusal;
use std::rt::Files;

/// What a command works with: files and standard output.
pub trait System: Files + Print {}

impl<R: Files + Print> System for R {}

/// A command at work: the system, what gets the words beside standard output, and the command's own words.
#[derive(Drop)]
pub struct Job<'a, R, E> {
    pub rt: &'a R,
    pub err: &'a E,
    /// The first word: the map's file.
    pub file: &'a [u8],
    /// The second word: a script's file, a label, or a file to write. It has no byte where there is none.
    pub word: &'a [u8],
}

impl<'a, R, E> Job<'a, R, E> {
    /// A refusal of the map.
    pub fn whole(&self, refusal: Refusal) -> Told<'a> {
        Told::OfFile(self.file, Trouble::Whole(refusal))
    }

    /// A refusal of the label that the map is asked for.
    pub fn of_label(&self, refusal: Refusal) -> Told<'a> {
        Told::OfFile(self.file, Trouble::OfLabel(self.word, refusal))
    }
}
