//! Maps as text, in ESOP-PLA: read as a list of shared products.
#![tactic(auto)]

pub mod names;
pub mod product;
pub mod read;

use shared::Shared;

/// What the lines of a text have said so far: the number of inputs, of outputs and of products, each UNSAID until it is said; whether the type is; at which line the number of
/// products was stated; and how many products there were.
// Stays: a number that no line can say, in place of an Option: `unsaid`, `nothing_said` and `inputs_said` and its like (specs), over which the theorems of
// text_promises stand, have it so for every header.
#[derive(Clone, Copy, Debug, PartialEq, Eq)]
pub struct Header {
    pub inputs: usize,
    pub outputs: usize,
    pub esop: bool,
    pub stated: usize,
    pub line: usize,
    pub products: usize,
}

/// What a line says: something to know, or nothing; a product; or that the text ends.
#[derive(Clone, Copy, Debug, PartialEq, Eq)]
pub enum Line {
    Knows(Header),
    Has(Header, Shared),
    Over,
}

/// The inputs and outputs of a map, and how many products are in some output.
#[derive(Clone, Copy, Debug, PartialEq, Eq)]
pub struct MapSize {
    pub inputs: usize,
    pub outputs: usize,
    pub products: usize,
}
