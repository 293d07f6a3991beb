//! Shared products: cubes that several outputs of a card have in common, in lists of records of 12 bytes.
#![tactic(auto)]

pub mod list;
pub mod record;
pub mod value;

use cube::Cube;

/// A product and the outputs that it belongs to: bit k for output k.
#[derive(Clone, Copy, Debug, PartialEq, Eq)]
pub struct Shared {
    pub cube: Cube,
    pub outputs: u32,
}
