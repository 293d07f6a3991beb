//! Old lists: their record of 4 bytes, and the two calls that turn them into lists of 8-byte records and back.
#![tactic(auto)]

pub mod narrow;
pub mod narrow_from_wide;
pub mod wide_from_narrow;
