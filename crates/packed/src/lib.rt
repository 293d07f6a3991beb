//! Lists as records, in files: written of a map as text, and printed as one.
#![tactic(auto)]

pub mod binary;
