//! What the library promises: definitions and theorems only, over the contracts of the crates below.

#![tactic(auto)]
