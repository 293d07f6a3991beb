//! What is promised of maps and scripts as text: definitions and theorems only, over the contracts of the crates below.

#![tactic(auto)]
