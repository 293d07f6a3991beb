//! Maps and scripts as text, from files: loaded as records, and printed; a refusal is told with its file, its line or step, its number, and in words.
#![tactic(auto)]

pub mod buffers;
pub mod cost;
pub mod job;
pub mod load;
pub mod show;
pub mod told;

ghost use Rattle.std.specs.Prelude.{◌≡◌, ◌≤◌};

pub use program::part::first_records;

/// A number of variables or of outputs as 32 bits: 32 in place of one that is larger.
pub fn at_most_32(x: usize) -> u32
    ensures upper_bound { result ≤ 32 }
    ensures value { x ≤ 32 → result ≡ x }
{
    if 32 < x {
        return 32;
    }
    x as u32
}
