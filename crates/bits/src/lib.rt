//! Bits of a number, and numbers as sets of variables.

#![tactic(auto)]

pub mod packed;
pub mod packing;
pub mod passes;
pub mod word;

ghost use Rattle.std.specs.Prelude.{◌≡◌};
ghost use Rattle.bits.specs.Bits.{bit};

/// How many bits a number that stands for a set has.
const SET_BITS: u32 = 32;

/// Bit k of x; 0 past its last bit.
pub fn bit(x: u32, k: u32) -> u32
    ensures { result ≡ bit x k }
{
    if SET_BITS <= k {
        return 0;
    }
    (x >> k) % 2
}
