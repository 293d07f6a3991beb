//! The bits of a vector, in one word or in four: what a pass over its variables needs, whichever they stand in.

ghost use Rattle.std.specs.Prelude.{◌≡◌, ℕ, ◌^◌, ◌<◌, ◌≤◌, length};
ghost use Rattle.bits.specs.Below.{list_below};
ghost use Rattle.bits.specs.Packed.{alone, bit_at, summed, packed, lowered, raised};
ghost use Rattle.bits.specs.declared.packed.Packed.{Packed};

use crate::packed::Packed;
use crate::{packing, word};

/// The bits of a vector of at most so many variables.
pub trait Bits: Copy {
    /// The same bits in four words.
    ghost shown: { Self → Packed };

    ghost VARIABLES: { ℕ };

    const VARIABLES: usize;

    /// The lowest bit of each byte.
    fn of(bytes: &[u8]) -> Self
        requires { length bytes.now ≤ 2 ^ VARIABLES }
        ensures { shown result ≡ packed bytes.now };

    /// The bits, a byte each.
    fn put(self, out: &mut [u8])
        requires { length out.old ≤ 2 ^ VARIABLES }
        ensures { out.new ≡ list_below (length out.old) (bit_at (shown self)) };

    /// To each bit without variable k, the bit with it is added.
    fn lowered(self, k: usize) -> Self
        requires { k < VARIABLES }
        ensures { shown result ≡ lowered k (shown self) };

    /// To each bit with variable k, the bit without it is added.
    fn raised(self, k: usize) -> Self
        requires { k < VARIABLES }
        ensures { shown result ≡ raised k (shown self) };

    /// The sums of the bits, modulo 2.
    fn sum(self, other: Self) -> Self
        ensures { shown result ≡ summed (shown self) (shown other) };

    /// The bits in four words.
    fn words(self) -> Packed
        ensures { result ≡ shown self };
}

impl Bits for u64 {
    ghost shown = { alone };

    ghost VARIABLES = { 6 };

    const VARIABLES: usize = word::VARIABLES;

    #[inline(always)]
    fn of(bytes: &[u8]) -> u64 {
        packing::pack_word(bytes, 0)
    }

    #[inline(always)]
    fn put(self, out: &mut [u8]) {
        packing::put_bits(self, out);
    }

    #[inline(always)]
    fn lowered(self, k: usize) -> u64 {
        word::lower_word(self, k)
    }

    #[inline(always)]
    fn raised(self, k: usize) -> u64 {
        word::raise_word(self, k)
    }

    #[inline(always)]
    fn sum(self, other: u64) -> u64 {
        self ^ other
    }

    #[inline(always)]
    fn words(self) -> Packed {
        Packed::alone(self)
    }
}

impl Bits for Packed {
    ghost shown = { λ w. w };

    ghost VARIABLES = { 8 };

    const VARIABLES: usize = 8;

    #[inline(always)]
    fn of(bytes: &[u8]) -> Packed {
        Packed::of(bytes)
    }

    #[inline(always)]
    fn put(self, out: &mut [u8]) {
        Packed::put(self, out);
    }

    #[inline(always)]
    fn lowered(self, k: usize) -> Packed {
        Packed::lowered(self, k)
    }

    #[inline(always)]
    fn raised(self, k: usize) -> Packed {
        Packed::raised(self, k)
    }

    #[inline(always)]
    fn sum(self, other: Packed) -> Packed {
        Packed::sum(self, other)
    }

    #[inline(always)]
    fn words(self) -> Packed {
        self
    }
}
