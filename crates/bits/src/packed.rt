//! 256 bits in four words. Bit t is bit t % 64 of word t / 64.

ghost use Rattle.std.specs.Prelude.{◌≡◌};
ghost use Rattle.bits.specs.Below.{sum_below};
ghost use Rattle.bits.specs.Packed.{alone, bit_at, both, summed, without_bits, literal_bits, packed, put_bits, lowered, raised};

use crate::{packing, word};

/// Four words, the lowest first.
#[derive(Clone, Copy, Debug, PartialEq, Eq)]
pub struct Packed {
    pub a: u64,
    pub b: u64,
    pub c: u64,
    pub d: u64,
}

/// The bits whose index is without variable k.
fn without(k: usize) -> Packed
    ensures { result ≡ without_bits k }
{
    if k < 6 {
        let m = word::mask(k);
        return Packed {
            a: m,
            b: m,
            c: m,
            d: m,
        };
    }
    if k == 6 {
        return Packed {
            a: word::ALL,
            b: 0,
            c: word::ALL,
            d: 0,
        };
    }
    Packed {
        a: word::ALL,
        b: word::ALL,
        c: 0,
        d: 0,
    }
}

impl Packed {
    /// No bit.
    pub const NONE: Packed = Packed {
        a: 0,
        b: 0,
        c: 0,
        d: 0,
    };

    /// Every bit.
    pub const EVERY: Packed = Packed {
        a: word::ALL,
        b: word::ALL,
        c: word::ALL,
        d: word::ALL,
    };

    /// The first word alone.
    pub fn alone(x: u64) -> Packed
        ensures { result ≡ alone x }
    {
        Packed {
            a: x,
            b: 0,
            c: 0,
            d: 0,
        }
    }

    /// The bits at whose index the literal with code x at variable k is true. It takes no branch on x.
    pub fn literal(k: usize, x: u8) -> Packed
        ensures { result ≡ literal_bits x k }
    {
        let m = without(k);
        let low = word::full(x != 1);
        let high = word::full(x != 0);
        m.each(|x| word::mix(x, low, high))
    }

    /// Each word by itself.
    #[inline(always)]
    fn each<F: Fn(u64) -> u64>(self, change: F) -> Packed
        requires { F.IsAlwaysCallable change }
        ensures { F.post change self.a result.a
            × F.post change self.b result.b
            × F.post change self.c result.c
            × F.post change self.d result.d }
    {
        Packed {
            a: change(self.a),
            b: change(self.b),
            c: change(self.c),
            d: change(self.d),
        }
    }

    /// Each word with the other's.
    #[inline(always)]
    fn zip<F: Fn(u64, u64) -> u64>(self, other: Packed, join: F) -> Packed
        requires { F.IsAlwaysCallable join }
        ensures { F.post join self.a other.a result.a
            × F.post join self.b other.b result.b
            × F.post join self.c other.c result.c
            × F.post join self.d other.d result.d }
    {
        Packed {
            a: join(self.a, other.a),
            b: join(self.b, other.b),
            c: join(self.c, other.c),
            d: join(self.d, other.d),
        }
    }

    /// The bits that are set in both.
    pub fn both(self, other: Packed) -> Packed
        ensures { result ≡ both self other }
    {
        self.zip(other, |x, y| x & y)
    }

    /// The sums of the bits, modulo 2.
    pub fn sum(self, other: Packed) -> Packed
        ensures { result ≡ summed self other }
    {
        self.zip(other, |x, y| x ^ y)
    }

    /// The lowest bit of each of the first 256 bytes: of bytes that are 0 or 1, the bytes themselves.
    pub fn of(bytes: &[u8]) -> Packed
        ensures { result ≡ packed bytes.now }
    {
        Packed {
            a: packing::pack_word(bytes, 0),
            b: packing::pack_word(bytes, 64),
            c: packing::pack_word(bytes, 128),
            d: packing::pack_word(bytes, 192),
        }
    }

    /// The bits to the front of a buffer, a byte each, as many as there are places.
    pub fn put(self, out: &mut [u8])
        ensures { out.new ≡ put_bits self out.old }
    {
        packing::put_word(self.a, out, 0);
        packing::put_word(self.b, out, 64);
        packing::put_word(self.c, out, 128);
        packing::put_word(self.d, out, 192);
    }

    /// To each bit without variable k, the bit with it is added.
    pub fn lowered(self, k: usize) -> Packed
        ensures { result ≡ lowered k self }
    {
        if k < 6 {
            return self.each(|x| word::lower_word(x, k));
        }
        if k == 6 {
            return Packed {
                a: self.a ^ self.b,
                b: self.b,
                c: self.c ^ self.d,
                d: self.d,
            };
        }
        Packed {
            a: self.a ^ self.c,
            b: self.b ^ self.d,
            c: self.c,
            d: self.d,
        }
    }

    /// To each bit with variable k, the bit without it is added.
    pub fn raised(self, k: usize) -> Packed
        ensures { result ≡ raised k self }
    {
        if k < 6 {
            return self.each(|x| word::raise_word(x, k));
        }
        if k == 6 {
            return Packed {
                a: self.a,
                b: self.b ^ self.a,
                c: self.c,
                d: self.d ^ self.c,
            };
        }
        Packed {
            a: self.a,
            b: self.b,
            c: self.c ^ self.a,
            d: self.d ^ self.b,
        }
    }

    /// How many bits are set.
    pub fn ones(self) -> u32
        ensures { result ≡ sum_below 256 (bit_at self) }
    {
        u64::count_ones(self.a)
            + u64::count_ones(self.b)
            + u64::count_ones(self.c)
            + u64::count_ones(self.d)
    }
}
