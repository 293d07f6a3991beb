//! A word as 64 bits whose indices are sets of six variables: their masks, and the pass of one.

ghost use Rattle.std.specs.Prelude.{◌≡◌, ◌<◌};
ghost use Rattle.bits.specs.Packed.{full_of, mixed, mask_of, lowered_word, raised_word};

/// How many variables tell the bits of one word apart.
pub const VARIABLES: usize = 6;

/// A word whose bits are all set.
pub(crate) const ALL: u64 = 0xffffffffffffffff;

/// The bits of a word whose index is without variable k. By a match, since a table in a constant would be copied to the stack at each use.
pub(crate) fn mask(k: usize) -> u64
    requires { k < 6 }
    ensures { result ≡ mask_of k }
{
    match k {
        0 => 0x5555555555555555,
        1 => 0x3333333333333333,
        2 => 0x0f0f0f0f0f0f0f0f,
        3 => 0x00ff00ff00ff00ff,
        4 => 0x0000ffff0000ffff,
        _ => 0x00000000ffffffff,
    }
}

/// To each bit without variable k, the bit with it is added.
pub fn lower_word(x: u64, k: usize) -> u64
    requires { k < 6 }
    ensures { result ≡ lowered_word k x }
{
    let h: usize = 1 << k;
    x ^ ((x >> h) & mask(k))
}

/// To each bit with variable k, the bit without it is added.
pub fn raise_word(x: u64, k: usize) -> u64
    requires { k < 6 }
    ensures { result ≡ raised_word k x }
{
    let h: usize = 1 << k;
    x ^ ((x & mask(k)) << h)
}

/// Every bit of a word, or none.
pub(crate) fn full(t: bool) -> u64
    ensures { result ≡ full_of t }
{
    u64::from(t) * ALL
}

/// The bits of x where m has one, and those of y where it has none.
pub(crate) fn mix(m: u64, x: u64, y: u64) -> u64
    ensures { result ≡ mixed m x y }
{
    y ^ (m & (x ^ y))
}
