//! Cubes: products of literals by value, as two masks.
#![tactic(auto)]

pub mod list;
pub mod record;
pub mod value;

ghost use Rattle.std.specs.Prelude.{◌≡◌, ◌&&◌, ◌<◌};
ghost use Rattle.bits.specs.Bits.{with_bit, within};
ghost use Rattle.bits.specs.Sums.{one_if};
ghost use Rattle.cube.specs.Cubes.{mask_bits, code, with_code, one, good, variables_below, HoldsAt, DiffersIn};

/// Bit k of seen is set where variable k has a literal, and bit k of value holds that literal's code.
#[derive(Clone, Copy, Debug, PartialEq, Eq)]
pub struct Cube {
    pub seen: u32,
    pub value: u32,
}

/// The value of a list at an assignment, and how many products are true there.
#[derive(Clone, Copy, Debug, PartialEq, Eq)]
pub struct ValueAt {
    pub bit: u8,
    pub trues: usize,
}

/// How many variables the masks have room for.
const MASK_BITS: u32 = 32;

/// x with bit k set where the test passed, and clear where not.
fn with_bit(x: u32, k: u32, t: bool) -> u32
    requires { k < mask_bits }
    ensures { result ≡ with_bit x k (one_if t) }
{
    let m: u32 = 1 << k;
    if t {
        return x | m;
    }
    x ^ (x & m)
}

/// The set of the variables below n, as far as the masks have room.
pub fn variables_below(n: usize) -> u32
    ensures { result ≡ variables_below n }
{
    if MASK_BITS as usize <= n {
        return u32::MAX;
    }
    let next: u32 = 1 << n;
    next - 1
}

impl Cube {
    /// The product with no literal, the constant 1.
    pub const ONE: Cube = Cube { seen: 0, value: 0 };

    /// The product of one literal: at variable v, with the code x.
    pub fn literal(v: u32, x: u8) -> Cube
        ensures { result ≡ with_code one v x }
    {
        Cube::ONE.with_code(v, x)
    }

    /// The literal code at variable v. It takes no branch on the cube.
    // Stays: a code is a number, 0 to 2; docs/CONTRACTS.md names `code_at` and `with_code` so, and the documents fix the arithmetic on codes.
    pub fn code_at(self, v: u32) -> u8
        ensures { result ≡ code self v }
    {
        let seen = bits::bit(self.seen, v);
        let value = bits::bit(self.value, v);
        (2 - seen * (2 - value)) as u8
    }

    /// The cube with the code x at variable v.
    pub fn with_code(self, v: u32, x: u8) -> Cube
        ensures { result ≡ with_code self v x }
    {
        if MASK_BITS <= v {
            return self;
        }
        Cube {
            seen: with_bit(self.seen, v, x < 2),
            value: with_bit(self.value, v, x == 1),
        }
    }

    /// No value bit outside seen, and no seen bit outside the set: all such bits at once, compared with 0.
    pub fn is_within(self, set: u32) -> bool
        ensures { result ≡ (within self.value self.seen && within self.seen set) }
    {
        let seen = self.seen;
        let outside = self.value - (self.value & seen);
        let above = seen - (seen & set);
        outside | above == 0
    }

    /// No value bit outside seen, and no seen bit at or above n.
    pub fn is_good(self, n: usize) -> bool
        ensures { result ≡ good n self }
    {
        self.is_within(variables_below(n))
    }

    /// One masked comparison: the product of a good cube is true at the assignment a.
    pub fn holds_at(self, a: u32) -> bool
        ensures { HoldsAt self a result }
    {
        self.seen & a == self.value
    }

    /// The set of the variables in which good cubes differ.
    pub fn differing(self, other: Cube) -> u32
        ensures { DiffersIn self other result }
    {
        (self.seen ^ other.seen) | (self.value ^ other.value)
    }
}
