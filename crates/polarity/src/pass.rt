//! The passes of a vector's variables over its bits, whether these stand in one word or in four. Both kinds of pass are their own inverse.

ghost use Rattle.std.specs.Prelude.{◌≡◌, ◌^◌, ◌≤◌, ◌<◌};
ghost use Rattle.bits.specs.Packed.{raised};
ghost use Rattle.polarity.specs.Vectors.{byte_at, Vector};
ghost use Rattle.polarity.specs.Words.{Shows, passed, turned_at, transformed};

use bits::passes::Bits;

/// The pass up of each variable below n: from a vector, its positive coefficients.
pub(crate) fn raised_below<B: Bits>(n: usize, bits: B) -> B
    requires { n ≤ B.VARIABLES }
    ensures { B.shown result ≡ passed raised n (B.shown bits) }
{
    let mut next = bits;
    for k in 0..n {
        next = next.raised(k);
    }
    next
}

/// The pass down of variable k, where p has it.
fn turned_at<B: Bits>(p: usize, k: usize, bits: B) -> B
    requires { (k < B.VARIABLES) × (k < 64) }
    ensures { B.shown result ≡ turned_at p k (B.shown bits) }
{
    if (p >> k) % 2 == 0 {
        return bits;
    }
    bits.lowered(k)
}

/// The pass down of each variable of p: from the coefficients under any polarity, those with p's variables turned in it.
fn turned_by<B: Bits>(n: usize, p: usize, bits: B) -> B
    requires { (n ≤ B.VARIABLES) × (n ≤ 64) }
    ensures { B.shown result ≡ passed (turned_at p) n (B.shown bits) }
{
    let mut next = bits;
    for k in 0..n {
        next = turned_at(p, k, next);
    }
    next
}

/// The bits of the coefficients of a vector under p; or, back, of the vector of such coefficients.
pub(crate) fn transformed<B: Bits>(back: bool, n: usize, bytes: &[u8], p: usize) -> B
    requires { Vector n bytes.now × (p < 2 ^ n) × (n ≤ B.VARIABLES) }
    ensures { Shows n (transformed back n p (byte_at bytes.now)) (B.shown result) }
{
    let bits = B::of(bytes);
    if back {
        return raised_below(n, turned_by(n, p, bits));
    }
    turned_by(n, p, raised_below(n, bits))
}
