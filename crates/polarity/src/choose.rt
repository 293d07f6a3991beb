//! The best polarity of a truth vector. The coefficients are bits of four words, or of one. From those under one polarity, those with one more
//! variable complemented come by one pass.

ghost use Rattle.std.specs.Prelude.{◌≡◌, ◌+◌, ◌^◌, ◌≤◌};
ghost use Rattle.polarity.specs.Vectors.{byte_at, Vector};
ghost use Rattle.polarity.specs.Calls.{found, best_outcome};
ghost use Rattle.polarity.specs.Words.{lesser_of, best_from, ChosenIs};

use crate::{BestPolarity, form, pass, vector};
use bits::packed::Packed;
use bits::passes::Bits;
use bits::word;
use records::Refusal;

/// A polarity and the rank of its form.
#[derive(Clone, Copy)]
struct Chosen {
    polarity: usize,
    rank: usize,
}

/// Of two that are each the best of a range, where the ranges lie side by side, the best of both: on a tie the lower. Field by field, so that
/// both stay in registers: a struct that is chosen whole is chosen in memory.
fn lesser_of(lower: Chosen, upper: Chosen) -> Chosen
    ensures { result ≡ lesser_of lower upper }
{
    let t = upper.rank < lower.rank;
    Chosen {
        polarity: if t { upper.polarity } else { lower.polarity },
        rank: upper.rank.min(lower.rank),
    }
}

/// The best of one polarity. Of bits in one word the compiler drops the three words that are 0.
#[inline(always)]
fn best_of_one<B: Bits>(w: B, p: usize) -> Chosen
    ensures { result ≡ best_from 0 (B.shown w) p }
{
    Chosen {
        polarity: p,
        rank: form::rank(form::counts_of(w.words())),
    }
}

/// The best of 2 polarities: those that have p's variables from 1 on.
#[inline(always)]
fn best_of_two<B: Bits>(w: B, p: usize) -> Chosen
    requires { (1 ≤ B.VARIABLES) × (p + 2 ≤ 256) }
    ensures { result ≡ best_from 1 (B.shown w) p }
{
    lesser_of(best_of_one(w, p), best_of_one(w.lowered(0), p + 1))
}

/// The best of 4 polarities: those that have p's variables from 2 on.
#[inline(always)]
fn best_of_four<B: Bits>(w: B, p: usize) -> Chosen
    requires { (2 ≤ B.VARIABLES) × (p + 4 ≤ 256) }
    ensures { result ≡ best_from 2 (B.shown w) p }
{
    lesser_of(best_of_two(w, p), best_of_two(w.lowered(1), p + 2))
}

/// The best of 8 polarities: those that have p's variables from 3 on. The compiler takes all of it as one piece.
fn best_of_eight<B: Bits>(w: B, p: usize) -> Chosen
    requires { (3 ≤ B.VARIABLES) × (p + 8 ≤ 256) }
    ensures { result ≡ best_from 3 (B.shown w) p }
{
    lesser_of(best_of_four(w, p), best_of_four(w.lowered(2), p + 4))
}

/// The best of the polarities that have p's variables from k on, from the coefficients under p, which has none below k, for at least three variables.
fn best_from<B: Bits>(k: usize, w: B, p: usize) -> Chosen
    requires { (3 ≤ k) × (k ≤ B.VARIABLES) × (k ≤ 8) × (p + 2 ^ k ≤ 256) }
    ensures { result ≡ best_from k (B.shown w) p }
{
    if k == 3 {
        return best_of_eight(w, p);
    }
    let j = k - 1;
    let h: usize = 1 << j;
    lesser_of(best_from(j, w, p), best_from(j, w.lowered(j), p + h))
}

/// The polarity of least rank, and of several such the smallest; of at most two variables without a call that calls itself.
fn best_of_all<B: Bits>(n: usize, vector: &[u8]) -> Chosen
    requires { Vector n vector.now × (n ≤ B.VARIABLES) × (2 ≤ B.VARIABLES) }
    ensures { ChosenIs n (byte_at vector.now) result }
{
    let w = pass::raised_below(n, B::of(vector));
    match n {
        0 => best_of_one(w, 0),
        1 => best_of_two(w, 0),
        2 => best_of_four(w, 0),
        _ => best_from(n, w, 0),
    }
}

/// The same, of bits in one word where they fit.
fn find_best(n: usize, vector: &[u8]) -> Chosen
    requires { Vector n vector.now }
    ensures { ChosenIs n (byte_at vector.now) result }
{
    if n <= word::VARIABLES {
        return best_of_all::<u64>(n, vector);
    }
    best_of_all::<Packed>(n, vector)
}

/// The best polarity of a truth vector: refusals 1 and 14, or it and its size. Half of a rank are the products.
pub fn best_polarity(n: usize, vector: &[u8]) -> Result<BestPolarity, Refusal>
    ensures { found result ≡ best_outcome n vector.now }
{
    vector::check_vector(n, vector)?;
    let best = find_best(n, vector);
    Ok(BestPolarity {
        polarity: best.polarity,
        products: best.rank / 2,
    })
}
