//! One node: the halves of a vector by a variable, the literals that lead to the branches, and the choice among the three expansions.

ghost use Rattle.std.specs.Prelude.{◌≡◌, ◌&&◌, ◌<◌};
ghost use Rattle.cube.specs.Cubes.{with_code};
ghost use Rattle.trees.specs.Trees.{first_code, second_code, unmarked};
ghost use Rattle.trees.specs.Least.{first_of_three};
ghost use Rattle.trees.specs.Words.{first_half, second_half};

use crate::Expansion;
use bits::passes::Bits;
use cube::Cube;

/// The vector of the first branch, in one word or in four.
#[inline(always)]
pub fn first_half<B: Bits>(by: Expansion, k: usize, w: B) -> B
    requires { k < B.VARIABLES }
    ensures { B.shown result ≡ first_half by k (B.shown w) }
{
    let upper = w.sum(w.lowered(k));
    match by {
        Expansion::Shannon => w,
        Expansion::Positive => w,
        Expansion::Negative => upper,
    }
}

/// The vector of the second branch.
#[inline(always)]
pub fn second_half<B: Bits>(by: Expansion, k: usize, w: B) -> B
    requires { k < B.VARIABLES }
    ensures { B.shown result ≡ second_half by k (B.shown w) }
{
    let change = w.lowered(k);
    let upper = w.sum(change);
    match by {
        Expansion::Shannon => upper,
        Expansion::Positive => change,
        Expansion::Negative => change,
    }
}

/// The code of the literal that leads to the first branch.
// Stays: a code by its number, 0 to 2, as `Cube::with_code` takes it.
fn first_code(by: Expansion) -> u8
    ensures { result ≡ first_code by }
{
    match by {
        Expansion::Shannon => 0,
        Expansion::Positive => 2,
        Expansion::Negative => 2,
    }
}

/// The code of the literal that leads to the second branch.
fn second_code(by: Expansion) -> u8
    ensures { result ≡ second_code by }
{
    match by {
        Expansion::Shannon => 1,
        Expansion::Positive => 1,
        Expansion::Negative => 0,
    }
}

/// The product that leads to the first branch of a node by variable k, where c leads to the node.
pub fn first_cube(by: Expansion, k: usize, c: Cube) -> Cube
    requires { k < 8 }
    ensures { result ≡ with_code c k (first_code by) }
{
    c.with_code(k as u32, first_code(by))
}

/// The product that leads to its second branch.
pub fn second_cube(by: Expansion, k: usize, c: Cube) -> Cube
    requires { k < 8 }
    ensures { result ≡ with_code c k (second_code by) }
{
    c.with_code(k as u32, second_code(by))
}

/// Whether still no literal leads to the first branch.
pub(crate) fn stays_free(free: bool, by: Expansion) -> bool
    ensures { result ≡ (free && unmarked by) }
{
    free && first_code(by) == 2
}

/// The expansion of least cost, and of several such the first.
pub(crate) fn first_least(shannon: usize, positive: usize, negative: usize) -> Expansion
    ensures { result ≡ first_of_three shannon positive negative }
{
    if shannon <= positive.min(negative) {
        return Expansion::Shannon;
    }
    if positive <= negative {
        return Expansion::Positive;
    }
    Expansion::Negative
}
