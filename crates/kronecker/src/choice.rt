//! The list of the cheapest choice of one expansion for each variable, by recursion on the number of variables that are left, over the halves of its vector.

ghost use Rattle.std.specs.Prelude.{◌≡◌, ◌+◌, ◌^◌, ◌≤◌, ◌<◌, length};
ghost use Rattle.bits.specs.Packed.{alone};
ghost use Rattle.trees.specs.Words.{PutIs};
ghost use Rattle.kronecker.specs.Choices.{expansion_of};
ghost use Rattle.kronecker.specs.Calls.{kronecker_outcome, kronecker_after, kronecker_listed};
ghost use Rattle.kronecker.specs.Words.{each};

use crate::{WrittenKronecker, search};
use bits::packing;
use cube::{Cube, list};
use polarity::vector;
use records::{Reason, Refusal};
use trees::{Expansion, node, tree};

/// How many variables a vector has, at most.
const MOST_VARIABLES: usize = 6;

/// The expansion of a digit: 0 Shannon, 1 positive Davio, 2 negative Davio.
fn expansion_of(digit: usize) -> Expansion
    ensures { result ≡ expansion_of digit }
{
    match digit {
        0 => Expansion::Shannon,
        1 => Expansion::Positive,
        _ => Expansion::Negative,
    }
}

/// Writes the products of the choice's tree to which the product c leads, from place `at` on, depth first, and answers the next place.
// Stays: beside `put_tree` of `trees`, where the reason stands.
fn put_choice(
    k: usize,
    left: usize,
    choice: usize,
    w: u64,
    c: Cube,
    out: &mut [u8],
    at: usize,
) -> usize
    requires { (k + left ≤ 6) × (at + 2 ^ left ≤ 64) }
    ensures { PutIs k left (each choice) (alone w) c at out.old out.new result }
{
    if left == 0 {
        return tree::put_leaf(w, c, out, at);
    }
    let m = left - 1;
    let j = k + 1;
    let by = expansion_of(choice % 3);
    let rest = choice / 3;
    let u = node::first_half(by, k, w);
    let v = node::second_half(by, k, w);
    let x = node::first_cube(by, k, c);
    let y = node::second_cube(by, k, c);
    if m == 0 {
        let next = tree::put_leaf(u, x, out, at);
        return tree::put_leaf(v, y, out, next);
    }
    let next = put_choice(j, m, rest, u, x, out, at);
    put_choice(j, m, rest, v, y, out, next)
}

/// The Kronecker list of a truth vector: refusals 1, 14 and 5, or its cost, its choice and its products.
pub fn write_kronecker(n: usize, vector: &[u8], out: &mut [u8]) -> Result<WrittenKronecker, Refusal>
    ensures result_value { kronecker_listed result ≡ kronecker_outcome n vector.now (length out.old) }
    ensures out_after { out.new ≡ kronecker_after n vector.now out.old }
{
    if MOST_VARIABLES < n {
        return Err(Reason::TooManyVariables.at(0));
    }
    vector::check_vector(n, vector)?;
    let w = packing::pack_word(vector, 0);
    let found = search::find(n, w);
    if list::capacity(out.len()) < found.products {
        return Err(Reason::NoRoom.at(0));
    }
    put_choice(0, n, found.choice, w, Cube::ONE, out, 0);
    Ok(found)
}
