//! The list of a function's cheapest tree, by recursion on the number of variables that are left, over the halves of its vector.

ghost use Rattle.std.specs.Prelude.{◌≡◌, ◌+◌, ◌%◌, ◌^◌, ◌≤◌, ◌<◌, length};
ghost use Rattle.bits.specs.Packed.{packed};
ghost use Rattle.records.specs.Records.{written};
ghost use Rattle.cube.specs.Lists.{cubes};
ghost use Rattle.polarity.specs.Ranks.{counts_of};
ghost use Rattle.polarity.specs.Vectors.{byte_at, Vector};
ghost use Rattle.trees.specs.Trees.{leaf_list};
ghost use Rattle.trees.specs.Least.{tree_list};
ghost use Rattle.trees.specs.Calls.{tree_outcome, tree_after, listed};
ghost use Rattle.trees.specs.Words.{cheapest, PutIs};

use crate::{WrittenTree, least, node};
use bits::packed::Packed;
use bits::{packing, word};
use cube::{Cube, list};
use polarity::{Counts, vector};
use records::{Reason, Refusal};

/// With no variable left: the product c where the function, the lowest bit of w, is 1. It answers the next place.
pub fn put_leaf(w: u64, c: Cube, out: &mut [u8], at: usize) -> usize
    requires { at < 256 }
    ensures value { result ≡ at + length (leaf_list (w % 2) c) }
    ensures out_after { out.new ≡ written cubes at (leaf_list (w % 2) c) out.old }
{
    if w % 2 == 0 {
        return at;
    }
    list::put_cube(out, at, c);
    at + 1
}

/// Writes the products of the tree to which the product c leads, from place `at` on, depth first, and answers the next place.
// Stays: beside `put_choice` of `kronecker`, which goes the same way; here the costs choose the expansion, there a digit does, and a trait for that and for what each branch is told would be longer than what they share.
fn put_tree(
    k: usize,
    left: usize,
    free: bool,
    w: Packed,
    c: Cube,
    out: &mut [u8],
    at: usize,
) -> usize
    requires { (k + left ≤ 8) × (at + 2 ^ left ≤ 256) }
    ensures { PutIs k left (cheapest free) w c at out.old out.new result }
{
    if left == 0 {
        return put_leaf(w.a, c, out, at);
    }
    let m = left - 1;
    let by = least::choose(k, m, free, w);
    let u = node::first_half(by, k, w);
    let v = node::second_half(by, k, w);
    let x = node::first_cube(by, k, c);
    let y = node::second_cube(by, k, c);
    if m == 0 {
        let next = put_leaf(u.a, x, out, at);
        return put_leaf(v.a, y, out, next);
    }
    let j = k + 1;
    let next = put_tree(j, m, node::stays_free(free, by), u, x, out, at);
    put_tree(j, m, false, v, y, out, next)
}

/// The bits of a vector; of at most six variables they stand in one word.
// Stays: n and the bytes apart here and below, with `Vector n` in each contract; docs/CONTRACTS.md names `put_list` and `count_tree` so.
fn bits_of(n: usize, vector: &[u8]) -> Packed
    requires { Vector n vector.now }
    ensures { result ≡ packed vector.now }
{
    if n <= word::VARIABLES {
        return Packed::alone(packing::pack_word(vector, 0));
    }
    Packed::of(vector)
}

/// Writes the tree's list of a vector to the front of a buffer, and answers how many products it has.
pub fn put_list(n: usize, vector: &[u8], out: &mut [u8]) -> usize
    requires { Vector n vector.now }
    ensures value { result ≡ length (tree_list n (byte_at vector.now)) }
    ensures out_after { out.new ≡ written cubes 0 (tree_list n (byte_at vector.now)) out.old }
{
    put_tree(0, n, true, bits_of(n, vector), Cube::ONE, out, 0)
}

/// How many products the tree's list of a vector has, and whether one of them has no literal: it is free.
pub fn count_tree(n: usize, vector: &[u8]) -> Counts
    requires { Vector n vector.now }
    ensures { result ≡ counts_of (tree_list n (byte_at vector.now)) }
{
    let costs = least::least_costs(n, bits_of(n, vector));
    Counts {
        products: costs.products as u32,
        constant: costs.cost != costs.products,
    }
}

/// The tree's list of a truth vector: refusals 1, 14 and 5, or its products and its cost.
pub fn write_tree(n: usize, vector: &[u8], out: &mut [u8]) -> Result<WrittenTree, Refusal>
    ensures result_value { listed result ≡ tree_outcome n vector.now (length out.old) }
    ensures out_after { out.new ≡ tree_after n vector.now out.old }
{
    vector::check_vector(n, vector)?;
    let w = bits_of(n, vector);
    let costs = least::least_costs(n, w);
    if list::capacity(out.len()) < costs.products {
        return Err(Reason::NoRoom.at(0));
    }
    put_tree(0, n, true, w, Cube::ONE, out, 0);
    Ok(WrittenTree {
        products: costs.products,
        cost: costs.cost,
    })
}
