//! The least cost of a function's trees, by recursion on the number of variables that are left, over the halves of its vector. The bits of a vector
//! stand in four words; its half without the next variable stays where it is.

ghost use Rattle.std.specs.Prelude.{◌≡◌, suc, ◌+◌, ◌%◌, ◌≤◌};
ghost use Rattle.trees.specs.Words.{words, least_sum, Few, leaf_costs, node_costs, PaidIs, CostsAre, ChoiceIs};

use crate::{Costs, Expansion, node};
use bits::packed::Packed;

/// The least cost of a node to which a literal leads: any two of the three functions are its branches.
fn joined(lower: usize, upper: usize, change: usize) -> usize
    requires { (lower ≤ 256) × (upper ≤ 256) × (change ≤ 256) }
    ensures { result ≡ least_sum lower upper change }
{
    (lower + upper.min(change)).min(upper + change)
}

/// The same with no variable left. The compiler takes this and the next three functions as one piece.
fn paid_of_none(w: Packed) -> usize
    ensures { result ≡ w.a % 2 }
{
    (w.a % 2) as usize
}

/// With one variable left.
fn paid_of_one(k: usize, w: Packed) -> usize
    requires { k + 1 ≤ 8 }
    ensures { PaidIs k 1 w result }
{
    let change = w.lowered(k);
    let upper = w.sum(change);
    joined(paid_of_none(w), paid_of_none(upper), paid_of_none(change))
}

/// With two.
fn paid_of_two(k: usize, w: Packed) -> usize
    requires { k + 2 ≤ 8 }
    ensures { PaidIs k 2 w result }
{
    let change = w.lowered(k);
    let upper = w.sum(change);
    let j = k + 1;
    joined(
        paid_of_one(j, w),
        paid_of_one(j, upper),
        paid_of_one(j, change),
    )
}

/// With at most two.
fn paid_of_few(k: usize, left: usize, w: Packed) -> usize
    requires { (left ≤ 2) × (k + left ≤ 8) }
    ensures { PaidIs k left w result }
{
    if left == 0 {
        return paid_of_none(w);
    }
    if left == 1 {
        return paid_of_one(k, w);
    }
    paid_of_two(k, w)
}

/// With any number of them. Word by word, since a struct of four words goes through memory at each call.
fn least_paid(k: usize, left: usize, a: u64, b: u64, c: u64, d: u64) -> usize
    requires { k + left ≤ 8 }
    ensures { PaidIs k left (words a b c d) result }
{
    let w = Packed { a, b, c, d };
    if left <= 2 {
        return paid_of_few(k, left, w);
    }
    let change = w.lowered(k);
    let upper = w.sum(change);
    let j = k + 1;
    let m = left - 1;
    joined(
        least_paid(j, m, a, b, c, d),
        least_paid(j, m, upper.a, upper.b, upper.c, upper.d),
        least_paid(j, m, change.a, change.b, change.c, change.d),
    )
}

/// With no variable left: the product without literals is free where no literal leads to it.
fn costs_of_none(w: Packed) -> Costs
    ensures { result ≡ leaf_costs (w.a % 2) }
{
    let x = (w.a % 2) as usize;
    Costs {
        cost: 0,
        products: x,
        paid: x,
    }
}

/// A node, from the costs of its three functions.
fn node_costs(lower: Costs, upper: Costs, change: usize) -> Costs
    requires { Few 256 lower × Few 256 upper × (change ≤ 256) }
    ensures { result ≡ node_costs lower upper change }
{
    let shannon = lower.paid + upper.paid;
    let positive = lower.cost + change;
    let negative = upper.cost + change;
    let paid = joined(lower.paid, upper.paid, change);
    match node::first_least(shannon, positive, negative) {
        Expansion::Shannon => Costs {
            cost: shannon,
            products: shannon,
            paid,
        },
        Expansion::Positive => Costs {
            cost: positive,
            products: lower.products + change,
            paid,
        },
        Expansion::Negative => Costs {
            cost: negative,
            products: upper.products + change,
            paid,
        },
    }
}

// Stays: beside `least_paid`, which goes the same way; that one has one number to answer, and these three.
/// Both least costs of the function of the variables from k on, and the products of the tree to which no literal leads.
fn costs_from(k: usize, left: usize, a: u64, b: u64, c: u64, d: u64) -> Costs
    requires { k + left ≤ 8 }
    ensures { CostsAre k left (words a b c d) result }
{
    let w = Packed { a, b, c, d };
    if left == 0 {
        return costs_of_none(w);
    }
    let change = w.lowered(k);
    let upper = w.sum(change);
    let j = k + 1;
    let m = left - 1;
    node_costs(
        costs_from(j, m, a, b, c, d),
        costs_from(j, m, upper.a, upper.b, upper.c, upper.d),
        least_paid(j, m, change.a, change.b, change.c, change.d),
    )
}

/// The same of all n variables.
pub(crate) fn least_costs(n: usize, w: Packed) -> Costs
    requires { n ≤ 8 }
    ensures { CostsAre 0 n w result }
{
    costs_from(0, n, w.a, w.b, w.c, w.d)
}

/// The expansion at a node by variable k, with m variables left below it; `free` says that no literal leads to the node.
pub(crate) fn choose(k: usize, m: usize, free: bool, w: Packed) -> Expansion
    requires { k + suc m ≤ 8 }
    ensures { ChoiceIs k m free w result }
{
    let change = w.lowered(k);
    let upper = w.sum(change);
    let j = k + 1;
    let d = least_paid(j, m, change.a, change.b, change.c, change.d);
    if free {
        let l = costs_from(j, m, w.a, w.b, w.c, w.d);
        let h = costs_from(j, m, upper.a, upper.b, upper.c, upper.d);
        return node::first_least(l.paid + h.paid, l.cost + d, h.cost + d);
    }
    let l = least_paid(j, m, w.a, w.b, w.c, w.d);
    let h = least_paid(j, m, upper.a, upper.b, upper.c, upper.d);
    node::first_least(l + h, l + d, h + d)
}
