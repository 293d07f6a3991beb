//! Decisions, on values alone: from the count, the places and the cubes at them, what a step does.
ghost use Rattle.std.specs.Prelude.{◌≡◌, ◌^◌, ◌<◌, ◌≤◌};
ghost use Rattle.std.specs.Int.Count.{ones};
ghost use Rattle.cube.specs.Cubes.{code, with_code, Good, mask_bits};
ghost use Rattle.cube.specs.Lists.{most_variables};
ghost use Rattle.records.specs.Reasons.{number_of};
ghost use Rattle.orders.specs.Codes.{third_of, lower, higher};
ghost use Rattle.steps.specs.declared.Change.TheVariants.{Refuse};
ghost use Rattle.steps.specs.Moves.{step_refusal, step_refusal_with};
ghost use Rattle.steps.specs.Steps.{drop_move, join_move, split_move, turn_move};
ghost use Rattle.steps.specs.Calls.{Known};
ghost use Rattle.steps.specs.Changes.{move_of, places_number, Misplaced, Decided};

use crate::{Change, Step, StepRecord, StepRefusal};
use cube::Cube;
use records::Reason;

/// Why two places are refused, if they are.
#[inline(always)]
pub fn misplaced(count: usize, i: usize, j: usize) -> Option<Reason>
    ensures { Misplaced count i j result }
{
    if count <= i {
        return Some(Reason::NoSuchPlace);
    }
    if count <= j {
        return Some(Reason::NoSuchPlace);
    }
    if i == j {
        return Some(Reason::SamePlace);
    }
    None
}

/// The number that two places are refused by, 10 or 11, or 0.
// Stays: a number for a reason, 0 for none; docs/CONTRACTS.md names it.
pub fn two_places(count: usize, i: usize, j: usize) -> u8
    ensures { result ≡ places_number count i j }
{
    misplaced(count, i, j).map_or(0, |reason| reason as u8)
}

/// Refused, whatever the cubes are: there is no number of differing variables.
#[inline(always)]
pub fn refuse<T>(reason: Reason) -> Change<T>
    ensures { result ≡ Refuse (step_refusal (number_of reason)) }
{
    Change::Refuse(StepRefusal {
        number: reason as u8,
        differing: 0,
    })
}

/// Refused for the set of the variables in which the cubes differ: their number is its count of ones.
#[inline(always)]
pub(crate) fn unfit(reason: Reason, set: u32) -> Change<Cube>
    ensures { result ≡ Refuse (step_refusal_with (number_of reason) (ones set)) }
{
    Change::Refuse(StepRefusal {
        number: reason as u8,
        differing: set.count_ones(),
    })
}

/// The set of one variable.
#[inline(always)]
pub(crate) fn only(v: u32) -> u32
    requires { v < mask_bits }
    ensures { result ≡ 2 ^ v }
{
    1 << v
}

/// c with the third of c's and d's codes at v.
#[inline(always)]
pub fn third_at(c: Cube, d: Cube, v: u32) -> Cube
    ensures { result ≡ with_code c v (third_of (code c v) (code d v)) }
{
    c.with_code(v, orders::third(c.code_at(v), d.code_at(v)))
}

/// The lower of the two codes that are not x.
#[tactic(auto, using(crate::proofs::decide::Deciding::is_then, crate::proofs::decide::Deciding::is_else))]
#[inline(always)]
fn lower(x: u8) -> u8
    ensures { result ≡ lower x }
{
    if x == 0 {
        return 1;
    }
    0
}

/// The higher of them.
#[tactic(auto, using(crate::proofs::decide::Deciding::is_then, crate::proofs::decide::Deciding::is_else))]
#[inline(always)]
fn higher(x: u8) -> u8
    ensures { result ≡ higher x }
{
    if x == 2 {
        return 1;
    }
    2
}

/// Drop: 10, 11; 16 unless the cubes are equal.
#[inline(always)]
pub(crate) fn decide_drop(
    n: usize,
    count: usize,
    i: usize,
    j: usize,
    a: Cube,
    b: Cube,
) -> Change<Cube>
    requires { Good n a × Good n b }
    ensures { move_of result ≡ drop_move n count i j a b }
{
    if let Some(reason) = misplaced(count, i, j) {
        return refuse(reason);
    }
    let set = a.differing(b);
    if set != 0 {
        return unfit(Reason::Unequal, set);
    }
    Change::Drop
}

/// Join: 10, 11; 17 unless they differ in exactly one variable.
#[inline(always)]
pub(crate) fn decide_join(
    n: usize,
    count: usize,
    i: usize,
    j: usize,
    a: Cube,
    b: Cube,
) -> Change<Cube>
    requires good { Good n a × Good n b }
    requires n_le_most_variables { n ≤ most_variables }
    ensures { move_of result ≡ join_move n count i j a b }
{
    if let Some(reason) = misplaced(count, i, j) {
        return refuse(reason);
    }
    let set = a.differing(b);
    if set.count_ones() != 1 {
        return unfit(Reason::NotOneApart, set);
    }
    let v = set.trailing_zeros();
    Change::Join(third_at(a, b, v))
}

/// Split: 10; 13 at capacity.
#[inline(always)]
pub(crate) fn decide_split(count: usize, cap: usize, v: u32, i: usize, a: Cube) -> Change<Cube>
    requires { v < mask_bits }
    ensures { move_of result ≡ split_move count cap v i a }
{
    if count <= i {
        return refuse(Reason::NoSuchPlace);
    }
    if cap <= count {
        return refuse(Reason::Full);
    }
    let x = a.code_at(v);
    Change::Split(a.with_code(v, lower(x)), a.with_code(v, higher(x)))
}

/// Turn: 10, 11; 18 unless they differ in exactly two variables; then 19 unless v is one of them.
#[inline(always)]
fn decide_turn(n: usize, count: usize, v: u32, i: usize, j: usize, a: Cube, b: Cube) -> Change<Cube>
    requires good { Good n a × Good n b }
    requires v_lt_n { (v < n) × (n ≤ most_variables) }
    ensures { move_of result ≡ turn_move n count v i j a b }
{
    if let Some(reason) = misplaced(count, i, j) {
        return refuse(reason);
    }
    let set = a.differing(b);
    if set.count_ones() != 2 {
        return unfit(Reason::NotTwoApart, set);
    }
    if bits::bit(set, v) == 0 {
        return unfit(Reason::EqualThere, set);
    }
    let other = (set ^ only(v)).trailing_zeros();
    Change::Turn(third_at(a, b, v), third_at(b, a, other))
}

/// What a drop, join, split or turn does, from the cubes at its places.
#[inline(always)]
pub fn decide(n: usize, count: usize, cap: usize, x: StepRecord, a: Cube, b: Cube) -> Change<Cube>
    requires good { Good n a × Good n b }
    requires n_le_most_variables { n ≤ most_variables }
    requires known { Known n x }
    requires op_bound { x.op < 5 }
    ensures { Decided n count cap x a b result }
{
    match Step::from(x) {
        Step::Drop { i, j } => decide_drop(n, count, i, j, a, b),
        Step::Join { i, j } => decide_join(n, count, i, j, a, b),
        Step::Split { v, i } => decide_split(count, cap, v, i, a),
        Step::Turn { v, i, j } => decide_turn(n, count, v, i, j, a, b),
        Step::L { .. } => unreachable!(),
    }
}
