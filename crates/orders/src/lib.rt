//! Literal codes by themselves: the third of two codes, by arithmetic, and the six orders of the codes 0, 1, 2, each rule of theirs a small constant table.
#![tactic(auto)]

ghost use Rattle.std.specs.Prelude.{◌≡◌};
ghost use Rattle.orders.specs.Codes.{third_of};
ghost use Rattle.orders.specs.Orders.{code_after, follow, inverse, letter_order};

/// The codes 0, 1, 2.
// Stays: codes and orders are numbers; the documents fix the arithmetic on codes, 3 less both, and docs/CONTRACTS.md names `third`, `code_after` and `follow` with numbers.
const CODES: u8 = 3;

/// The orders 0 to 5.
const ORDERS: u8 = 6;

/// What the three codes add up to.
const CODE_SUM: u8 = 0 + 1 + 2;

/// Row o: what the order o makes of 0, 1 and 2.
const IMAGE: [[u8; 3]; 6] = [
    [0, 1, 2],
    [0, 2, 1],
    [1, 0, 2],
    [1, 2, 0],
    [2, 0, 1],
    [2, 1, 0],
];

/// Row p, column q: the order p followed by the order q.
const FOLLOW: [[u8; 6]; 6] = [
    [0, 1, 2, 3, 4, 5],
    [1, 0, 3, 2, 5, 4],
    [2, 4, 0, 5, 1, 3],
    [3, 5, 1, 4, 0, 2],
    [4, 2, 5, 0, 3, 1],
    [5, 3, 4, 1, 2, 0],
];

/// The order that takes each order back.
const INVERSE: [u8; 6] = [0, 1, 2, 4, 3, 5];

/// The third of two different codes: 3 less both. 0 where they are equal, or one of them is no code.
pub fn third(x: u8, y: u8) -> u8
    ensures { result ≡ third_of x y }
{
    if CODES <= x {
        return 0;
    }
    if CODES <= y {
        return 0;
    }
    // What both are taken from: 3, or 0 where they are equal, and then 0 of each. (To return 0 there instead is a branch more in each join and turn.)
    let all = if y == x { 0 } else { CODE_SUM };
    all - (x & all) - (y & all)
}

/// What the order o makes of the code x; 0 where there is no such order or code.
// Stays: beside `follow`, two tests and a look-up each; the tables have rows of other lengths, and docs/CONTRACTS.md names both.
#[tactic(auto, using(crate::proofs::Tables::code_after_no_order, crate::proofs::Tables::code_after_no_code), unfolding(crate::specs::Orders::code_after))]
pub fn code_after(o: u8, x: u8) -> u8
    ensures { result ≡ code_after o x }
{
    if ORDERS <= o {
        return 0;
    }
    if CODES <= x {
        return 0;
    }
    let row = o as usize;
    let column = x as usize;
    IMAGE[row][column]
}

/// The order p followed by the order q; 0 where there is no such order.
#[tactic(auto, using(crate::proofs::Tables::follow_no_first, crate::proofs::Tables::follow_no_second), unfolding(crate::specs::Orders::follow))]
pub fn follow(p: u8, q: u8) -> u8
    ensures { result ≡ follow p q }
{
    if ORDERS <= p {
        return 0;
    }
    if ORDERS <= q {
        return 0;
    }
    let row = p as usize;
    let column = q as usize;
    FOLLOW[row][column]
}

/// The order that takes the order o back; 0 where there is no such order.
#[tactic(auto, using(crate::proofs::Tables::inverse_no_order), unfolding(crate::specs::Orders::inverse))]
pub fn inverse(o: u8) -> u8
    ensures { result ≡ inverse o }
{
    if ORDERS <= o {
        return 0;
    }
    let at = o as usize;
    INVERSE[at]
}

/// The order of an L step: its literal's code and 2 exchanged.
#[tactic(auto, unfolding(crate::specs::Orders::letter_order))]
pub fn letter_order(literal: u8) -> u8
    ensures { result ≡ letter_order literal }
{
    if literal == 0 {
        return 5;
    }
    1
}
