//! The codes at one variable moved by an order, in every record of the work buffer: one pass with masks, and no branch a record.
ghost use Rattle.std.specs.Prelude.{◌≡◌, map, ◌/◌, ◌<◌, length, get_or};
ghost use Rattle.bits.specs.Sums.{All};
ghost use Rattle.records.specs.Records.{Held, records, stored, image};
ghost use Rattle.cube.specs.Cubes.{one, Good, mask_bits};
ghost use Rattle.cube.specs.Lists.{record_width, cubes, cubes_of, most_variables};
ghost use Rattle.orders.specs.Orders.{order_count};
ghost use Rattle.steps.specs.Steps.{reordered};
ghost use Rattle.steps.specs.Changes.{word_of, halves, masks_at, by_masks};

use crate::{Decides, OnCubes};
use cube::{Cube, list};

/// How many numbers a mask holds.
const HALF: u64 = 4294967296;

/// The two masks of a cube as one number, with seen in its low half and value in its high half: what is done to each of them is done at once.
fn word(c: Cube) -> u64
    ensures { result ≡ word_of c }
{
    c.seen as u64 + HALF * (c.value as u64)
}

/// The cube of such a number.
fn of_word(x: u64) -> Cube
    ensures { result ≡ halves x }
{
    Cube {
        seen: (x % HALF) as u32,
        value: (x / HALF) as u32,
    }
}

/// The number of the cube at a place that the list has. Its masks meet in the result of a function of its own, because only then does the compiler
/// read them by one load, and only where a record is one load and one store does it change two at once.
fn word_at(list: &[u8], i: usize) -> u64
    requires { i < length list.now / record_width }
    ensures { result ≡ word_of (get_or (cubes_of list.now) i one) }
{
    word(list::record_at(list, i))
}

/// An order of the codes at one variable, as masks of such numbers. A bit of the variable is changed by the sum, modulo 2, of: itself where
/// `own` is set, the variable's other bit where `other` is, and 1 where `always` is.
#[derive(Clone, Copy, Debug, PartialEq, Eq)]
pub struct Masks {
    own: u64,
    other: u64,
    always: u64,
}

/// The order o at the variable v, as masks: three codes, so that each new bit is such a sum.
pub fn masks_at(v: u32, o: u8) -> Masks
    requires { v < mask_bits }
    ensures { result ≡ masks_at v o }
{
    let at: u32 = 1 << v;
    let x = Cube::literal(v, orders::code_after(o, 0));
    let y = Cube::literal(v, orders::code_after(o, 1));
    let z = Cube::literal(v, orders::code_after(o, 2));
    let own = Cube {
        seen: at ^ x.seen ^ z.seen,
        value: at ^ x.value ^ y.value,
    };
    let other = Cube {
        seen: x.seen ^ y.seen,
        value: x.value ^ z.value,
    };
    Masks {
        own: word(own),
        other: word(other),
        always: word(z),
    }
}

/// A cube with each bit of its masks changed so: with the masks of an order, its code moved.
pub fn recoded(k: Masks, c: Cube) -> Cube
    ensures { result ≡ by_masks k c }
{
    let crossed = Cube {
        seen: c.value,
        value: c.seen,
    };
    let x = word(c);
    let y = word(crossed);
    of_word(x ^ (x & k.own) ^ (y & k.other) ^ k.always)
}

/// Every record's code at v moved by the order o. The pass ends by the length of the buffer too, which shows the compiler that each place lies in it.
#[inline(always)]
pub fn reorder_on<K: Decides>(work: &mut [u8], count: usize, v: u8, o: u8)
    requires held { Held K.codec count work.old }
    requires all { All (K.Fine most_variables) (records K.codec count work.old) }
    requires v_lt_most_variables { v < most_variables }
    ensures { work.new ≡ image K.codec (length work.old) (map (K.moved v o) (records K.codec count work.old)) }
{
    let masks = masks_at(v as u32, o);
    let end = count.min(work.len() / K::WIDTH);
    for i in 0..end {
        K::recode(masks, work, i);
    }
}

/// Every cube's code at v moved by the order o.
pub fn reorder(work: &mut [u8], count: usize, v: u8, o: u8)
    requires held { Held cubes count work.old }
    requires all { All (Good most_variables) (records cubes count work.old) }
    requires v_lt_most_variables { (v < most_variables) × (o < order_count) }
    ensures { work.new ≡ image cubes (length work.old) (map (reordered v o) (records cubes count work.old)) }
{
    reorder_on::<OnCubes>(work, count, v, o)
}

/// The cube at a place that the list has, with its code moved by these masks.
#[inline(always)]
pub(crate) fn recode(masks: Masks, list: &mut [u8], i: usize)
    requires { i < length list.old / record_width }
    ensures { list.new ≡ stored cubes list.old i (by_masks masks (halves (word_of (get_or (cubes_of list.old) i one)))) }
{
    let c = of_word(word_at(list, i));
    list::put_cube(list, i, recoded(masks, c));
}
