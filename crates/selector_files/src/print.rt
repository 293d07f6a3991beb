//! What `selector` prints: each bit with its burned list; a slot, and each bit with its reasons.
ghost use Rattle.std.specs.Prelude.{◌≤◌, ◌<◌, length};
ghost use Rattle.cube.specs.Lists.{most_variables};
ghost use Rattle.selector.specs.Maps.{most_lists};

use program::{part, print};
use records::place;

/// A bit: how many products its list was given with and has now, and the list.
fn bit_list(rt: &impl Print, n: usize, k: usize, given: u64, list: &[u8])
    requires { n ≤ most_variables }
{
    let before = given as usize / cube::list::RECORD_WIDTH;
    let count = list.len() / cube::list::RECORD_WIDTH;
    print::line(rt, format_args!("bit {k} in {before} out {count}"));
    print::list(rt, n, list, count);
}

/// The burned lists of so many bytes, which stand end to end, each with its bit and with how many products it was given.
pub(crate) fn burned(rt: &impl Print, n: usize, lengths: &[u64], sizes: &[u64], lists: &[u8])
    requires { n ≤ most_variables }
{
    let mut rest = lists;
    for (k, (given, size)) in lengths.iter().zip(sizes).enumerate() {
        let (list, after) = part::split(*size as usize, rest);
        bit_list(rt, n, k, *given, list);
        rest = after;
    }
}

/// Bit k of a slot, and the places of its products that are true.
fn bit_reasons(rt: &impl Print, slot: usize, k: usize, places: &[u8])
    requires { k < most_lists }
{
    let bit = (slot >> k) % 2;
    let _ = print!(rt; "bit {k} is {bit}:");
    for p in 0..places.len() / place::PLACE_WIDTH {
        let place = place::place_at(places, p);
        let _ = print!(rt; " {place}");
    }
    print::text(rt, b"\n");
}

/// A slot, and each bit of it with so many reasons, which stand end to end in a buffer.
pub fn shown(rt: &impl Print, slot: usize, numbers: &[u64], bytes: &[u8])
    requires { length numbers.now ≤ most_lists }
{
    print::line(rt, format_args!("slot {slot}"));
    let mut rest = bytes;
    for (k, number) in numbers.iter().enumerate() {
        let size = (*number as usize).saturating_mul(place::PLACE_WIDTH);
        let (places, after) = part::split(size, rest);
        bit_reasons(rt, slot, k, places);
        rest = after;
    }
}
