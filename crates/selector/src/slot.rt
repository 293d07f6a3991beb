//! The slot of a label.
ghost use Rattle.std.specs.Prelude.{◌≡◌, ◌+◌, ◌*◌, ◌^◌, ◌<◌};
ghost use Rattle.selector.specs.Answers.{map_told};
ghost use Rattle.selector.specs.Calls.{slot_turns, slot_outcome};
ghost use Rattle.selector.specs.Maps.{most_lists};
ghost use Rattle.selector.specs.Turns.{Mapped};

use crate::MapRefusal;
use crate::lengths::check_map;
use crate::lists::Lists;

/// A number of k bits with bit k above them.
pub(crate) fn with_bit(slot: usize, k: usize, bit: u8) -> usize
    requires { (slot < 2 ^ k) × ((k < most_lists) × (bit < 2)) }
    ensures { result ≡ slot + bit * 2 ^ k }
{
    slot + ((bit as usize) << k)
}

/// The lists in turn: bit k of the slot from list k.
fn slot_bits(n: usize, lists: Lists<'_>, a: u64) -> Result<usize, MapRefusal>
    requires { Mapped lists.bytes.now lists.lengths.now }
    ensures { map_told result ≡ slot_turns n lists.entry.bytes.now lists.entry.lengths.now a }
{
    let mut slot: usize = 0;
    for (k, list) in lists.enumerate() {
        let found = cube::value::value(n, list, a).map_err(|why| MapRefusal::of_list(why, k))?;
        slot = with_bit(slot, k, found.bit);
    }
    Ok(slot)
}

/// A label's slot number: refusals 24 and 26, then those of value on the lists in turn; or the slot.
// Stays: lists and lengths are two buffers in the C interface, and `slot_outcome` and its theorems are over both.
pub fn slot(n: usize, lists: &[u8], lengths: &[u64], a: u64) -> Result<usize, MapRefusal>
    ensures { map_told result ≡ slot_outcome n lists.now lengths.now a }
{
    check_map(lists.len(), lengths)?;
    let lists = Lists {
        bytes: lists,
        lengths,
    };
    slot_bits(n, lists, a)
}
