//! A part of a row, from its colon on, as bytes.
ghost use Rattle.std.specs.Prelude.{◌≡◌, ◌+◌, ◌≤◌, IfSome, length};
ghost use Rattle.io.specs.Counts.{IsPrefixLen};

use crate::item::{Item, Kind};
use crate::reader::Reader;

/// How many bytes a part of `size` has with so many more, where a buffer has room for them.
fn longer_by(out: &[u8], size: usize, more: usize) -> Option<usize>
    ensures { IfSome result (λ longer. (longer ≡ size + more) × (longer ≤ length out.now)) }
{
    let longer = size.checked_add(more)?;
    if out.len() < longer {
        return None;
    }
    Some(longer)
}

/// Bytes, at the end of a part; how many it has then, where there is room.
pub(crate) fn put_bytes(out: &mut [u8], size: usize, bytes: &[u8]) -> Option<usize>
    ensures { IfSome result (λ longer. (size ≤ longer) × (longer ≤ length out.new)) }
{
    let longer = longer_by(out, size, bytes.len())?;
    out[size..longer].copy_from_slice(bytes);
    Some(longer)
}

/// What a part of `to` bytes has from a place on, until it is there so many times; how many bytes it has then, where there is room.
fn repeat(out: &mut [u8], from: usize, to: usize, times: u16) -> Option<usize>
    requires ordered { from ≤ to }
    requires in_bounds { to ≤ length out.old }
    ensures { IfSome result (λ longer. (to ≤ longer) × (longer ≤ length out.new)) }
{
    let mut size = to;
    for _ in 1..times {
        let longer = longer_by(out, size, to - from)?;
        out.copy_within(from..to, size);
        size = longer;
    }
    Some(size)
}

/// The bytes of an item, at the end of a part; what was in brackets since `group`, so many times. Answers how many bytes it has then, where there is room.
fn put(out: &mut [u8], size: usize, item: Item, group: usize) -> Option<usize>
    requires ordered { group ≤ size }
    requires in_bounds { size ≤ length out.old }
    ensures { IfSome result (λ longer. (size ≤ longer) × (longer ≤ length out.new)) }
{
    match item {
        Item::Separator | Item::Hexadecimal | Item::Bracket => Some(size),
        Item::Times(times) => repeat(out, group, size, times),
        Item::Byte(b) => put_bytes(out, size, &[b]),
        Item::Place(place) => put_bytes(out, size, &place.to_le_bytes()),
        Item::Outputs(outputs) => put_bytes(out, size, &outputs.to_le_bytes()),
        Item::Record(number) => put_bytes(out, size, &number.to_le_bytes()),
    }
}

impl Reader<'_> {
    /// Takes all items that stand here; answers how many bytes they have, where there is room.
    fn items(&mut self, kind: Kind, out: &mut [u8]) -> Option<usize>
        ensures { IfSome result (λ size. size ≤ length out.new) }
    {
        let mut size = 0;
        let mut group = 0;
        let mut raw = false;
        for _ in 0..self.rest.len() {
            let Some(item) = self.item(kind, raw) else {
                return Some(size);
            };
            size = put(out, size, item, group)?;
            raw = match item {
                Item::Hexadecimal => true,
                Item::Byte(_) => raw,
                _ => false,
            };
            if item == Item::Bracket {
                group = size;
            }
        }
        Some(size)
    }

    /// Takes the part that begins with a colon here, up to where something else stands, to the front of a buffer; answers how many bytes it has. Nothing is taken where no
    /// colon stands, or where the buffer has no room for the part.
    pub fn part_into(&mut self, kind: Kind, out: &mut [u8]) -> usize
        ensures { IsPrefixLen result out.new }
    {
        let before = *self;
        if self.skip(b":") {
            if let Some(size) = self.items(kind, out) {
                return size;
            }
        }
        *self = before;
        0
    }
}
