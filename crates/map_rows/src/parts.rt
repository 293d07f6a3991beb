//! The lists or the scripts of a row, end to end in a lent buffer, with their lengths.
ghost use Rattle.std.specs.Prelude.{suc, ◌≤◌, length};
ghost use Rattle.io.specs.Counts.{IsPrefixLen};
ghost use Rattle.selector.specs.Maps.{most_lists};

use rows::item::Kind;
use rows::reader::Reader;
use selector::MOST_LISTS;

/// Lists or scripts of a row, at most: one more than a map has.
pub(crate) const MOST_PARTS: usize = MOST_LISTS + 1;

/// Lists or scripts end to end, and their lengths in bytes.
#[derive(Clone, Copy)]
pub(crate) struct Parts<'a> {
    pub bytes: &'a [u8],
    pub lengths: &'a [u64],
}

/// How many bytes the parts of a row have together, and how many lengths there are.
#[derive(Clone, Copy, Debug)]
pub(crate) struct Counts {
    pub bytes: usize,
    pub lengths: usize,
}

/// Takes the part that stands here, from a colon on, to a buffer from a byte of it on; answers the byte that it ends at.
fn part_at(reader: &mut Reader<'_>, kind: Kind, out: &mut [u8], from: usize) -> usize
    requires { from ≤ length out.old }
    ensures { (from ≤ result) × (result ≤ length out.new) }
{
    let size = reader.part_into(kind, &mut out[from..]);
    from + size
}

/// Takes all parts that stand here, end to end to the front of a buffer, as far as it has room; and their lengths.
fn parts_of(
    reader: &mut Reader<'_>,
    kind: Kind,
    out: &mut [u8],
    lengths: &mut [u64; MOST_PARTS],
) -> Counts
    ensures bytes { result.bytes ≤ length out.new }
    ensures lengths { result.lengths ≤ suc most_lists }
{
    let mut end = 0;
    let mut count = 0;
    while count < MOST_PARTS {
        let before = reader.place();
        let next = part_at(reader, kind, out, end);
        if reader.place() == before {
            break;
        }
        lengths[count] = (next - end) as u64;
        end = next;
        count += 1;
    }
    Counts {
        bytes: end,
        lengths: count,
    }
}

/// Takes the numbers that stand here with a space between them; answers how many there are.
fn numbers(reader: &mut Reader<'_>, lengths: &mut [u64; MOST_PARTS]) -> usize
    ensures { result ≤ suc most_lists }
{
    let mut found = 0;
    while found < MOST_PARTS {
        let Some(number) = reader.number() else {
            break;
        };
        lengths[found] = number;
        found += 1;
        let _ = reader.skip(b" ");
    }
    found
}

/// Takes the parts that stand here to the front of a buffer, and their lengths, or those that stand after their word.
pub(crate) fn read(
    reader: &mut Reader<'_>,
    kind: Kind,
    out: &mut [u8],
    lengths: &mut [u64; MOST_PARTS],
) -> Counts
    ensures bytes { IsPrefixLen result.bytes out.new }
    ensures lengths { IsPrefixLen result.lengths lengths.new }
    ensures few { result.lengths ≤ suc most_lists }
{
    let mut counts = parts_of(reader, kind, out, lengths);
    let _ = reader.skip(b" ");
    if reader.skip(b"lengths") {
        let _ = reader.skip(b" ");
        counts.lengths = numbers(reader, lengths);
    }
    counts
}
