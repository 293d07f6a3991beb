//! A part of a row from a place of it on, as bytes of a buffer.
ghost use Rattle.io.specs.Counts.{IsPrefixLen};

use crate::item::Kind;
use crate::reader::Reader;

/// How many bytes a part has, and the place after it.
#[derive(Clone, Copy, Debug, PartialEq, Eq)]
pub struct Part {
    pub end: usize,
    pub p: usize,
}

/// A number of a buffer's bytes: 0 in place of one that is too large.
pub fn within(end: usize, b: &[u8]) -> usize
    ensures { IsPrefixLen result b.now }
{
    if b.len() < end {
        return 0;
    }
    end
}

/// The part that begins with a colon at a place of the row, to the front of a buffer. It ends where something else stands, and where it begins if the buffer is short.
pub fn read(row: &[u8], at: usize, kind: Kind, out: &mut [u8]) -> Part
    ensures { IsPrefixLen result.end out.new }
{
    let mut reader = Reader::new(row);
    reader.advance(at);
    let end = reader.part_into(kind, out);
    Part {
        end,
        p: at.max(reader.place()),
    }
}
