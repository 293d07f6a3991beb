//! A row: its parts read, its buffers lent, and its call made.
use crate::parts::{MOST_PARTS, Parts};
use crate::{calls, parts};
use cube::list;
use rows::data;
use rows::head::Head;
use rows::item::Kind;
use rows::reader::{Reader, RowError};
use rows::table::AnswersInPlace;
use script::check;
use std::io;
use std::io::Write;

/// The calls on a map.
#[derive(Clone, Copy, Debug, PartialEq, Eq)]
enum MapCall {
    Slot,
    Reasons,
    Settle,
}

/// Bytes of all lists or of a lent buffer, at most: two lists of a record more than the most, and 2 bytes.
const MOST_ROOM: usize = 2 * list::RECORD_WIDTH * (list::MOST_RECORDS + 1) + 2;

/// Bytes of all scripts, at most: two scripts of a step more than the most, and a byte.
const SCRIPT_BYTES: usize = 2 * check::STEP_WIDTH * (check::MOST_STEPS + 1) + 1;

/// Characters of a cube, at most: one more than the variables of a list.
const MOST_CODES: usize = list::MOST_VARIABLES + 1;

/// What every byte of a lent buffer is before the call.
const UNTOUCHED: u8 = 7;

/// What a list over n variables is made of.
fn list_kind(n: usize) -> Kind {
    if MOST_CODES < n {
        return Kind::Nothing;
    }
    Kind::Cubes { n: n as u32 }
}

/// Takes the name that a row begins with.
fn call_of(reader: &mut Reader<'_>) -> Result<MapCall, RowError> {
    if reader.skip(b"slot ") {
        return Ok(MapCall::Slot);
    }
    if reader.skip(b"reasons ") {
        return Ok(MapCall::Reasons);
    }
    reader.expect(b"settle ")?;
    Ok(MapCall::Settle)
}

/// Whether the row is read to its end, and asks for no more room than there is.
fn all_read(reader: &Reader<'_>, head: Head) -> Result<(), RowError> {
    reader.end()?;
    head.within(MOST_ROOM)
}

/// Reasons, with its one buffer lent.
fn reasons<W: Write>(out: &mut W, head: Head, map: Parts<'_>) -> io::Result<()> {
    let mut lent = [UNTOUCHED; MOST_ROOM];
    let size = data::within(head.room, &lent);
    calls::reasons(out, head, map, &mut lent[..size])
}

/// Settling, with both buffers lent.
fn settle<W: Write>(out: &mut W, head: Head, map: Parts<'_>, scripts: Parts<'_>) -> io::Result<()> {
    let mut work = [UNTOUCHED; MOST_ROOM];
    let size = data::within(head.room, &work);
    let mut burned = [UNTOUCHED; MOST_ROOM];
    let second = data::within(head.second, &burned);
    calls::settle(
        out,
        head.n,
        map,
        scripts,
        &mut work[..size],
        &mut burned[..second],
    )
}

/// Settling, whose scripts stand after their word.
fn scripts_and_settle<W: Write>(
    out: &mut W,
    reader: &mut Reader<'_>,
    head: Head,
    map: Parts<'_>,
) -> Result<(), RowError> {
    let mut bytes = [0u8; SCRIPT_BYTES];
    let mut lengths = [0u64; MOST_PARTS];
    let _ = reader.skip(b"scripts");
    let counts = parts::read(reader, Kind::Steps, &mut bytes, &mut lengths);
    all_read(reader, head)?;
    let scripts = Parts {
        bytes: &bytes[..counts.bytes],
        lengths: &lengths[..counts.lengths],
    };
    settle(out, head, map, scripts)?;
    Ok(())
}

/// The rows whose calls are those of `selector`.
#[derive(Clone, Copy, Debug)]
pub struct Maps;

impl AnswersInPlace for Maps {
    fn answer<W: Write>(out: &mut W, row: &[u8]) -> Result<(), RowError> {
        let mut reader = Reader::new(row);
        let call = call_of(&mut reader)?;
        let head = reader.head();
        let mut bytes = [0u8; MOST_ROOM];
        let mut lengths = [0u64; MOST_PARTS];
        let counts = parts::read(&mut reader, list_kind(head.n), &mut bytes, &mut lengths);
        let map = Parts {
            bytes: &bytes[..counts.bytes],
            lengths: &lengths[..counts.lengths],
        };
        match call {
            MapCall::Slot => {
                all_read(&reader, head)?;
                calls::slot(out, head, map)?;
            }
            MapCall::Reasons => {
                all_read(&reader, head)?;
                reasons(out, head, map)?;
            }
            MapCall::Settle => scripts_and_settle(out, &mut reader, head, map)?,
        }
        Ok(())
    }
}
