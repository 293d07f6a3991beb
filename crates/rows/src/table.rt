//! A table from standard input, answered row by row.
ghost use Rattle.std.specs.Prelude.{◌≡◌, length};
ghost use Rattle.io.specs.Counts.{IsPrefixLen};

use crate::gathered::Gathered;
use crate::reader::RowError;
use std::alloc::Global;
use std::io;
use std::io::{ErrorKind, Read, Write};

/// Bytes of a table, at most one fewer than these.
const TABLE_BYTES: usize = 65536;

/// How many bytes of the answers are written together.
const ANSWER_BYTES: usize = 8192;

/// What a table's rows are calls of, where each lends itself what it needs.
pub trait AnswersInPlace {
    /// Writes what the call of a row answers and leaves.
    fn answer<W: Write>(out: &mut W, row: &[u8]) -> Result<(), RowError>;
}

/// What a table's rows are calls of, where a call may take memory.
pub trait Answers {
    /// Writes what the call of a row answers and leaves. The memory that it takes meanwhile is from `alloc`.
    fn answer<W: Write>(out: &mut W, alloc: Global, row: &[u8]) -> Result<(), RowError>;
}

/// What answers in place takes no memory.
impl<C: AnswersInPlace> Answers for C {
    fn answer<W: Write>(out: &mut W, _alloc: Global, row: &[u8]) -> Result<(), RowError> {
        <C as AnswersInPlace>::answer(out, row)
    }
}

/// A row as it stands, and after it its answer, or the place from which on it can't be read. A row that begins with `#` is a remark.
fn answer_row<C: AnswersInPlace, W: Write>(out: &mut W, row: &[u8]) -> io::Result<()> {
    out.write_all(row)?;
    out.write_all(b"\n")?;
    if row.is_empty() || row[0] == b'#' {
        return Ok(());
    }
    match C::answer(out, row) {
        Ok(()) => Ok(()),
        Err(RowError::Unread { place }) => writeln!(out, "= can't be read at {place}"),
        Err(RowError::Failed(error)) => Err(error),
    }
}

/// All rows of a table. The last may lack its newline.
fn answer_rows<C: AnswersInPlace, W: Write>(out: &mut W, table: &[u8]) {
    for row in table.split_inclusive(|b| *b == b'\n') {
        let row = row.strip_suffix(b"\n").unwrap_or(row);
        // A row that can't be written is passed over: whoever reads the table compares it.
        let _ = answer_row::<C, _>(out, row);
    }
}

/// The bytes of standard input to the front of a buffer, as far as it has room; answers how many they are. They end too where it can't be read.
fn read_table<R: Input>(rt: &R, table: &mut [u8]) -> usize
    ensures { IsPrefixLen result table.new }
{
    let mut reader = rt.reader();
    let mut size = 0;
    for _ in 0..u64::MAX {
        if size == table.len() {
            break;
        }
        match reader.read(&mut table[size..]) {
            Ok(0) => break,
            Ok(count) => size += count,
            Err(error) if error.kind() == ErrorKind::Interrupted => {}
            Err(_) => break,
        }
    }
    size
}

/// Room for a table. Its contract tells the length alone.
fn table_room() -> [u8; TABLE_BYTES]
    ensures { 65536 ≡ length result }
{
    [0; TABLE_BYTES]
}

/// Room for answers.
fn answer_room() -> [u8; ANSWER_BYTES]
    ensures { 8192 ≡ length result }
{
    [0; ANSWER_BYTES]
}

/// All rows of standard input. What can't be written is passed over.
pub fn answer_all_in_place<C: AnswersInPlace, R: Input + Print>(rt: &R) {
    let mut table = table_room();
    let size = read_table(rt, &mut table);
    let mut room = answer_room();
    let mut out = Gathered::new(rt, &mut room);
    if size == TABLE_BYTES {
        let _ = writeln!(out, "the table is too long");
    } else {
        answer_rows::<C, _>(&mut out, &table[..size]);
    }
    let _ = out.flush();
}

/// A row as it stands, and after it its answer, which may take memory.
fn answer_row_with<C: Answers, W: Write>(out: &mut W, alloc: Global, row: &[u8]) -> io::Result<()> {
    out.write_all(row)?;
    out.write_all(b"\n")?;
    if row.is_empty() || row[0] == b'#' {
        return Ok(());
    }
    match C::answer(out, alloc, row) {
        Ok(()) => Ok(()),
        Err(RowError::Unread { place }) => writeln!(out, "= can't be read at {place}"),
        Err(RowError::Failed(error)) => Err(error),
    }
}

/// What of a row's answer ends a table: that there is no memory.
fn going_on(answered: io::Result<()>) -> io::Result<()> {
    match answered {
        Err(error) if error.kind() == ErrorKind::OutOfMemory => Err(error),
        // A row that can't be written is passed over here too.
        _ => Ok(()),
    }
}

/// All rows of a table, up to one that there is no memory for.
fn answer_rows_with<C: Answers, W: Write>(
    out: &mut W,
    alloc: Global,
    table: &[u8],
) -> io::Result<()> {
    for row in table.split_inclusive(|b| *b == b'\n') {
        let row = row.strip_suffix(b"\n").unwrap_or(row);
        going_on(answer_row_with::<C, _>(out, alloc, row))?;
    }
    Ok(())
}

/// All rows of standard input, whose calls may take memory: it fails where there is none for one of them, and what was answered before is written. What can't be written is
/// passed over.
pub fn answer_all<C: Answers, R: Input + Print + AllocGlobal>(rt: &R) -> io::Result<()> {
    let mut table = table_room();
    let size = read_table(rt, &mut table);
    let mut room = answer_room();
    let mut out = Gathered::new(rt, &mut room);
    let answered = if size == TABLE_BYTES {
        going_on(writeln!(out, "the table is too long"))
    } else {
        answer_rows_with::<C, _>(&mut out, rt.alloc(), &table[..size])
    };
    let _ = out.flush();
    answered
}
