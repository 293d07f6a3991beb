//! The calls that take memory, which no other program does, and what is beside them: two lines of standard input, as they are read; what is told where there is no memory; a
//! row of a map, answered in place; and the rest of the input as a table, whose rows are answered from their last byte to their first, up to the row `no memory`.
#![tactic(auto)]

use map_rows::Maps;
use program::{line, print};
use rows::reader::RowError;
use rows::table::Answers;
use std::alloc::{AllocError, Global};
use std::io;
use std::io::Write;

/// Bytes of the line, at most.
const LINE_BYTES: usize = 16;

/// The bytes of a row from the last to the first.
fn reversed(alloc: Global, row: &[u8]) -> Result<Vec<u8>, AllocError> {
    let mut bytes = Vec::new(alloc);
    for byte in row.iter().rev() {
        bytes.push(*byte)?;
    }
    Ok(bytes)
}

/// The rows whose answers are their bytes from the last to the first.
struct Backwards;

impl Answers for Backwards {
    fn answer<W: Write>(out: &mut W, alloc: Global, row: &[u8]) -> Result<(), RowError> {
        if row == b"no memory".as_slice() {
            return Err(RowError::from(AllocError));
        }
        let bytes = reversed(alloc, row)?;
        out.write_all(b"= ")?;
        out.write_all(&bytes)?;
        out.write_all(b"\n")?;
        Ok(())
    }
}

/// A row of a map, which is answered in place, answered as one that may take memory.
fn in_place(rt: &(impl Print + AllocGlobal)) {
    let row = b"slot 3 at 0: 1-- -1- 11-: 110 111 -11 0-1: 000 111";
    let mut out = io::writer(rt);
    if <Maps as Answers>::answer(&mut out, rt.alloc(), row).is_err() {
        print::line(rt, "no answer");
    }
}

/// A line of standard input, and how many bytes it has.
fn show_line(rt: &(impl Input + Print + AllocGlobal)) {
    match line::read_line(rt, LINE_BYTES) {
        Ok(line) => {
            print::line(rt, format_args!("{} bytes", line.len()));
            print::text(rt, &line);
            print::text(rt, b"\n");
        }
        Err(error) => print::line(rt, program::told::Told::from(error)),
    }
}

fn main(rt: HostRuntime) {
    for _ in 0..2 {
        show_line(&rt);
    }
    print::line(&rt, program::told::Told::from(AllocError));
    if text_files::told::Told::from(AllocError) == text_files::told::Told::NotPrinted {
        print::line(&rt, "not printed");
    }
    in_place(&rt);
    if rows::table::answer_all::<Backwards, _>(&rt).is_err() {
        print::line(&rt, "no memory for a row");
    }
}
