//! Cases of the programs, a row each in the file `cases`, with a bar between its parts: `settle`, the line, the list's file and the script's file; or `why`, the
//! line, the label's line and the list's file; or `selector`, the line, the label's line and the folder of the map. Each row is printed, and after it what that
//! program prints for it: nothing, where no program has the name. A row that begins with `#` is a remark.
#![tactic(auto)]

use program::{file, print};
use std::rt::Files;

/// Bytes of the table that are read.
const TABLE_BYTES: usize = 65536;

/// What is printed for the four parts of a row, of which those that are missing have no byte.
fn case<R: Files + Print>(rt: &R, row: &[u8]) {
    let mut parts = row.splitn(4, |byte| *byte == b'|');
    let name = parts.next().unwrap_or(b"");
    let line = parts.next().unwrap_or(b"");
    let second = parts.next().unwrap_or(b"");
    let third = parts.next().unwrap_or(b"");
    match str::from_utf8(name) {
        Ok("settle") => map_files::settle_named(rt, line, second, third),
        Ok("why") => why_files::why_named(rt, line, second, third),
        Ok("selector") => selector_files::selector_named(rt, line, second, third),
        _ => {}
    }
}

/// One row: printed, and run where it is no remark.
fn row<R: Files + Print>(rt: &R, row: &[u8]) {
    print::text(rt, row);
    print::text(rt, b"\n");
    if row.first() != Some(&b'#') {
        case(rt, row);
    }
}

fn main(rt: HostRuntime) {
    let mut table = [0u8; TABLE_BYTES];
    if let Ok(table) = file::load(&rt, b"cases", &mut table) {
        for line in table.split_inclusive(|byte| *byte == b'\n') {
            row(&rt, line.strip_suffix(b"\n").unwrap_or(line));
        }
    }
}
