//! The commands of `druthmoy` on the texts in data/, each a row of standard input: the row is printed, and then all that the command prints, its refusals and counts too.
#![tactic(auto)]

use program::{line, print};
use std::rt::Files;
use text::place::is_blank;

/// Characters of a row, at most.
const ROW_BYTES: usize = 128;

/// Rows, at most.
const MOST_ROWS: usize = 200;

/// The command of a row, with at most three words after its name; a row that begins with `#` has none.
fn with_row<R: Files + Print>(rt: &R, row: &[u8]) {
    print::text(rt, b"> ");
    print::text(rt, row);
    print::text(rt, b"\n");
    if row.first() == Some(&b'#') {
        return;
    }
    let mut words = row
        .split(|byte| is_blank(*byte))
        .filter(|word| !word.is_empty());
    let name = words.next().unwrap_or(b"");
    match (words.next(), words.next(), words.next()) {
        (Some(first), Some(second), Some(third)) => {
            commands::command(rt, rt, name, &[first, second, third]);
        }
        (Some(first), Some(second), None) => commands::command(rt, rt, name, &[first, second]),
        (Some(first), None, _) => commands::command(rt, rt, name, &[first]),
        (None, _, _) => commands::command(rt, rt, name, &[]),
    }
}

/// The rows up to the first that has no character.
fn main(rt: HostRuntime) {
    for _ in 0..MOST_ROWS {
        let mut row = [0u8; ROW_BYTES];
        let size = line::read(&mut row);
        if size == 0 {
            break;
        }
        with_row(&rt, &row[..size]);
    }
}
