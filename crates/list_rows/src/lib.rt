//! The rows whose calls take a list or a script: the call made, and what it answers and leaves written.
#![tactic(auto)]

mod starts;
pub mod with_index;

use answers::left::{Bytes, Left};
use answers::row;
use compactor::compact;
use converters::{narrow_from_wide, wide_from_narrow};
use cube::{list, value};
use rows::call::ListCall;
use rows::given::Given;
use script::run;
use std::io;
use std::io::Write;
use writer::write;

fn run<W: Write>(
    out: &mut W,
    n: usize,
    list: &[u8],
    script: &[u8],
    bytes: &mut [u8],
) -> io::Result<()> {
    let result = run::run(n, list, script, bytes);
    let count = result.ok().map(|ran| ran.count);
    row::with_cubes(out, result, Left { n, count, bytes })
}

fn write<W: Write>(
    out: &mut W,
    n: usize,
    list: &[u8],
    work: &mut [u8],
    script: &mut [u8],
) -> io::Result<()> {
    let result = write::write_script(n, list, work, script);
    row::with_bytes(out, result, work)?;
    write!(out, "{}", Bytes { bytes: script })
}

fn wide<W: Write>(out: &mut W, n: usize, list: &[u8], bytes: &mut [u8]) -> io::Result<()> {
    let result = wide_from_narrow::wide_from_narrow(n, list, bytes);
    let count = result.ok();
    row::with_cubes(out, result, Left { n, count, bytes })
}

/// A call on a list or a script, in a lent buffer; the script of a write goes into a second one.
pub fn on_list<W: Write>(
    out: &mut W,
    call: ListCall,
    given: Given<'_>,
    lent: &mut [u8],
    second: &mut [u8],
) -> io::Result<()> {
    let n = given.head.n;
    let number = given.head.given;
    let list = given.first;
    match call {
        ListCall::Check => row::answer(out, list::check(n, list)),
        ListCall::Value => row::answer(out, value::value(n, list, number as u64)),
        ListCall::Reasons => {
            let result = reasons::reasons(n, list, number as u64, lent);
            row::with_bytes(out, result, lent)
        }
        ListCall::Vector => {
            let result = value::truth_vector(n, list, lent);
            row::with_bytes(out, result, lent)
        }
        ListCall::Run => run(out, n, list, given.second, lent),
        ListCall::Write => write(out, n, list, lent, second),
        ListCall::Compact => {
            let result = compact::compact(n, number, list, lent);
            row::with_bytes(out, result, lent)
        }
        ListCall::Wide => wide(out, n, list, lent),
        ListCall::Narrow => {
            let result = narrow_from_wide::narrow_from_wide(n, list, lent);
            row::with_bytes(out, result, lent)
        }
    }
}
