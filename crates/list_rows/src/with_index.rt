//! The rows whose calls make or take an index: the call made, and what it answers and leaves written.
use crate::starts::{Starts, starts_of};
use answers::left::{Bytes, Left};
use answers::row;
use index::{build, group};
use rows::call::IndexCall;
use rows::given::Given;
use std::io;
use std::io::Write;

fn index<W: Write>(out: &mut W, n: usize, list: &[u8], index: &mut [u8]) -> io::Result<()> {
    let made = build::build(n, list, index);
    row::with_bytes(out, made.answer, index)?;
    let starts = made.starts;
    write!(out, "{}", Starts { starts })
}

/// What the sibling answers, and the part that is handed back.
fn group<W: Write>(out: &mut W, given: Given<'_>) -> io::Result<()> {
    let n = given.head.n;
    let list = given.first;
    let index = given.second;
    let starts = starts_of(given.third);
    let number = given.head.given;
    let result = group::group_count(n, list, index, starts, number);
    row::with_bytes(out, result, group::group(n, list, index, starts, number))
}

fn indexed<W: Write>(
    out: &mut W,
    given: Given<'_>,
    work: &mut [u8],
    index: &mut [u8],
) -> io::Result<()> {
    let n = given.head.n;
    let list = given.first;
    let ran = indexed::run_indexed(n, list, given.second, work, index);
    let result = ran.answer;
    let count = result.ok().map(|done| done.count);
    let bytes = work;
    row::with_cubes(out, result, Left { n, count, bytes })?;
    let starts = ran.starts;
    write!(out, "{}{}", Bytes { bytes: index }, Starts { starts })?;
    write!(out, " begun {}", u8::from(ran.begun))
}

/// A call that makes or takes an index, in a lent buffer; the index of a run goes into a second one.
pub fn on_index<W: Write>(
    out: &mut W,
    call: IndexCall,
    given: Given<'_>,
    lent: &mut [u8],
    second: &mut [u8],
) -> io::Result<()> {
    match call {
        IndexCall::Index => index(out, given.head.n, given.first, lent),
        IndexCall::Group => group(out, given),
        IndexCall::Indexed => indexed(out, given, lent, second),
    }
}
