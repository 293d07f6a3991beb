//! Settling a list of cubes: the call made, and what it answers and leaves written.
use answers::left::Bytes;
use answers::row;
use rows::given::Given;
use settling::settle;
use std::io;
use std::io::Write;

/// The counts or the refusal, and both buffers.
pub fn settle_cubes<W: Write>(
    out: &mut W,
    given: Given<'_>,
    work: &mut [u8],
    burned: &mut [u8],
) -> io::Result<()> {
    let n = given.head.n;
    let list = given.first;
    let result = settle::settle(n, list, given.second, work, burned);
    row::with_bytes(out, result, work)?;
    write!(out, "{}", Bytes { bytes: burned })
}
