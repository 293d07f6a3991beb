//! The rows whose calls take shared products, and those that settle a list: the call made, and what it answers and leaves written.
#![tactic(auto)]

mod cubes;
mod products;

use crate::products::Products;
use answers::answer::Answer;
use answers::row;
pub use cubes::settle_cubes;
use rows::call::SharedCall;
use rows::given::Given;
use shared::{list, value};
use shared_run::{run, settle};
use std::io;
use std::io::Write;

fn run<W: Write>(
    out: &mut W,
    n: usize,
    list: &[u8],
    script: &[u8],
    bytes: &mut [u8],
) -> io::Result<()> {
    let result = run::run(n, list, script, bytes);
    let count = result.ok().map(|ran| ran.count);
    write!(out, "{}{}", Answer { result }, Products { n, count, bytes })
}

/// The counts, the work buffer, and the output with its products.
fn settle<W: Write>(
    out: &mut W,
    n: usize,
    given: Given<'_>,
    work: &mut [u8],
    bytes: &mut [u8],
) -> io::Result<()> {
    let list = given.first;
    let result = settle::settle(n, list, given.second, work, bytes);
    let count = result.ok().map(|settled| settled.burned);
    row::with_bytes(out, result, work)?;
    write!(out, "{}", Products { n, count, bytes })
}

/// A call on shared products, in a lent buffer; the output of settling is a second one.
pub fn on_shared<W: Write>(
    out: &mut W,
    call: SharedCall,
    given: Given<'_>,
    lent: &mut [u8],
    second: &mut [u8],
) -> io::Result<()> {
    let n = given.head.n;
    let list = given.first;
    match call {
        SharedCall::Check => row::answer(out, list::check(n, list)),
        // The word of all outputs' values.
        SharedCall::Value => row::answer(out, value::value(n, list, given.head.given as u64)),
        SharedCall::Run => run(out, n, list, given.second, lent),
        SharedCall::Settle => settle(out, n, given, lent, second),
    }
}
