//! Settling a map from its files: the number of variables from a line, the list and the script from files; the counts and the burned list are printed.
#![tactic(auto)]

pub mod counts;

ghost use Rattle.std.specs.Prelude.{◌≤◌};
ghost use Rattle.cube.specs.Lists.{most_variables};

use counts::Counts;
use program::told::Told;
use program::{file, line, print};
use records::Reason;
use std::rt::Files;

/// Bytes of the work buffer, and of the output.
const BUFFER_BYTES: usize = cube::list::RECORD_WIDTH * cube::list::MOST_RECORDS;

/// The list and the script settled, and what is printed of it.
fn burn(rt: &impl Print, n: usize, list: &[u8], script: &[u8]) -> Result<(), Told>
    requires { n ≤ most_variables }
{
    let mut work = [0u8; BUFFER_BYTES];
    let mut out = [0u8; BUFFER_BYTES];
    let settled = settling::settle::settle(n, list, script, &mut work, &mut out)?;
    print::line(rt, Counts(settled));
    print::list(rt, n, &out, settled.burned);
    Ok(())
}

/// The map of n variables from its files: the list is read and tested before the script is looked for.
fn settle_files<R: Files + Print>(
    rt: &R,
    n: usize,
    list_path: &[u8],
    script_path: &[u8],
) -> Result<(), Told>
    requires { n ≤ most_variables }
{
    let mut list = [0u8; file::LIST_BYTES];
    let list = file::load(rt, list_path, &mut list)?;
    cube::list::check(n, list)?;
    let mut script = [0u8; file::SCRIPT_BYTES];
    let script = file::load(rt, script_path, &mut script)?;
    burn(rt, n, list, script)
}

/// The map of a line and of two files that are named: the line, then the list, then the script.
fn settle_by<R: Files + Print>(
    rt: &R,
    line: &[u8],
    list_path: &[u8],
    script_path: &[u8],
) -> Result<(), Told> {
    match line::variables_in(line) {
        None => Err(Told::Refused(Reason::TooManyVariables.at(0))),
        Some(n) => settle_files(rt, n, list_path, script_path),
    }
}

/// The same, and what is told where it gives up.
pub fn settle_named<R: Files + Print>(rt: &R, line: &[u8], list_path: &[u8], script_path: &[u8]) {
    if let Err(told) = settle_by(rt, line, list_path, script_path) {
        print::line(rt, told);
    }
}

/// The program: the line of standard input, `map.cub` and `map.scr`.
pub fn run<R: Files + Print>(rt: &R) {
    let mut first = [0; line::VARIABLE_BYTES];
    let count = line::read(&mut first);
    settle_named(rt, &first[..count], b"map.cub", b"map.scr");
}
