//! A map of several slot bits from files: the number of variables and, where there is one, a label from two lines, each bit's list and script from files of the bit. The
//! map is settled and printed bit by bit; or what is printed is the slot of the label, and for each bit the places of the products that are true there.
#![tactic(auto)]

mod buffers;
mod files;
pub mod loaded;
pub mod print;

ghost use Rattle.std.specs.Prelude.{◌≤◌};
ghost use Rattle.cube.specs.Lists.{most_variables};

use loaded::Bits;
use program::told::Told;
use program::{file, label, line, print as printed};
use records::Reason;
use selector::map_reasons::map_reasons;
use selector::settle_map::settle_map;
use selector::{MOST_LISTS, MapRefusal};
use std::rt::Files;

/// What is told of a map that is refused.
fn told_of(why: MapRefusal) -> Told {
    match why.list {
        None => Told::Refused(why.refusal),
        Some(bit) => Told::InBit(why.refusal, bit),
    }
}

/// The slot of a label and the reasons of each bit, and what is printed of them.
fn show(rt: &impl Print, n: usize, lists: Bits<'_>, a: u64) -> Result<(), Told> {
    let mut places = buffers::places();
    let shown = map_reasons(n, lists.bytes, lists.lengths, a, &mut places);
    let slot = shown.answer.map_err(told_of)?;
    print::shown(rt, slot, &shown.each[..lists.lengths.len()], &places);
    Ok(())
}

/// The map settled, and what is printed of it.
fn burn(rt: &impl Print, n: usize, lists: Bits<'_>, scripts: Bits<'_>) -> Result<(), Told>
    requires { n ≤ most_variables }
{
    let mut work = buffers::work();
    let mut out = buffers::lists();
    let settled = settle_map(
        n,
        lists.bytes,
        lists.lengths,
        scripts.bytes,
        scripts.lengths,
        &mut work,
        &mut out,
    );
    let cost = settled.answer.map_err(told_of)?;
    print::burned(rt, n, lists.lengths, &settled.each, &out);
    printed::line(rt, format_args!("cost {cost}"));
    Ok(())
}

/// The map settled, with one script for each list.
fn settle<R: Files + Print>(rt: &R, n: usize, lists: Bits<'_>, folder: &[u8]) -> Result<(), Told>
    requires { n ≤ most_variables }
{
    let most = lists.lengths.len();
    let mut bytes = buffers::scripts();
    let mut lengths = [0u64; MOST_LISTS];
    let scripts = files::load_bits(
        rt,
        folder,
        b".scr",
        file::SCRIPT_BYTES,
        most,
        &mut bytes,
        &mut lengths,
    )?;
    if scripts.lengths.len() < most {
        return Err(Told::NoFile);
    }
    burn(rt, n, lists, scripts)
}

/// The map of a line, of a label's line and of the files of a folder: with an empty line for the label it is settled, or else the slot of the label is shown.
fn selector_by<R: Files + Print>(
    rt: &R,
    line: &[u8],
    label: &[u8],
    folder: &[u8],
) -> Result<(), Told> {
    let Some(n) = line::variables_in(line) else {
        return Err(Told::Refused(Reason::TooManyVariables.at(0)));
    };
    let mut bytes = buffers::lists();
    let mut lengths = [0u64; MOST_LISTS];
    let lists = files::load_bits(
        rt,
        folder,
        b".cub",
        file::LIST_BYTES,
        MOST_LISTS,
        &mut bytes,
        &mut lengths,
    )?;
    if label.is_empty() {
        settle(rt, n, lists, folder)
    } else {
        show(rt, n, lists, label::label_in(label))
    }
}

/// The same, and what is told where it gives up. The folder's name comes with its slash: the line, then the files, then the map.
pub fn selector_named<R: Files + Print>(rt: &R, line: &[u8], label: &[u8], folder: &[u8]) {
    if let Err(told) = selector_by(rt, line, label, folder) {
        printed::line(rt, told);
    }
}

/// The program: two lines of standard input, of which the second may be empty or missing, and the files of the folder that it is run in. A first line that is longer
/// than what is read of it is refused, whatever is read as the second.
pub fn run<R: Files + Print>(rt: &R) {
    let mut first = [0; line::VARIABLE_BYTES];
    let count = line::read(&mut first);
    let mut second = [0; label::LABEL_BYTES];
    let digits = line::read(&mut second);
    selector_named(rt, &first[..count], &second[..digits], b"");
}
