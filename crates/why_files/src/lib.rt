//! Why a label goes to its slot, from files: the number of variables and the label from two lines, the list from a file; the places of the products that are true
//! there are printed.
#![tactic(auto)]

ghost use Rattle.std.specs.Prelude.{◌≡◌, [], ◌∷◌, ◌++◌, ◌*◌, ◌<◌, length, take};
ghost use Rattle.io.specs.Counts.{IsPrefixLen};
ghost use Rattle.records.specs.Places.{place_width};
ghost use Rattle.text.specs.Numbers.{decimal};

use program::told::Told;
use program::{file, label, line, part, print};
use records::{Reason, place};
use std::rt::Files;

/// Bytes of the places of the longest list.
const PLACES_BYTES: usize = place::PLACE_WIDTH * cube::list::MOST_RECORDS;

/// A place's digits, at most five of a number of two bytes, and its newline.
const LINE_BYTES: usize = 6;

// Stays: a lent buffer and where its text ends; docs/CONTRACTS.md names `spell`.
/// A place in decimal and its newline at the front of a line, which has room for them, and how long they are.
fn spell(place: u16, line: &mut [u8]) -> usize
    requires { length (decimal place) < length line.old }
    ensures prefix_len { IsPrefixLen result line.new }
    ensures line_after { take result line.new ≡ decimal place ++ (10 ∷ []) }
{
    let end = text::number::put_number(line, 0, place as usize);
    text::place::put_byte(line, end, b'\n')
}

fn place_line(rt: &impl Print, place: u16) {
    let mut line = [0u8; LINE_BYTES];
    let end = spell(place, &mut line);
    print::text(rt, &line[..end]);
}

/// Every place of a buffer, one a line.
fn places(rt: &impl Print, bytes: &[u8]) {
    for k in 0..bytes.len() / place::PLACE_WIDTH {
        place_line(rt, place::place_at(bytes, k));
    }
}

/// The bytes of the first so many places of a buffer; all of them where it has fewer.
fn first_places(count: usize, bytes: &[u8]) -> &[u8]
    ensures { result.now ≡ take (count * place_width) bytes.now }
{
    part::first_records(place::PLACE_WIDTH, count, bytes)
}

/// The reasons of a list at a label, and what is printed of them.
fn show(rt: &impl Print, n: usize, list: &[u8], a: u64) -> Result<(), Told> {
    let mut out = [0u8; PLACES_BYTES];
    let shown = reasons::reasons(n, list, a, &mut out)?;
    places(rt, first_places(shown.count, &out));
    Ok(())
}

/// The label of a line in the map of a line and of a file that is named: the first line, then the list, then the label.
fn why_by<R: Files + Print>(
    rt: &R,
    line: &[u8],
    label: &[u8],
    list_path: &[u8],
) -> Result<(), Told> {
    let Some(n) = line::variables_in(line) else {
        return Err(Told::Refused(Reason::TooManyVariables.at(0)));
    };
    let mut list = [0u8; file::LIST_BYTES];
    let list = file::load(rt, list_path, &mut list)?;
    show(rt, n, list, label::label_in(label))
}

/// The same, and what is told where it gives up.
pub fn why_named<R: Files + Print>(rt: &R, line: &[u8], label: &[u8], list_path: &[u8]) {
    if let Err(told) = why_by(rt, line, label, list_path) {
        print::line(rt, told);
    }
}

/// The program: two lines of standard input, and `map.cub`. A first line that is longer than what is read of it is refused, whatever is read as the second.
pub fn run<R: Files + Print>(rt: &R) {
    let mut first = [0; line::VARIABLE_BYTES];
    let count = line::read(&mut first);
    let mut second = [0; label::LABEL_BYTES];
    let digits = line::read(&mut second);
    why_named(rt, &first[..count], &second[..digits], b"map.cub");
}
