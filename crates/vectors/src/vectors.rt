//! A row's call: its parts read, its buffers lent, and the call made by what it takes.
use cube::list;
use rows::call::{Call, IndexCall, ListCall, SharedCall};
use rows::data;
use rows::given::Given;
use rows::item::Kind;
use rows::reader::{Reader, RowError};
use rows::table::AnswersInPlace;
use script::check;
use shared::list::SHARED_WIDTH;
use std::io;
use std::io::Write;

/// Bytes of a list or a lent buffer, at most: a record of the longer kind more than the most, and 2 bytes.
const MOST_ROOM: usize = SHARED_WIDTH * (list::MOST_RECORDS + 1) + 2;

/// Bytes of a script, at most: a step more than the most, and a byte.
const SCRIPT_BYTES: usize = check::STEP_WIDTH * (check::MOST_STEPS + 1) + 1;

/// Bytes of the starts of an index, eight for each.
const STARTS_BYTES: usize = 8 * index::GROUPS;

/// Characters of a cube, at most: one more than the variables of a list.
const MOST_CODES: usize = list::MOST_VARIABLES + 1;

/// What every byte of a lent buffer is before the call.
const UNTOUCHED: u8 = 7;

/// What a row's first part is made of, over n variables.
fn first_kind(call: Call, n: usize) -> Kind {
    match call {
        Call::OnList(ListCall::Compact) => Kind::Steps,
        Call::OnBits(_) => Kind::Bits,
        Call::OnList(ListCall::Wide) => Kind::Nothing,
        _ if MOST_CODES < n => Kind::Nothing,
        Call::OnShared(_) => Kind::Products { n: n as u32 },
        _ => Kind::Cubes { n: n as u32 },
    }
}

/// What its second part is made of.
fn second_kind(call: Call) -> Kind {
    match call {
        Call::OnList(ListCall::Run) | Call::OnIndex(IndexCall::Indexed) | Call::Settle => {
            Kind::Steps
        }
        Call::OnShared(SharedCall::Run | SharedCall::Settle) => Kind::Steps,
        Call::OnIndex(IndexCall::Group) => Kind::Places,
        _ => Kind::Nothing,
    }
}

/// What its third part is made of.
fn third_kind(call: Call) -> Kind {
    match call {
        Call::OnIndex(IndexCall::Group) => Kind::Starts,
        _ => Kind::Nothing,
    }
}

/// The call of a row, with what it gives and both its buffers.
fn perform<W: Write>(
    out: &mut W,
    call: Call,
    given: Given<'_>,
    lent: &mut [u8],
    second: &mut [u8],
) -> io::Result<()> {
    match call {
        Call::OnList(call) => list_rows::on_list(out, call, given, lent, second),
        Call::OnIndex(call) => list_rows::with_index::on_index(out, call, given, lent, second),
        Call::Settle => shared_rows::settle_cubes(out, given, lent, second),
        Call::OnShared(call) => shared_rows::on_shared(out, call, given, lent, second),
        Call::OnBits(call) => form_rows::on_bits(out, call, given, lent),
    }
}

/// The same, with the buffers lent.
fn lend<W: Write>(out: &mut W, call: Call, given: Given<'_>) -> io::Result<()> {
    let mut lent = [UNTOUCHED; MOST_ROOM];
    let size = data::within(given.head.room, &lent);
    let mut second = [UNTOUCHED; MOST_ROOM];
    let beside = data::within(given.head.second, &second);
    perform(out, call, given, &mut lent[..size], &mut second[..beside])?;
    out.write_all(b"\n")
}

/// The rows whose calls are those of the library on lists, scripts, indexes, shared products and vectors.
pub(crate) struct Vectors;

impl AnswersInPlace for Vectors {
    fn answer<W: Write>(out: &mut W, row: &[u8]) -> Result<(), RowError> {
        let mut reader = Reader::new(row);
        let call = reader.call()?;
        let head = reader.head();
        let mut first = [0u8; MOST_ROOM];
        let size = reader.part_into(first_kind(call, head.n), &mut first);
        let mut second = [0u8; SCRIPT_BYTES];
        let script = reader.part_into(second_kind(call), &mut second);
        let mut third = [0u8; STARTS_BYTES];
        let starts = reader.part_into(third_kind(call), &mut third);
        reader.end()?;
        head.within(MOST_ROOM)?;
        let given = Given {
            head,
            first: &first[..size],
            second: &second[..script],
            third: &third[..starts],
        };
        lend(out, call, given)?;
        Ok(())
    }
}
