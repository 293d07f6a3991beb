//! Steps: a word, and the fields that the operation uses.
ghost use Rattle.std.specs.Prelude.{◌≡◌};
ghost use Rattle.steps.specs.Steps.{meaning};
ghost use Rattle.script.specs.Scripts.{uses_j};
ghost use Rattle.text.specs.Places.{Laid};
ghost use Rattle.text.specs.Steps.{step_text};
ghost use Rattle.text.specs.Printing.{word_of, field_if};
ghost use Rattle.text.specs.Reading.{gap_in, field_at, operation_at, fields_at, step_in};

use crate::{Read, WrongAt, number, place};
use steps::StepRecord;

/// The greatest variable and literal, and the greatest place, that a step's record holds.
const MOST_BYTE: usize = 255;

const MOST_PLACE: usize = 65535;

/// The word of an operation.
#[tactic(auto, unfolding(crate::specs::Printing::word_of))]
fn word_of(op: u8) -> &'static [u8]
    ensures { result.now ≡ word_of op }
{
    match op {
        0 | 1 => b"drop",
        2 => b"join",
        3 => b"split",
        4 => b"turn",
        _ => b"L",
    }
}

/// A space, a lead and a number, where the field is used.
pub fn put_field(out: &mut [u8], at: usize, used: bool, lead: &[u8], x: usize) -> usize
    ensures { Laid out.old at (field_if used lead.now x) result out.new }
{
    if !used {
        return at;
    }
    let first = place::put_byte(out, at, b' ');
    let next = place::put_text(out, first, lead);
    number::put_number(out, next, x)
}

/// A step at a place of a buffer, and the next place.
// Stays: numbers for operations, those of a record's bytes; which fields each uses is said of them by `uses_v` and its like (specs of script).
pub fn put_step(out: &mut [u8], at: usize, x: StepRecord) -> usize
    ensures { Laid out.old at (step_text (meaning x)) result out.new }
{
    let op = x.op;
    let v = place::put_text(out, at, word_of(op));
    let i = put_field(out, v, 3 <= op, b"x", x.v as usize);
    let j = put_field(out, i, op <= 4, b"", x.i);
    let literal = put_field(out, j, uses_j(op), b"", x.j);
    put_field(out, literal, 5 <= op, b"", x.literal as usize)
}

/// The place after the blanks at a place of a text; wrong where there are none.
#[tactic(auto, unfolding(crate::specs::Reading::gap_in))]
pub fn gap_at(text: &[u8], at: usize) -> Result<Read<usize>, WrongAt>
    ensures { result ≡ gap_in text.now at }
{
    if !place::is_blank(place::byte_at(text, at)) {
        return Err(WrongAt { place: at });
    }
    Ok(Read {
        value: 0,
        next: place::past_blanks(text, at),
    })
}

/// A field where it is used, and 0 where it isn't.
#[tactic(auto, unfolding(crate::specs::Reading::field_at))]
pub fn field_at(
    text: &[u8],
    at: usize,
    used: bool,
    lead: &[u8],
    most: usize,
) -> Result<Read<usize>, WrongAt>
    ensures { result ≡ field_at used lead.now most text.now at }
{
    if !used {
        return Ok(Read { value: 0, next: at });
    }
    let gap = gap_at(text, at)?;
    let word = place::word_at(text, gap.next, lead, 0)?;
    number::number_at(text, word.next, most)
}

/// The operation whose word stands at a place of a text.
// Stays: a number for an operation, which is a byte of a step's record.
#[tactic(auto, unfolding(crate::specs::Reading::operation_at))]
fn operation_at(text: &[u8], at: usize) -> Result<Read<usize>, WrongAt>
    ensures { result ≡ operation_at text.now at }
{
    match place::byte_at(text, at) {
        b'd' => place::word_at(text, at, b"drop", 1),
        b'j' => place::word_at(text, at, b"join", 2),
        b's' => place::word_at(text, at, b"split", 3),
        b't' => place::word_at(text, at, b"turn", 4),
        _ => place::word_at(text, at, b"L", 5),
    }
}

/// Whether an operation uses place j.
fn uses_j(op: u8) -> bool
    ensures { result ≡ uses_j op }
{
    op <= 2 || op == 4
}

/// The fields of an operation at a place of a text.
// Stays: a number for an operation, whose word stood in the text; the record with its fields is only made here.
#[tactic(auto, unfolding(crate::specs::Reading::fields_at))]
fn fields_at(text: &[u8], at: usize, op: u8) -> Result<Read<StepRecord>, WrongAt>
    ensures { result ≡ fields_at op text.now at }
{
    let v = field_at(text, at, 3 <= op, b"x", MOST_BYTE)?;
    let i = field_at(text, v.next, op <= 4, b"", MOST_PLACE)?;
    let j = field_at(text, i.next, uses_j(op), b"", MOST_PLACE)?;
    let literal = field_at(text, j.next, op == 5, b"", MOST_BYTE)?;
    let step = StepRecord {
        op,
        v: v.value as u8,
        i: i.value,
        j: j.value,
        literal: literal.value as u8,
        zero: 0,
    };
    Ok(Read {
        value: step,
        next: literal.next,
    })
}

/// The step at a place of a text. It is wrong at the first character that none of the five has there.
#[tactic(auto, unfolding(crate::specs::Reading::step_in))]
pub fn step_at(text: &[u8], at: usize) -> Result<Read<StepRecord>, WrongAt>
    ensures { result ≡ step_in text.now at }
{
    let word = operation_at(text, at)?;
    fields_at(text, word.next, word.value as u8)
}
