//! A script read from its text.
ghost use Rattle.std.specs.Prelude.{◌≡◌, length};
ghost use Rattle.records.specs.Answers.{counted};
ghost use Rattle.records.specs.Records.{zeros, image};
ghost use Rattle.script.specs.Scripts.{step_records};
ghost use Rattle.lines.specs.Lines.{content};
ghost use Rattle.script_lines.specs.Scripts.{merge_in, any_step_in, step_before, at_end, told_of, steps_of, step_capacity, script_outcome, script_after};
ghost use Rattle.script_lines.specs.Inside.{said_by, numbered, reached_by, stored_by, whole_of};

use crate::MERGE;
use lines::{MOST_TEXT, line, word};
use records::{Reason, Refusal};
use script::check::MOST_STEPS;
use script::record;
use steps::StepRecord;
use text::{Read, WrongAt, place, step};

/// The greatest place that a step's record holds.
const MOST_PLACE: usize = 65535;

/// The merge at a place of a text.
#[tactic(auto, unfolding(crate::specs::Scripts::merge_in))]
fn merge_at(text: &[u8], at: usize) -> Result<Read<StepRecord>, WrongAt>
    ensures { result ≡ merge_in text.now at }
{
    let word = place::word_at(text, at, b"merge", MERGE as usize)?;
    let i = step::field_at(text, word.next, true, b"", MOST_PLACE)?;
    let j = step::field_at(text, i.next, true, b"", MOST_PLACE)?;
    let merge = StepRecord {
        op: MERGE,
        v: 0,
        i: i.value,
        j: j.value,
        literal: 0,
        zero: 0,
    };
    Ok(Read {
        value: merge,
        next: j.next,
    })
}

/// The step at a place of a text: a merge, or one of the five of a plain script.
#[tactic(auto, unfolding(crate::specs::Scripts::any_step_in))]
fn any_step_at(text: &[u8], at: usize) -> Result<Read<StepRecord>, WrongAt>
    ensures { result ≡ any_step_in text.now at }
{
    if place::byte_at(text, at) == b'm' {
        return merge_at(text, at);
    }
    step::step_at(text, at)
}

/// What a line says, of which only what stands before its comment is given: nothing, or a step.
#[tactic(auto, unfolding(crate::specs::Scripts::step_before))]
fn content_says(content: &[u8]) -> Result<Option<StepRecord>, Reason>
    ensures { said_by result ≡ step_before content.now }
{
    if word::is_blank_from(content, 0) {
        return Ok(None);
    }
    match any_step_at(content, place::past_blanks(content, 0)) {
        Ok(read) if word::is_blank_from(content, read.next) => Ok(Some(read.value)),
        _ => Err(Reason::NoStep),
    }
}

/// What a line says.
fn line_says(line: &[u8]) -> Result<Option<StepRecord>, Reason>
    ensures { said_by result ≡ step_before (content line.now) }
{
    let end = line::content_end(line);
    content_says(&line[..end])
}

/// A line after n steps: its step is stored behind them, where there is room. Answers how many steps there are then.
fn take_line(line: &[u8], out: &mut [u8], room: usize, n: usize) -> Result<usize, Reason>
    ensures value { numbered result ≡ reached_by room n (step_before (content line.now)) }
    ensures out_after { out.new ≡ stored_by room n out.old (step_before (content line.now)) }
{
    let Some(x) = line_says(line)? else {
        return Ok(n);
    };
    if room <= n {
        return Err(Reason::TooManyStepLines);
    }
    record::put_step(out, n, x);
    Ok(n + 1)
}

/// How many steps a buffer of so many bytes holds.
#[tactic(auto, unfolding(records::specs::Records::capacity_of))]
fn capacity(bytes: usize) -> usize
    ensures { result ≡ step_capacity bytes }
{
    (bytes / record::STEP_WIDTH).min(MOST_STEPS)
}

/// The lines in turn, into a buffer that is clear; a refusal clears it again.
fn read_lines(text: &[u8], out: &mut [u8]) -> Result<usize, Refusal>
    requires { out.old ≡ zeros (length out.old) }
    ensures result_value { counted result ≡ told_of (at_end (whole_of (length out.old) text.now)) }
    ensures out_after { out.new ≡ image step_records (length out.old) (steps_of (at_end (whole_of (length out.old) text.now))) }
{
    let room = capacity(out.len());
    let mut at: usize = 0;
    let mut n: usize = 0;
    let mut k: usize = 1;
    while at < text.len() {
        let end = line::line_end(text, at);
        match take_line(&text[at..end], out, room, n) {
            Err(why) => {
                records::clear(out);
                return Err(why.at(k));
            }
            Ok(m) => {
                n = m;
                at = end + 1;
                k += 1;
            }
        }
    }
    Ok(n)
}

/// A script as text: how many steps it has, whose records, of 8 bytes, are at the front of the buffer, with zeros after them; or a refusal, by 34 to 36 at a line, and zeros
/// alone.
pub fn read(text: &[u8], out: &mut [u8]) -> Result<usize, Refusal>
    ensures result_value { counted result ≡ script_outcome text.now (length out.old) }
    ensures out_after { out.new ≡ script_after text.now (length out.old) }
{
    records::clear(out);
    if MOST_TEXT < text.len() {
        return Err(Reason::TextTooLong.at(0));
    }
    read_lines(text, out)
}
