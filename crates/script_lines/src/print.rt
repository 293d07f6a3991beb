//! A script written out.
ghost use Rattle.records.specs.Records.{list_of};
ghost use Rattle.script.specs.Scripts.{step_records};
ghost use Rattle.text.specs.Places.{Laid};
ghost use Rattle.script_lines.specs.Scripts.{line_text, script_text};
ghost use Rattle.script_lines.specs.Inside.{any_step_text};

use crate::MERGE;
use script::record;
use steps::StepRecord;
use text::{place, step};

/// A step at a place of a buffer, and the next place.
fn put_any_step(out: &mut [u8], at: usize, x: StepRecord) -> usize
    ensures { Laid out.old at (any_step_text x) result out.new }
{
    if x.op == MERGE {
        let i = place::put_text(out, at, b"merge");
        let j = step::put_field(out, i, true, b"", x.i);
        return step::put_field(out, j, true, b"", x.j);
    }
    step::put_step(out, at, x)
}

/// A step and the end of its line.
fn put_line(out: &mut [u8], at: usize, x: StepRecord) -> usize
    ensures { Laid out.old at (line_text x) result out.new }
{
    let end = put_any_step(out, at, x);
    place::put_byte(out, end, b'\n')
}

/// The text of a script, whose steps are records of 8 bytes, laid to the front of a buffer, and the place after it.
pub fn print(script: &[u8], out: &mut [u8]) -> usize
    ensures { Laid out.old 0 (script_text (list_of step_records script.now)) result out.new }
{
    let count = script.len() / record::STEP_WIDTH;
    let mut p = 0;
    for k in 0..count {
        p = put_line(out, p, record::step_at(script, k));
    }
    p
}
