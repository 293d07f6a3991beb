//! The record of a step: eight bytes of a script.
ghost use Rattle.std.specs.Prelude.{◌≡◌, ◌+◌, ◌≤◌, length, get_or};
ghost use Rattle.records.specs.Numbers.{number_at};
ghost use Rattle.records.specs.Records.{list_of, stored};
ghost use Rattle.script.specs.Scripts.{step_records, narrow_step};

use records::numbers;
use steps::StepRecord;

/// Bytes of a step's record.
pub const STEP_WIDTH: usize = 8;

/// How many places two bytes can name.
const PLACES: usize = 65536;

/// The place in the two bytes from byte p on.
fn place_at(script: &[u8], p: usize) -> usize
    requires { p + 2 ≤ length script.now }
    ensures { result ≡ number_at 2 script.now p }
{
    let end = p + 2;
    numbers::number2_at(&script[p..end], 0) as usize
}

/// The record of step k, or one that is all zero past the end.
pub fn step_at(script: &[u8], k: usize) -> StepRecord
    ensures { result ≡ get_or (list_of step_records script.now) k step_records.none }
{
    if script.len() / STEP_WIDTH <= k {
        return StepRecord {
            op: 0,
            v: 0,
            i: 0,
            j: 0,
            literal: 0,
            zero: 0,
        };
    }
    let at = STEP_WIDTH * k;
    let i = place_at(script, at + 2);
    let j = place_at(script, at + 4);
    StepRecord {
        op: script[at],
        v: script[at + 1],
        i,
        j,
        literal: script[at + 6],
        zero: script[at + 7],
    }
}

/// The record of step k stored, its places cut to two bytes; nothing where the script has no such step.
pub fn put_step(script: &mut [u8], k: usize, x: StepRecord)
    ensures { script.new ≡ stored step_records script.old k (narrow_step x) }
{
    if script.len() / STEP_WIDTH <= k {
        return;
    }
    let at = STEP_WIDTH * k;
    script[at] = x.op;
    script[at + 1] = x.v;
    numbers::put_number2(script, at + 2, (x.i % PLACES) as u16);
    numbers::put_number2(script, at + 4, (x.j % PLACES) as u16);
    script[at + 6] = x.literal;
    script[at + 7] = x.zero;
}
