//! A step's eight bytes, read and stored as two numbers of four, which the compiler reads and stores as one of eight. The fields of a record, one by one, it does not.

ghost use Rattle.std.specs.Prelude.{◌≡◌, ◌/◌, ◌<◌, length};
ghost use Rattle.std.proofs.lemmas.List.Edits.{sets};
ghost use Rattle.records.specs.Records.{stored};
ghost use Rattle.script.specs.Scripts.{step_width};
ghost use Rattle.compactor.specs.StepBytes.{half_records, halves_at};

use crate::Halves;
use records::numbers;
use script::record::STEP_WIDTH;

/// Bytes of a half.
const HALF_WIDTH: usize = 4;

/// The halves of the first step of these bytes.
fn of_part(part: &[u8]) -> Halves
    ensures { result ≡ half_records.read part.now 0 }
{
    Halves {
        low: numbers::number4_at(part, 0),
        high: numbers::number4_at(part, HALF_WIDTH),
    }
}

/// The halves stored as the first of these bytes.
fn put_in(part: &mut [u8], h: Halves)
    ensures { part.new ≡ sets part.old 0 (half_records.enc h) }
{
    numbers::put_number4(part, 0, h.low);
    numbers::put_number4(part, HALF_WIDTH, h.high);
}

/// The halves of a step that the script has.
pub(crate) fn halves_at(script: &[u8], k: usize) -> Halves
    requires { k < length script.now / step_width }
    ensures { result ≡ halves_at script.now k }
{
    let at = STEP_WIDTH * k;
    let end = at + STEP_WIDTH;
    of_part(&script[at..end])
}

/// The halves stored as step t of an output that has room for it.
pub(crate) fn put_halves(out: &mut [u8], t: usize, h: Halves)
    requires { t < length out.old / step_width }
    ensures { out.new ≡ stored half_records out.old t h }
{
    let at = STEP_WIDTH * t;
    let end = at + STEP_WIDTH;
    put_in(&mut out[at..end], h);
}
