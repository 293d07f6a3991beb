//! Two steps in a row that undo each other, and the count along.

ghost use Rattle.std.specs.Prelude.{◌≡◌, ◌≤◌};
ghost use Rattle.compactor.specs.StepBytes.{operation_of, join_of, half_pair};
ghost use Rattle.compactor.specs.Keeping.{most_count, count_by};

use crate::Halves;

/// How many numbers one byte holds.
const BYTE: u32 = 256;

/// How many numbers two bytes hold.
const TWO_BYTES: u32 = 65536;

/// The operation of a step.
// Stays: a number, 1 drop, 2 join, 3 split; steps are compared and copied as two numbers of four bytes, and a step's enum would be read field by field.
fn operation(x: Halves) -> u32
    ensures { result ≡ operation_of x }
{
    x.low % BYTE
}

/// The join of the place of a split with the place that it appends, before which there are so many records.
fn join_of(count: usize, x: Halves) -> Halves
    requires { count ≤ most_count }
    ensures { result ≡ join_of count x }
{
    let place = x.low / TWO_BYTES;
    let appended = count as u32;
    Halves {
        low: place * TWO_BYTES + 2,
        high: appended,
    }
}

/// Whether y undoes x, before which there are so many records.
pub(crate) fn is_pair(count: usize, x: Halves, y: Halves) -> bool
    requires { count ≤ most_count }
    ensures { result ≡ half_pair count x y }
{
    let op = operation(x);
    if op == 3 {
        return join_of(count, x) == y;
    }
    (3 < op) & (x == y)
}

/// The count after a step.
pub(crate) fn count_after(count: usize, x: Halves) -> usize
    requires { count ≤ most_count }
    ensures { result ≡ count_by count (operation_of x) }
{
    match operation(x) {
        0 | 1 => count.saturating_sub(2),
        2 => count.saturating_sub(1),
        3 => count + 1,
        _ => count,
    }
}
