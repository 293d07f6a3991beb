//! The label of a line of digits.
ghost use Rattle.std.specs.Prelude.{◌≡◌};
ghost use Rattle.program.specs.Labels.{label_line};

use crate::line;

/// The digits of a label, at most.
const LABEL_DIGITS: usize = 10;

/// Bytes of its line that are read: one more than its digits, by which it is too long.
pub const LABEL_BYTES: usize = LABEL_DIGITS + 1;

/// An assignment of no number of variables that a list can have.
const NO_LABEL: u64 = u64::MAX;

/// The label that a line says, or one that every list refuses: so a bad label is refused after all that is refused of the list.
pub fn label_in(line: &[u8]) -> u64
    ensures { result ≡ label_line line.now }
{
    match line::number_in(line, LABEL_DIGITS, usize::MAX) {
        Some(a) => a as u64,
        None => NO_LABEL,
    }
}
