//! What a call answers and leaves, written.
use crate::answer::{Answer, Shown};
use crate::left::{Bytes, Left};
use records::Refusal;
use std::io;
use std::io::Write;

/// An answer alone.
pub fn answer<T: Shown + Drop, W: Write>(
    out: &mut W,
    answered: Result<T, Refusal>,
) -> io::Result<()> {
    write!(out, "{}", Answer { result: answered })
}

/// An answer and a lent buffer.
pub fn with_bytes<T: Shown + Drop, W: Write>(
    out: &mut W,
    answered: Result<T, Refusal>,
    bytes: &[u8],
) -> io::Result<()> {
    write!(out, "{}{}", Answer { result: answered }, Bytes { bytes })
}

/// An answer and a lent buffer, with the cubes over n variables that the call counted in it.
pub fn with_cubes<T: Shown + Drop, W: Write>(
    out: &mut W,
    answered: Result<T, Refusal>,
    left: Left<'_>,
) -> io::Result<()> {
    write!(out, "{}{left}", Answer { result: answered })
}
