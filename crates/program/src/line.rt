//! Lines of standard input, and the number of a line of digits.
ghost use Rattle.std.specs.Prelude.{◌≡◌, ◌≤◌, IfOk, vec_len};
ghost use Rattle.io.specs.Counts.{IsPrefixLen};
ghost use Rattle.program.specs.Lines.{line_number, variables_line};

use std::alloc::AllocError;
use std::io::{BufRead, ErrorKind, Read};
use text::number;

/// The digits of the line that gives the number of variables, at most.
const VARIABLE_DIGITS: usize = 2;

/// Bytes of that line that are read: one more than its digits, by which it is too long.
pub const VARIABLE_BYTES: usize = VARIABLE_DIGITS + 1;

/// The number of standard input.
const STANDARD_INPUT: i32 = 0;

/// The next byte of the line; none at its newline, or where the input ends or can't be read.
fn next_byte() -> Option<u8> {
    let mut byte = [0u8; 1];
    let count = io::read_full(STANDARD_INPUT, &mut byte);
    if count == 0 || byte[0] == b'\n' {
        return None;
    }
    Some(byte[0])
}

/// Reads a line, and nothing after it, to the front of a buffer, as far as that goes. Answers how many bytes it has, its newline left out. It ends too where the input ends
/// or can't be read.
pub fn read(line: &mut [u8]) -> usize
    ensures { IsPrefixLen result line.new }
{
    for k in 0..line.len() {
        match next_byte() {
            Some(byte) => line[k] = byte,
            None => return k,
        }
    }
    line.len()
}

/// Reads a line of the input of `rt`, as a vector of at most so many bytes, its newline left out. It ends too where the input ends or can't be read; it fails where there is
/// no memory for it.
pub fn read_line<R: Input + AllocGlobal>(rt: &R, most: usize) -> Result<Vec<u8>, AllocError>
    ensures { IfOk result (λ line. vec_len line ≤ most) }
{
    let mut line = Vec::new(rt.alloc());
    if let Err(error) = rt.reader().take(most as u64).read_until(b'\n', &mut line) {
        if error.kind() == ErrorKind::OutOfMemory {
            return Err(AllocError);
        }
    }
    if line.last() == Some(&b'\n') {
        line.pop();
    }
    line.truncate(most);
    Ok(line)
}

/// The number of a line of one to `digits` digits, where it is at most `most`.
pub fn number_in(line: &[u8], digits: usize, most: usize) -> Option<usize>
    ensures { result ≡ line_number digits most line.now }
{
    if digits < line.len() {
        return None;
    }
    match number::number_at(line, 0, most) {
        Err(_) => None,
        Ok(read) => {
            if read.next == line.len() {
                return Some(read.value);
            }
            None
        }
    }
}

/// What the line says that gives the number of variables.
pub fn variables_in(line: &[u8]) -> Option<usize>
    ensures { result ≡ variables_line line.now }
{
    number_in(line, VARIABLE_DIGITS, cube::list::MOST_VARIABLES)
}
