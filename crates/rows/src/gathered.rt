//! What is printed, gathered in a lent buffer and handed on in larger pieces.
ghost use Rattle.std.specs.Prelude.{◌≤◌, length};

use crate::part;
use std::io;
use std::io::{ErrorKind, Write};

/// What prints, and a buffer with so many bytes at its front that are not printed yet.
#[derive(Drop)]
pub(crate) struct Gathered<'a, 'b, R: Print> {
    rt: &'a R,
    buffer: &'b mut [u8],
    held: usize,
}

/// Prints bytes until all are printed or it fails; answers how many were, and how it ended.
fn print_out<R: Print>(rt: &R, bytes: &[u8]) -> (usize, io::Result<()>)
    ensures { result.0 ≤ length bytes.now }
{
    let mut printed = 0;
    for _ in 0..u64::MAX {
        if printed == bytes.len() {
            return (printed, Ok(()));
        }
        match rt.write_some(&bytes[printed..]) {
            Ok(0) => break,
            Ok(count) => printed += count,
            Err(error) if error.kind() == ErrorKind::Interrupted => {}
            Err(error) => return (printed, Err(error)),
        }
    }
    (printed, Err(io::Error::from(ErrorKind::WriteZero)))
}

impl<'a, 'b, R: Print> Gathered<'a, 'b, R> {
    /// Nothing is gathered yet.
    pub fn new(rt: &'a R, buffer: &'b mut [u8]) -> Gathered<'a, 'b, R> {
        Gathered {
            rt,
            buffer,
            held: 0,
        }
    }

    /// Prints what is held. What a failure leaves of it is held on.
    fn hand_on(&mut self) -> io::Result<()> {
        let rt = self.rt;
        let held = self.held.min(self.buffer.len());
        let (printed, result) = print_out(rt, &self.buffer[..held]);
        self.buffer.copy_within(printed..held, 0);
        self.held = held - printed;
        result
    }
}

impl<R: Print> Write for Gathered<'_, '_, R> {
    fn write(&mut self, bytes: &[u8]) -> io::Result<usize> {
        self.write_all(bytes)?;
        Ok(bytes.len())
    }

    fn flush(&mut self) -> io::Result<()> {
        self.hand_on()
    }

    fn write_all(&mut self, bytes: &[u8]) -> io::Result<()> {
        if let Some(held) = part::put_bytes(self.buffer, self.held, bytes) {
            self.held = held;
            return Ok(());
        }
        self.hand_on()?;
        if let Some(held) = part::put_bytes(self.buffer, self.held, bytes) {
            self.held = held;
            return Ok(());
        }
        Print::write_all(self.rt, bytes)
    }
}
