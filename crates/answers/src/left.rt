//! What a call leaves in the buffers that it was lent.
ghost use Rattle.std.specs.Prelude.{◌≤◌, ◌↔◌, IsTrue, length};

use cube::{Cube, list};
use std::fmt;
use text::cubes;

/// Bytes of a buffer that is shown whole; of a longer one the last ones are.
const MOST_SHOWN: usize = 257;

const LAST_SHOWN: usize = 26;

/// Whether a buffer is shown whole.
pub fn is_whole(bytes: &[u8]) -> bool
    ensures { IsTrue result ↔ (length bytes.now ≤ 257) }
{
    bytes.len() <= MOST_SHOWN
}

/// The bytes of a lent buffer.
#[derive(Clone, Copy, Debug)]
pub struct Bytes<'a> {
    pub bytes: &'a [u8],
}

impl fmt::Display for Bytes<'_> {
    fn fmt<W: fmt::Write>(&self, f: &mut fmt::Formatter<W>) -> fmt::Result {
        f.write_str(" |")?;
        let bytes = self.bytes;
        let mut from = 0;
        if !is_whole(bytes) {
            f.write_str(" ..")?;
            from = bytes.len().saturating_sub(LAST_SHOWN);
        }
        for b in &bytes[from..] {
            write!(f, " {b}")?;
        }
        Ok(())
    }
}

/// A cube over n variables: a character for each, variable 0 first; nothing where a cube has not so many.
#[derive(Clone, Copy, Debug)]
pub struct Spelt {
    pub n: usize,
    pub cube: Cube,
}

impl fmt::Display for Spelt {
    fn fmt<W: fmt::Write>(&self, f: &mut fmt::Formatter<W>) -> fmt::Result {
        if list::MOST_VARIABLES < self.n {
            return Ok(());
        }
        let mut characters = [0; list::MOST_VARIABLES];
        let end = cubes::put_cube(&mut characters, 0, self.n as u32, self.cube);
        let spelt = characters.get(..end).unwrap_or(&[]);
        f.write_str(str::from_utf8(spelt).unwrap_or(""))
    }
}

/// A list of cubes.
#[derive(Clone, Copy, Debug)]
pub struct Cubes<'a> {
    pub n: usize,
    pub count: usize,
    pub bytes: &'a [u8],
}

impl fmt::Display for Cubes<'_> {
    fn fmt<W: fmt::Write>(&self, f: &mut fmt::Formatter<W>) -> fmt::Result {
        f.write_str(" :")?;
        for i in 0..self.count {
            let cube = list::cube_at(self.bytes, i);
            write!(f, " {}", Spelt { n: self.n, cube })?;
        }
        Ok(())
    }
}

/// A lent buffer: the cubes that stand in it, where a call counted them and it is shown whole, and its bytes.
#[derive(Clone, Copy, Debug)]
pub struct Left<'a> {
    pub n: usize,
    pub count: Option<usize>,
    pub bytes: &'a [u8],
}

impl fmt::Display for Left<'_> {
    fn fmt<W: fmt::Write>(&self, f: &mut fmt::Formatter<W>) -> fmt::Result {
        let bytes = self.bytes;
        if let Some(count) = self.count
            && is_whole(bytes)
        {
            let n = self.n;
            write!(f, "{}", Cubes { n, count, bytes })?;
        }
        write!(f, "{}", Bytes { bytes })
    }
}
