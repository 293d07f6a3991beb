//! What a call on a map answers and leaves, as a row shows it.
use answers::answer::Refused;
use answers::left::{Cubes, is_whole};
use cube::list::RECORD_WIDTH;
use selector::{MOST_LISTS, MapRefusal};
use std::fmt;

/// The number, or the refusal, with the list that is refused.
#[derive(Clone, Copy, Debug)]
pub(crate) struct Told {
    pub answer: Result<usize, MapRefusal>,
}

impl fmt::Display for Told {
    fn fmt<W: fmt::Write>(&self, f: &mut fmt::Formatter<W>) -> fmt::Result {
        match self.answer {
            Ok(number) => write!(f, "= {number}"),
            Err(MapRefusal { refusal, list }) => {
                write!(f, "{}", Refused { refusal })?;
                match list {
                    Some(list) => write!(f, " list {list}"),
                    None => Ok(()),
                }
            }
        }
    }
}

/// A number for each list.
#[derive(Clone, Copy, Debug)]
pub(crate) struct Each {
    pub each: [u64; MOST_LISTS],
}

impl fmt::Display for Each {
    fn fmt<W: fmt::Write>(&self, f: &mut fmt::Formatter<W>) -> fmt::Result {
        f.write_str(" each")?;
        for number in self.each {
            write!(f, " {number}")?;
        }
        Ok(())
    }
}

/// The burned lists of a map, end to end, with so many lists and their lengths; nothing where their buffer is not shown whole.
#[derive(Clone, Copy, Debug)]
pub(crate) struct Burned<'a> {
    pub n: usize,
    pub count: usize,
    pub lengths: [u64; MOST_LISTS],
    pub bytes: &'a [u8],
}

impl fmt::Display for Burned<'_> {
    fn fmt<W: fmt::Write>(&self, f: &mut fmt::Formatter<W>) -> fmt::Result {
        if !is_whole(self.bytes) {
            return Ok(());
        }
        let n = self.n;
        let mut rest = self.bytes;
        for length in self.lengths.iter().take(self.count) {
            let (bytes, after) = rest
                .split_at_checked(*length as usize)
                .unwrap_or((&[], rest));
            let count = bytes.len() / RECORD_WIDTH;
            write!(f, "{}", Cubes { n, count, bytes })?;
            rest = after;
        }
        Ok(())
    }
}
