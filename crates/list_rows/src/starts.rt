//! The starts of an index: read from the bytes of a row's part, and shown.
use index::GROUPS;
use records::numbers;
use std::fmt;

/// The number of the eight bytes from byte p on; a byte past the end is 0.
fn number8_at(bytes: &[u8], p: usize) -> u64 {
    if bytes.len() <= p {
        return 0;
    }
    u64::from(numbers::number4_at(bytes, p)) | u64::from(numbers::number4_at(bytes, p + 4)) << 32
}

/// A start for each eight bytes; 0 for those that aren't there.
pub(crate) fn starts_of(bytes: &[u8]) -> [u64; GROUPS] {
    let mut starts = [0; GROUPS];
    // Stays: by places; the last eight bytes may lack some, and `chunks` gives no length that fits a number's.
    for m in 0..GROUPS {
        starts[m] = number8_at(bytes, 8 * m);
    }
    starts
}

/// The starts of all groups, each with how many groups in a row have it.
#[derive(Clone, Copy, Debug)]
pub(crate) struct Starts {
    pub starts: [u64; GROUPS],
}

impl fmt::Display for Starts {
    fn fmt<W: fmt::Write>(&self, f: &mut fmt::Formatter<W>) -> fmt::Result {
        f.write_str(" starts")?;
        for groups in self.starts.chunk_by(|a, b| a == b) {
            match groups {
                [start] => write!(f, " {start}")?,
                [start, ..] => write!(f, " ({start})*{}", groups.len())?,
                [] => {}
            }
        }
        Ok(())
    }
}
