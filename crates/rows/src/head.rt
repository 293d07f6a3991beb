//! The numbers at the head of a row.
ghost use Rattle.std.specs.Prelude.{◌≤◌, ◌↔◌, IsOk, max};

use crate::reader::{Reader, RowError};

/// The number of variables; the assignment, the polarity, the count or the group; the bytes of the lent buffer and of a second one; and the place after them.
#[derive(Clone, Copy, Debug, PartialEq, Eq)]
pub struct Head {
    pub n: usize,
    pub given: usize,
    pub room: usize,
    pub second: usize,
    place: usize,
}

impl Head {
    /// Whether both buffers have at most so many bytes.
    pub fn within(&self, most: usize) -> Result<(), RowError>
        ensures { IsOk result ↔ (max self.now.room self.now.second ≤ most) }
    {
        if self.room.max(self.second) <= most {
            return Ok(());
        }
        Err(RowError::Unread { place: self.place })
    }
}

impl Reader<'_> {
    /// Takes the numbers of a call: `N`, then `at A`, `under P` or `for M`, then `into B` and `and C`. One that isn't there is 0.
    pub fn head(&mut self) -> Head {
        let n = self.field(b"");
        let assignment = self.field(b" at ");
        let polarity = self.field(b" under ");
        let count = self.field(b" for ");
        let room = self.field(b" into ");
        let second = self.field(b" and ");
        Head {
            n,
            given: assignment | polarity | count,
            room,
            second,
            place: self.place(),
        }
    }
}
