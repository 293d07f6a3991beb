//! A row that is read from its front on, and why it has no answer.
ghost use Rattle.std.specs.Prelude.{◌≡◌, ◌+◌, ◌↔◌, IsOk, IsTrue, length};

use std::alloc::AllocError;
use std::io;
use std::str::FromStr;

/// Why a row has no answer: it can't be read from a place on; or there is no memory, or its answer can't be written.
#[derive(Debug, Drop)]
pub enum RowError {
    Unread { place: usize },
    Failed(io::Error),
}

impl From<AllocError> for RowError {
    fn from(error: AllocError) -> RowError {
        RowError::Failed(io::Error::from(error))
    }
}

impl From<io::Error> for RowError {
    fn from(error: io::Error) -> RowError {
        RowError::Failed(error)
    }
}

/// What of a row is not read yet, and how long the whole row is.
#[derive(Clone, Copy, Debug)]
pub struct Reader<'a> {
    pub(crate) rest: &'a [u8],
    length: usize,
}

impl<'a> Reader<'a> {
    /// A row of which nothing is read yet.
    pub fn new(row: &'a [u8]) -> Reader<'a>
        ensures { length result.rest.now ≡ result.length }
    {
        Reader {
            rest: row,
            length: row.len(),
        }
    }

    /// The place in the row from which on it is not read yet.
    pub fn place(&self) -> usize {
        self.length.saturating_sub(self.rest.len())
    }

    /// Takes so many bytes.
    pub(crate) fn advance(&mut self, count: usize) {
        self.rest = self.rest.get(count..).unwrap_or(&[]);
    }

    /// Takes a word where it stands here, and says whether it does.
    pub fn skip(&mut self, word: &[u8]) -> bool
        ensures { IsTrue result → length self.new.rest.now + length word.now ≡ length self.old.rest.now }
    {
        match self.rest.strip_prefix(word) {
            Some(rest) => {
                self.rest = rest;
                true
            }
            None => false,
        }
    }

    /// How many bytes of a word stand here.
    pub(crate) fn common(&self, word: &[u8]) -> usize {
        self.rest
            .iter()
            .zip(word)
            .take_while(|(here, there)| here == there)
            .count()
    }

    /// Takes a word that has to stand here.
    pub fn expect(&mut self, word: &[u8]) -> Result<(), RowError> {
        if self.skip(word) {
            return Ok(());
        }
        Err(RowError::Unread {
            place: self.place().saturating_add(self.common(word)),
        })
    }

    /// Takes a number in decimal where one stands here that the type holds.
    pub fn number<T: FromStr>(&mut self) -> Option<T>
    where
        T::Err: Drop,
    {
        let count = self.rest.iter().take_while(|b| b.is_ascii_digit()).count();
        let digits = str::from_utf8(self.rest.get(..count)?).ok()?;
        let number = digits.parse::<T>().ok()?;
        self.advance(count);
        Some(number)
    }

    /// Takes a word where it stands here, and a number; 0 where there is none.
    pub fn field(&mut self, word: &[u8]) -> usize {
        let _ = self.skip(word);
        self.number().unwrap_or(0)
    }

    /// Whether the row is read to its end.
    pub fn end(&self) -> Result<(), RowError>
        ensures { IsOk result ↔ (length self.now.rest.now ≡ 0) }
    {
        if self.rest.is_empty() {
            return Ok(());
        }
        Err(RowError::Unread {
            place: self.place(),
        })
    }
}
