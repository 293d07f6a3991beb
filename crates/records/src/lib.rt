//! Records of fixed width end to end in a lent buffer: their numbers, places, clearing and filling; and the refusal that every call answers with.
#![tactic(auto)]

pub mod kind;
pub mod list;
pub mod numbers;
pub mod place;
pub mod reason;

ghost use Rattle.std.specs.Prelude.{◌≡◌, ◌++◌, Some, codes, length};
ghost use Rattle.std.specs.Fmt.{decimal};
ghost use Rattle.records.specs.Records.{zeros, filled_by};
ghost use Rattle.records.specs.Answers.{refusal, refusal_with};

pub use reason::{Reason, UnknownReason};
use std::fmt;

/// Why a call is refused: the number, the place, and a third answer: the number of differing variables, where the two cubes of a step are not
/// as it needs; else 0.
#[derive(Clone, Copy, Debug, PartialEq, Eq)]
pub struct Refusal {
    // Stays: a number and no `Reason`; `Refusal::new` takes any, and C reads it.
    pub number: u8,
    pub place: usize,
    pub differing: u32,
}

impl Refusal {
    /// The one way to make a plain refusal, whose third answer is 0.
    pub fn new(number: u8, place: usize) -> Refusal
        ensures { result ≡ refusal number place }
    {
        Refusal {
            number,
            place,
            differing: 0,
        }
    }

    /// The one way to make a refusal with a number of differing variables.
    pub fn with_differing(number: u8, place: usize, differing: u32) -> Refusal
        ensures { result ≡ refusal_with number place differing }
    {
        Refusal {
            number,
            place,
            differing,
        }
    }
}

impl fmt::Display for Refusal {
    ghost output = { λ r. Some (codes "refused " ++ (decimal r.number ++ (codes " at " ++ decimal r.place))) };

    fn fmt<W: fmt::Write>(&self, f: &mut fmt::Formatter<W>) -> fmt::Result {
        write!(f, "refused {} at {}", self.number, self.place)
    }
}

/// Clears all of buf.
pub fn clear(buf: &mut [u8])
    ensures { buf.new ≡ zeros (length buf.old) }
{
    buf.fill(0);
}

/// The bytes of list over those of buf, which has as many. They are copied one by one: the compiler makes a vector loop of it, and `copy_from_slice` a call of
/// `memmove`, which whoever links the archive would have to bring.
fn copy(buf: &mut [u8], list: &[u8])
    requires { length buf.old ≡ length list.now }
    ensures { buf.new ≡ list.now }
{
    for k in 0..buf.len() {
        buf[k] = list[k];
    }
}

/// The bytes of list at the front of buf, and zeros after them; nothing where they don't fit.
pub fn fill(buf: &mut [u8], list: &[u8])
    ensures { buf.new ≡ filled_by buf.old list.now }
{
    if buf.len() < list.len() {
        return;
    }
    let (front, rest) = buf.split_at_mut(list.len());
    copy(front, list);
    rest.fill(0);
}
