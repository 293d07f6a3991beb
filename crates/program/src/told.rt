//! What the programs `settle`, `why` and `selector` tell where they give up.
ghost use Rattle.std.specs.Prelude.{◌≡◌};
ghost use Rattle.program.specs.declared.told.Told.TheVariants.{NoFile};

use records::Refusal;
use std::alloc::AllocError;
use std::{fmt, io};

/// Why a program prints nothing of what it was asked for.
#[derive(Clone, Copy, Debug, PartialEq, Eq)]
pub enum Told {
    NoFile,
    Refused(Refusal),
    /// A refusal of a bit's list or script, with the bit.
    InBit(Refusal, usize),
}

impl fmt::Display for Told {
    fn fmt<W: fmt::Write>(&self, f: &mut fmt::Formatter<W>) -> fmt::Result {
        match self {
            Told::NoFile => write!(f, "no file"),
            Told::Refused(refusal) => write!(f, "{refusal}"),
            Told::InBit(refusal, bit) => write!(f, "{refusal} in bit {bit}"),
        }
    }
}

impl From<Refusal> for Told {
    fn from(refusal: Refusal) -> Told {
        Told::Refused(refusal)
    }
}

/// A lack of memory, told as an error of a file is: for callers that take memory. The programs take none.
impl From<AllocError> for Told {
    fn from(_error: AllocError) -> Told
        ensures { result ≡ NoFile }
    {
        Self::NoFile
    }
}

/// A file that can't be opened or read.
impl From<io::Error> for Told {
    fn from(_error: io::Error) -> Told {
        Told::NoFile
    }
}
