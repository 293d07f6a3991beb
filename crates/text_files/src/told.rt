//! What is told where something is refused: the program, the file, the line or step, the number, and words.
ghost use Rattle.std.specs.Prelude.{◌≡◌};
ghost use Rattle.text_files.specs.declared.told.Told.TheVariants.{NotPrinted};

use explain::InWords;
use records::Refusal;
use std::alloc::AllocError;
use std::fmt;

/// The descriptor of standard error.
const STDERR: i32 = 2;

/// What is wrong with a file, or with what is asked of it.
#[derive(Clone, Copy, Debug, PartialEq, Eq)]
pub enum Trouble<'a> {
    NoFile,
    NotWritten,
    /// A refusal of a whole file, or of what is asked of it.
    Whole(Refusal),
    /// A refusal whose place is a line; line 0 is none.
    AtLine(Refusal),
    /// A refusal whose place is a step, which stands on a line.
    AtStep(usize, Refusal),
    /// A refusal of a list in records: a bad record is refused at its place.
    AtRecord(Refusal),
    /// A refusal of a label that a map is asked for.
    OfLabel(&'a [u8], Refusal),
}

/// What a command tells where it gives up.
#[derive(Clone, Copy, Debug, PartialEq, Eq)]
pub enum Told<'a> {
    NotPrinted,
    OfFile(&'a [u8], Trouble<'a>),
}

impl fmt::Display for Trouble<'_> {
    fn fmt<W: fmt::Write>(&self, f: &mut fmt::Formatter<W>) -> fmt::Result {
        match *self {
            Trouble::NoFile => write!(f, "no such file, or it can't be read to its end"),
            Trouble::NotWritten => write!(f, "the file can't be written"),
            Trouble::AtLine(r) if r.place != 0 => write!(f, "line {}: {}", r.place, InWords(r)),
            Trouble::AtStep(line, r) => {
                write!(f, "line {line}, step {}: {}", r.place, InWords(r))
            }
            Trouble::AtRecord(r) if r.number == 4 => {
                write!(f, "record {}: {}", r.place, InWords(r))
            }
            Trouble::Whole(r)
            | Trouble::AtLine(r)
            | Trouble::AtRecord(r)
            | Trouble::OfLabel(_, r) => write!(f, "{}", InWords(r)),
        }
    }
}

impl Told<'_> {
    /// What is told, on a line of its own; that standard output can't be written, on standard error, whatever `err` is. Words of the command need not be text, and are
    /// written as they are.
    pub fn tell(&self, err: &impl Print) -> std::io::Result<()> {
        match *self {
            Told::NotPrinted => {
                let _ = io::write_all(STDERR, b"druthmoy: standard output can't be written\n");
                Ok(())
            }
            Told::OfFile(file, trouble) => {
                err.write_all(b"druthmoy: ")?;
                err.write_all(file)?;
                if let Trouble::OfLabel(label, _) = trouble {
                    err.write_all(b": label ")?;
                    err.write_all(label)?;
                }
                println!(err; ": {trouble}")
            }
        }
    }
}

/// A lack of memory, told as output that can't be printed is: for callers that take memory. The commands take none.
impl From<AllocError> for Told<'_> {
    fn from(_error: AllocError) -> Self
        ensures { result ≡ NotPrinted }
    {
        Self::NotPrinted
    }
}
