//! What the lines that begin with a dot say.
ghost use Rattle.std.specs.Prelude.{◌≡◌};
ghost use Rattle.pla.specs.Names.{name_of, name_number, number_or_0, IsNameOf};
ghost use Rattle.pla.specs.Header.{inputs_said, outputs_said, type_said, products_said, end_said, named as header_named};
ghost use Rattle.pla.specs.Pla.{line_is};

use crate::{Header, Line};
use lines::word;
use records::Reason;

/// What is not said yet: a number that no line can say.
pub const UNSAID: usize = usize::MAX;

/// The greatest number of products that a text can state: it has no more bytes.
const MOST_STATED: usize = lines::MOST_TEXT;

/// The outputs of a shared product, at most.
pub const MOST_OUTPUTS: usize = 32;

impl Header {
    /// Of a text of which nothing is read.
    pub const NOTHING_SAID: Header = Header {
        inputs: UNSAID,
        outputs: UNSAID,
        esop: false,
        stated: UNSAID,
        line: 0,
        products: 0,
    };
}

/// The names that a line with a dot begins with.
#[derive(Clone, Copy, Debug, PartialEq, Eq)]
pub enum Name {
    Inputs = 1,
    Outputs = 2,
    Kind = 3,
    Products = 4,
    Passed = 5,
    End = 6,
}

/// A number that is no name's.
#[derive(Clone, Copy, Debug, PartialEq, Eq)]
pub struct UnknownName {
    pub number: u8,
}

impl TryFrom<u8> for Name {
    type Error = UnknownName;

    ghost try_from_gives = { IsNameOf };

    fn try_from(number: u8) -> Result<Name, UnknownName> {
        match number {
            1 => Ok(Name::Inputs),
            2 => Ok(Name::Outputs),
            3 => Ok(Name::Kind),
            4 => Ok(Name::Products),
            5 => Ok(Name::Passed),
            6 => Ok(Name::End),
            _ => Err(UnknownName { number }),
        }
    }
}

impl Name {
    /// The name that a word is.
    #[tactic(auto, unfolding(crate::specs::Names::name_of))]
    pub fn of(word: &[u8]) -> Option<Name>
        ensures { number_or_0 result ≡ name_of word.now }
    {
        if word == b".i".as_slice() {
            Some(Name::Inputs)
        } else if word == b".o".as_slice() {
            Some(Name::Outputs)
        } else if word == b".type".as_slice() {
            Some(Name::Kind)
        } else if word == b".p".as_slice() {
            Some(Name::Products)
        } else if word == b".ilb".as_slice() || word == b".ob".as_slice() {
            Some(Name::Passed)
        } else if word == b".e".as_slice() || word == b".end".as_slice() {
            Some(Name::End)
        } else {
            None
        }
    }

    /// What line k says by this name, and by what stands after it.
    #[tactic(auto, unfolding(crate::specs::Header::named))]
    pub fn says(self, k: usize, h: Header, rest: &[u8]) -> Result<Line, Reason>
        ensures { line_is result ≡ header_named k h (name_number self) rest.now }
    {
        match self {
            Name::Inputs => inputs_said(h, word::only_number(rest, cube::list::MOST_VARIABLES)),
            Name::Outputs => outputs_said(h, word::only_number(rest, MOST_OUTPUTS)),
            Name::Kind => type_said(h, word::is_only_word(rest, b"esop")),
            Name::Products => products_said(k, h, word::only_number(rest, MOST_STATED)),
            Name::Passed => Ok(Line::Knows(h)),
            Name::End => end_said(word::is_blank_from(rest, 0)),
        }
    }
}

// Stays: a number for a name, here and in `named`: the documents name both calls so.
/// A name as a number: 1 `.i`, 2 `.o`, 3 `.type`, 4 `.p`, 5 a line to be read over, 6 the end; 0 for every other.
pub fn name_of(w: &[u8]) -> u8
    ensures { result ≡ name_of w.now }
{
    match Name::of(w) {
        Some(name) => name as u8,
        None => 0,
    }
}

/// The number of inputs, once.
fn inputs_said(h: Header, x: Option<usize>) -> Result<Line, Reason>
    ensures { line_is result ≡ inputs_said h x }
{
    match x {
        Some(inputs) if h.inputs == UNSAID => Ok(Line::Knows(Header { inputs, ..h })),
        _ => Err(Reason::NoInputs),
    }
}

/// The number of outputs, at least one, once.
fn outputs_said(h: Header, x: Option<usize>) -> Result<Line, Reason>
    ensures { line_is result ≡ outputs_said h x }
{
    match x {
        Some(outputs) if 1 <= outputs && h.outputs == UNSAID => Ok(Line::Knows(Header {
            outputs,
            ..h
        })),
        _ => Err(Reason::NoOutputs),
    }
}

/// Whether the type is the one that is read.
fn type_said(h: Header, esop: bool) -> Result<Line, Reason>
    ensures { line_is result ≡ type_said h esop }
{
    if !esop {
        return Err(Reason::NotEsop);
    }
    Ok(Line::Knows(Header { esop, ..h }))
}

/// The number of products, stated at line k, once.
fn products_said(k: usize, h: Header, x: Option<usize>) -> Result<Line, Reason>
    ensures { line_is result ≡ products_said k h x }
{
    match x {
        Some(stated) if h.stated == UNSAID => Ok(Line::Knows(Header {
            stated,
            line: k,
            ..h
        })),
        _ => Err(Reason::OtherCount),
    }
}

/// The end, alone on its line.
fn end_said(alone: bool) -> Result<Line, Reason>
    ensures { line_is result ≡ end_said alone }
{
    if alone {
        return Ok(Line::Over);
    }
    Err(Reason::UnknownLine)
}

/// Line k: a name, as a number, and what stands after it.
pub fn named(k: usize, h: Header, name: u8, rest: &[u8]) -> Result<Line, Reason>
    ensures { line_is result ≡ header_named k h name rest.now }
{
    match Name::try_from(name) {
        Ok(name) => name.says(k, h, rest),
        Err(_) => Err(Reason::UnknownLine),
    }
}
