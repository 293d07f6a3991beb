//! Why a call is refused: a reason for each number of the table of refusals.
ghost use Rattle.std.specs.Prelude.{◌≡◌, Some};
ghost use Rattle.records.specs.Answers.{refusal};
ghost use Rattle.records.specs.Reasons.{number_of, words_of, ReadAs};

use crate::Refusal;
use std::fmt;

/// Why a call is refused, with the number that C and the programs say.
#[derive(Clone, Copy, Debug, PartialEq, Eq)]
pub enum Reason {
    TooManyVariables = 1,
    CutShort = 2,
    TooManyRecords = 3,
    BadRecord = 4,
    NoRoom = 5,
    LabelOutside = 6,
    ScriptCutShort = 7,
    TooManySteps = 8,
    BadStep = 9,
    NoSuchPlace = 10,
    SamePlace = 11,
    Full = 13,
    BadVector = 14,
    PolarityOutside = 15,
    Unequal = 16,
    NotOneApart = 17,
    NotTwoApart = 18,
    EqualThere = 19,
    TooWide = 20,
    NoSuchOutput = 21,
    OutputsDiffer = 22,
    NotMergeable = 23,
    NotOneToTwelve = 24,
    OtherIndex = 25,
    LengthsDiffer = 26,
    NoInputs = 27,
    NoOutputs = 28,
    NotEsop = 29,
    NoProduct = 30,
    TooManyProducts = 31,
    OtherCount = 32,
    UnknownLine = 33,
    NoStep = 34,
    TooManyStepLines = 35,
    TextTooLong = 36,
    NotOneOutput = 37,
}

/// A number that is no reason's.
#[derive(Clone, Copy, Debug, PartialEq, Eq)]
pub struct UnknownReason {
    pub number: u8,
}

impl Reason {
    /// The refusal for this reason at a place.
    pub fn at(self, place: usize) -> Refusal
        ensures { result ≡ refusal (number_of self) place }
    {
        Refusal::new(self as u8, place)
    }
}

impl TryFrom<u8> for Reason {
    type Error = UnknownReason;

    ghost try_from_gives = { ReadAs };

    fn try_from(number: u8) -> Result<Reason, UnknownReason> {
        match number {
            1 => Ok(Reason::TooManyVariables),
            2 => Ok(Reason::CutShort),
            3 => Ok(Reason::TooManyRecords),
            4 => Ok(Reason::BadRecord),
            5 => Ok(Reason::NoRoom),
            6 => Ok(Reason::LabelOutside),
            7 => Ok(Reason::ScriptCutShort),
            8 => Ok(Reason::TooManySteps),
            9 => Ok(Reason::BadStep),
            10 => Ok(Reason::NoSuchPlace),
            11 => Ok(Reason::SamePlace),
            13 => Ok(Reason::Full),
            14 => Ok(Reason::BadVector),
            15 => Ok(Reason::PolarityOutside),
            16 => Ok(Reason::Unequal),
            17 => Ok(Reason::NotOneApart),
            18 => Ok(Reason::NotTwoApart),
            19 => Ok(Reason::EqualThere),
            20 => Ok(Reason::TooWide),
            21 => Ok(Reason::NoSuchOutput),
            22 => Ok(Reason::OutputsDiffer),
            23 => Ok(Reason::NotMergeable),
            24 => Ok(Reason::NotOneToTwelve),
            25 => Ok(Reason::OtherIndex),
            26 => Ok(Reason::LengthsDiffer),
            27 => Ok(Reason::NoInputs),
            28 => Ok(Reason::NoOutputs),
            29 => Ok(Reason::NotEsop),
            30 => Ok(Reason::NoProduct),
            31 => Ok(Reason::TooManyProducts),
            32 => Ok(Reason::OtherCount),
            33 => Ok(Reason::UnknownLine),
            34 => Ok(Reason::NoStep),
            35 => Ok(Reason::TooManyStepLines),
            36 => Ok(Reason::TextTooLong),
            37 => Ok(Reason::NotOneOutput),
            _ => Err(UnknownReason { number }),
        }
    }
}

impl fmt::Display for Reason {
    ghost output = { λ r. Some (words_of r) };

    fn fmt<W: fmt::Write>(&self, f: &mut fmt::Formatter<W>) -> fmt::Result {
        f.write_str(match self {
            Reason::TooManyVariables =>
                "the number of variables is above what this takes, or is no number",
            Reason::CutShort => "the file is cut short: its length is no multiple of a record's",
            Reason::TooManyRecords => "there are more than 4,096 products",
            Reason::BadRecord =>
                "the record is bad: a value bit outside seen, a seen bit at or above the number of variables, or no output",
            Reason::NoRoom => "a buffer is too short",
            Reason::LabelOutside => "the label is no number below 2^n in one to ten digits",
            Reason::ScriptCutShort => "the script is cut short",
            Reason::TooManySteps => "there are more than 1,024 steps",
            Reason::BadStep =>
                "the step is bad: a variable at or above the number of inputs, a literal above 1, or a merge in a script for one output",
            Reason::NoSuchPlace =>
                "there is no product at one of the step's places: count from the list as it stands before the step",
            Reason::SamePlace => "the step needs two places, and both are the same",
            Reason::Full => "a split has no room: the list has 4,096 products",
            Reason::BadVector => "the vector is not one of 2^n bytes, each 0 or 1",
            Reason::PolarityOutside => "the polarity has a bit at or above the number of variables",
            Reason::Unequal => "a drop needs two equal cubes",
            Reason::NotOneApart => "a join needs two cubes that differ in exactly one variable",
            Reason::NotTwoApart => "a turn needs two cubes that differ in exactly two variables",
            Reason::EqualThere => "a turn needs a variable in which its two cubes differ",
            Reason::TooWide => "a list of more than 16 variables can't be narrowed",
            Reason::NoSuchOutput => "there is no such output",
            Reason::OutputsDiffer => "the step needs two products with the same outputs",
            Reason::NotMergeable => "a merge needs two equal cubes with different outputs",
            Reason::NotOneToTwelve => "a map has 1 to 12 outputs",
            Reason::OtherIndex => "the index is not that of this list",
            Reason::LengthsDiffer => "the lengths of the lists don't add up",
            Reason::NoInputs =>
                "the number of inputs must be said once, before the products: .i and a number from 0 to 32",
            Reason::NoOutputs =>
                "the number of outputs must be said once, before the products: .o and a number from 1 to 32",
            Reason::NotEsop =>
                "the type must be said before the products, and must be .type esop: any other PLA means OR",
            Reason::NoProduct =>
                "this is no product: a character 0, 1 or - for each input, then 0, 1, - or ~ for each output",
            Reason::TooManyProducts => "there are more than 4,096 products in some output",
            Reason::OtherCount =>
                ".p must be said at most once, and must be the number of products",
            Reason::UnknownLine =>
                "this is no line of ESOP-PLA: .i .o .type .p .ilb .ob .e .end are read, the last two alone on their line",
            Reason::NoStep =>
                "this is no step: drop I J, join I J, split xV I, turn xV I J, L xV LITERAL, merge I J",
            Reason::TooManyStepLines => "there are more than 1,024 steps",
            Reason::TextTooLong => "the text has more than 1,048,576 bytes",
            Reason::NotOneOutput => "this takes a map of one output",
        })
    }
}
