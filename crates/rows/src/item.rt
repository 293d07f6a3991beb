//! The items of a part: cubes, outputs, steps, bits, places or starts; bytes in hexadecimal, after an `x` up to the next space; and what stands in brackets, so many times.
ghost use Rattle.std.specs.Prelude.{◌≡◌, IsNone};

use crate::reader::Reader;
use cube::Cube;
use steps::StepRecord;
use text::{cubes, step};

/// How many places the two bytes of a step's record tell apart.
const PLACES: usize = 65536;

/// What a part is made of. A shared product is a cube, and after a stroke its outputs.
#[derive(Clone, Copy, Debug, PartialEq, Eq)]
pub enum Kind {
    Cubes { n: u32 },
    Products { n: u32 },
    Steps,
    Bits,
    Places,
    Starts,
    Nothing,
}

/// An item: what stands between items, and says what follows; how many times what stands since the last bracket is meant; or a number, whose bytes are meant, the low byte first.
#[derive(Clone, Copy, Debug, PartialEq, Eq)]
pub enum Item {
    Separator,
    Hexadecimal,
    Bracket,
    Times(u16),
    Byte(u8),
    Place(u16),
    Outputs(u32),
    Record(u64),
}

/// The number of a hexadecimal digit.
fn hexadecimal(b: u8) -> Option<u8> {
    match b {
        b'0'..=b'9' => Some(b - b'0'),
        b'a'..=b'f' => Some(b - b'a' + 10),
        _ => None,
    }
}

/// A cube's record as one number.
fn cube_record(cube: Cube) -> u64 {
    u64::from(cube.seen) | u64::from(cube.value) << 32
}

/// A step's record as one number.
fn step_record(step: StepRecord) -> u64 {
    let i = (step.i % PLACES) as u64;
    let j = (step.j % PLACES) as u64;
    u64::from(step.op) | u64::from(step.v) << 8 | i << 16 | j << 32 | u64::from(step.literal) << 48
}

impl Reader<'_> {
    fn hexadecimal(&mut self) -> Option<u8> {
        let (high, rest) = self.rest.split_first()?;
        let (low, rest) = rest.split_first()?;
        let byte = hexadecimal(*high)? << 4 | hexadecimal(*low)?;
        self.rest = rest;
        Some(byte)
    }

    fn bit(&mut self) -> Option<u8> {
        let (b, rest) = self.rest.split_first()?;
        let bit = match *b {
            b'0' => 0,
            b'1' => 1,
            _ => return None,
        };
        self.rest = rest;
        Some(bit)
    }

    /// A cube has a character for each variable, so none stands here where there are none.
    fn cube(&mut self, n: u32) -> Option<u64> {
        if n == 0 {
            return None;
        }
        let read = cubes::cube_at(self.rest, 0, n).ok()?;
        self.advance(read.next);
        Some(cube_record(read.value))
    }

    fn step(&mut self) -> Option<u64> {
        let read = step::step_at(self.rest, 0).ok()?;
        self.advance(read.next);
        Some(step_record(read.value))
    }

    /// The item of a kind that stands here.
    fn of_kind(&mut self, kind: Kind) -> Option<Item> {
        match kind {
            Kind::Products { n: _ } if self.rest.first() == Some(&b'/') => {
                self.advance(1);
                self.number().map(Item::Outputs)
            }
            Kind::Cubes { n } | Kind::Products { n } => self.cube(n).map(Item::Record),
            Kind::Steps => self.step().map(Item::Record),
            Kind::Bits => self.bit().map(Item::Byte),
            Kind::Places => self.number().map(Item::Place),
            Kind::Starts => self.number().map(Item::Record),
            Kind::Nothing => None,
        }
    }

    /// A closing bracket, and how many times what stands in it is meant: at least once.
    fn times(&mut self) -> Option<Item> {
        if !self.skip(b")*") {
            return None;
        }
        match self.number()? {
            0 => None,
            times => Some(Item::Times(times)),
        }
    }

    /// What stands here, where it is an item of the kind. Where it is none, the front of it may be taken.
    fn item_here(&mut self, kind: Kind, raw: bool) -> Option<Item> {
        let between = match *self.rest.first()? {
            b' ' | b',' => Item::Separator,
            b'x' => Item::Hexadecimal,
            b'(' => Item::Bracket,
            b')' => return self.times(),
            _ if raw => return self.hexadecimal().map(Item::Byte),
            _ => return self.of_kind(kind),
        };
        self.advance(1);
        Some(between)
    }

    /// Takes what stands here, where it is an item of the kind; nothing where it is none. `raw` says that hexadecimal digits are.
    pub fn item(&mut self, kind: Kind, raw: bool) -> Option<Item>
        ensures { IsNone result → self.new ≡ self.old }
    {
        let here = *self;
        let item = self.item_here(kind, raw);
        if item.is_none() {
            *self = here;
        }
        item
    }
}
