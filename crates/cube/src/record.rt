//! The record of a cube: four bytes of seen and four of value.
ghost use Rattle.std.specs.Prelude.{◌≡◌, refl, ◌+◌, ◌/◌, ◌≤◌, ◌<◌, length, get_or};
ghost use Rattle.std.proofs.lemmas.List.Edits.{sets};
ghost use Rattle.records.specs.Numbers.{number_at};
ghost use Rattle.records.specs.Records.{stored};
ghost use Rattle.records.specs.Kinds.{Any};
ghost use Rattle.records.specs.declared.reason.Reason.TheVariants.{CutShort, TooManyRecords, BadRecord};
ghost use Rattle.cube.specs.Cubes.{one, bare, good, DiffersIn};
ghost use Rattle.cube.specs.CubeRecord.{mask_width, record_width, cubes, cubes_of};
ghost use Rattle.cube.specs.Lists.{most_records};
ghost use Rattle.cube.specs.Kinds.{cubes_laws};

use crate::Cube;
use crate::list::MOST_RECORDS;
use records::kind::{self, Kind};
use records::{Reason, numbers};

/// Bytes of a mask.
pub(crate) const MASK_WIDTH: usize = 4;

/// Bytes of a record.
pub const RECORD_WIDTH: usize = 2 * MASK_WIDTH;

impl Cube {
    /// The cube of a decoded record, the first of these bytes; what is past their end counts as 0.
    pub fn of_record(part: &[u8]) -> Cube
        ensures { result ≡ cubes.read part.now 0 }
    {
        Cube {
            seen: numbers::number4_at(part, 0),
            value: numbers::number4_at(part, MASK_WIDTH),
        }
    }

    /// The cube's record stored as the first of these bytes, as far as they go.
    pub fn put_in(self, part: &mut [u8])
        ensures { part.new ≡ sets part.old 0 (cubes.enc self) }
    {
        numbers::put_number4(part, 0, self.seen);
        numbers::put_number4(part, MASK_WIDTH, self.value);
    }
}

/// The records of cubes: eight bytes each.
#[derive(Clone, Copy, Debug, PartialEq, Eq)]
pub struct Cubes;

impl Kind for Cubes {
    type Item = Cube;

    ghost codec = { cubes };

    ghost good = { good };

    ghost writable = { Any };

    ghost WIDTH = { record_width };

    ghost MOST = { most_records };

    ghost CUT_SHORT = { CutShort };

    ghost TOO_MANY = { TooManyRecords };

    ghost BAD = { BadRecord };

    const WIDTH: usize = RECORD_WIDTH;

    const MOST: usize = MOST_RECORDS;

    const CUT_SHORT: Reason = Reason::CutShort;

    const TOO_MANY: Reason = Reason::TooManyRecords;

    const BAD: Reason = Reason::BadRecord;

    #[inline(always)]
    fn read(bytes: &[u8]) -> Cube {
        Cube::of_record(bytes)
    }

    #[inline(always)]
    fn is_good_at(n: usize, bytes: &[u8]) -> bool {
        let seen = mask_at(bytes, 0);
        let value = mask_at(bytes, MASK_WIDTH);
        Cube { seen, value }.is_good(n)
    }

    #[inline(always)]
    fn write(item: Cube, bytes: &mut [u8]) {
        item.put_in(bytes);
    }

    ghost width_is = { refl };

    ghost laws = { cubes_laws };
}

/// The mask in the four bytes from byte `at` on of a list that has them. What goes over many records reads their masks so, one by one: a
/// cube that a function returns is read as one number of eight bytes, and then the compiler compares fewer of them at once.
pub(crate) fn mask_at(list: &[u8], at: usize) -> u32
    requires { at + mask_width ≤ length list.now }
    ensures { result ≡ number_at mask_width list.now at }
{
    let end = at + MASK_WIDTH;
    numbers::number4_at(&list[at..end], 0)
}

/// The cube at a place that the list has.
pub fn record_at(list: &[u8], i: usize) -> Cube
    requires { i < length list.now / record_width }
    ensures { result ≡ get_or (cubes_of list.now) i one }
{
    kind::item_at::<Cubes>(list, i)
}

/// The cube at place i of a list, or the product with no literal past its end.
pub fn cube_at(list: &[u8], i: usize) -> Cube
    ensures { result ≡ get_or (cubes_of list.now) i one }
{
    if list.len() / RECORD_WIDTH <= i {
        return Cube::ONE;
    }
    record_at(list, i)
}

/// Whether the product at place i of a list has no literal; past its end none has one.
pub fn bare_at(list: &[u8], i: usize) -> bool
    ensures { result ≡ bare (get_or (cubes_of list.now) i one) }
{
    if list.len() / RECORD_WIDTH <= i {
        return true;
    }
    mask_at(list, RECORD_WIDTH * i) == 0
}

/// The set of the variables in which c and the cube at a place that the list has differ.
pub fn differing_at(list: &[u8], i: usize, c: Cube) -> u32
    requires { i < length list.now / record_width }
    ensures { DiffersIn c (get_or (cubes_of list.now) i one) result }
{
    let at = RECORD_WIDTH * i;
    let seen = mask_at(list, at);
    let value = mask_at(list, at + MASK_WIDTH);
    c.differing(Cube { seen, value })
}

/// The cube stored at a place that the list has.
pub fn put_record(list: &mut [u8], i: usize, c: Cube)
    requires { i < length list.old / record_width }
    ensures { list.new ≡ stored cubes list.old i c }
{
    kind::put_item::<Cubes>(list, i, c);
}

/// The cube stored at place i of a list; nothing where it has no such place.
pub fn put_cube(list: &mut [u8], i: usize, c: Cube)
    ensures { list.new ≡ stored cubes list.old i c }
{
    if list.len() / RECORD_WIDTH <= i {
        return;
    }
    put_record(list, i, c);
}
