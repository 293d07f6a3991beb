//! The narrow record of a cube, two bytes of seen and two of value: the kind of record of old lists.
ghost use Rattle.std.specs.Prelude.{◌≡◌, refl, ◌+◌, ◌≤◌, length};
ghost use Rattle.records.specs.Numbers.{number_at};
ghost use Rattle.records.specs.declared.reason.Reason.TheVariants.{CutShort, TooManyRecords, BadRecord};
ghost use Rattle.cube.specs.Cubes.{good, Good};
ghost use Rattle.converters.specs.NarrowRecord.{narrow_width, narrow_mask, narrow_cubes, narrow_variables};
ghost use Rattle.cube.specs.Lists.{most_records};
ghost use Rattle.converters.specs.Kinds.{narrow_laws};

use cube::Cube;
use cube::list::MOST_RECORDS;
use records::kind::Kind;
use records::{Reason, numbers};

/// Bytes of a mask.
const MASK_WIDTH: usize = 2;

/// Bytes of a record.
pub const NARROW_WIDTH: usize = 2 * MASK_WIDTH;

/// Variables of a list of narrow records, at most.
pub const NARROW_VARIABLES: usize = 16;

/// The mask in the two bytes from byte `at` on of a list that has them. A function of its own, whose part is of a known length: only then does the compiler read many
/// masks at once, and not byte by byte.
fn mask_at(list: &[u8], at: usize) -> u32
    requires { at + narrow_mask ≤ length list.now }
    ensures { result ≡ number_at narrow_mask list.now at }
{
    let end = at + MASK_WIDTH;
    numbers::number2_at(&list[at..end], 0) as u32
}

/// The narrow records of cubes: four bytes each.
#[derive(Clone, Copy, Debug, PartialEq, Eq)]
pub struct NarrowCubes;

impl Kind for NarrowCubes {
    type Item = Cube;

    ghost codec = { narrow_cubes };

    ghost good = { good };

    ghost writable = { Good narrow_variables };

    ghost WIDTH = { narrow_width };

    ghost MOST = { most_records };

    ghost CUT_SHORT = { CutShort };

    ghost TOO_MANY = { TooManyRecords };

    ghost BAD = { BadRecord };

    const WIDTH: usize = NARROW_WIDTH;

    const MOST: usize = MOST_RECORDS;

    const CUT_SHORT: Reason = Reason::CutShort;

    const TOO_MANY: Reason = Reason::TooManyRecords;

    const BAD: Reason = Reason::BadRecord;

    #[inline(always)]
    fn read(bytes: &[u8]) -> Cube {
        Cube {
            seen: mask_at(bytes, 0),
            value: mask_at(bytes, MASK_WIDTH),
        }
    }

    #[inline(always)]
    fn is_good_at(n: usize, bytes: &[u8]) -> bool {
        let seen = mask_at(bytes, 0);
        let value = mask_at(bytes, MASK_WIDTH);
        Cube { seen, value }.is_good(n)
    }

    #[inline(always)]
    fn write(item: Cube, bytes: &mut [u8]) {
        numbers::put_number2(bytes, 0, item.seen as u16);
        numbers::put_number2(bytes, MASK_WIDTH, item.value as u16);
    }

    ghost width_is = { refl };

    ghost laws = { narrow_laws };
}
