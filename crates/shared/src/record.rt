//! The record of a shared product: the cube's own record, and four bytes of outputs.
ghost use Rattle.std.specs.Prelude.{◌≡◌, refl, ◌/◌, ◌<◌, length, get_or};
ghost use Rattle.std.proofs.lemmas.List.Edits.{sets};
ghost use Rattle.records.specs.Records.{stored};
ghost use Rattle.records.specs.Kinds.{Any};
ghost use Rattle.records.specs.declared.reason.Reason.TheVariants.{CutShort, TooManyRecords, BadRecord};
ghost use Rattle.shared.specs.SharedRecord.{no_shared, shared_width, shares, shares_of, fine};
ghost use Rattle.cube.specs.Lists.{most_records};
ghost use Rattle.shared.specs.Kinds.{shares_laws};

use crate::Shared;
use cube::Cube;
use cube::list::{MOST_RECORDS, RECORD_WIDTH};
use records::kind::{self, Kind};
use records::{Reason, numbers};

/// Bytes of a record.
pub const SHARED_WIDTH: usize = RECORD_WIDTH + 4;

impl Shared {
    /// The product with no literal and no output: the record whose bytes are all zero.
    pub const NONE: Shared = Shared {
        cube: Cube::ONE,
        outputs: 0,
    };

    /// The shared product of a decoded record, the first of these bytes; what is past their end counts as 0.
    fn of_record(part: &[u8]) -> Shared
        ensures { result ≡ shares.read part.now 0 }
    {
        let cube = Cube::of_record(part);
        let outputs = numbers::number4_at(part, RECORD_WIDTH);
        Shared { cube, outputs }
    }

    /// Its record stored as the first of these bytes, as far as they go.
    fn put_in(self, part: &mut [u8])
        ensures { part.new ≡ sets part.old 0 (shares.enc self) }
    {
        let c = self.cube;
        c.put_in(part);
        numbers::put_number4(part, RECORD_WIDTH, self.outputs);
    }
}

/// The records of shared products: twelve bytes each.
#[derive(Clone, Copy, Debug, PartialEq, Eq)]
pub struct Products;

impl Kind for Products {
    type Item = Shared;

    ghost codec = { shares };

    ghost good = { fine };

    ghost writable = { Any };

    ghost WIDTH = { shared_width };

    ghost MOST = { most_records };

    ghost CUT_SHORT = { CutShort };

    ghost TOO_MANY = { TooManyRecords };

    ghost BAD = { BadRecord };

    const WIDTH: usize = SHARED_WIDTH;

    const MOST: usize = MOST_RECORDS;

    const CUT_SHORT: Reason = Reason::CutShort;

    const TOO_MANY: Reason = Reason::TooManyRecords;

    const BAD: Reason = Reason::BadRecord;

    #[inline(always)]
    fn read(bytes: &[u8]) -> Shared {
        Shared::of_record(bytes)
    }

    #[inline(always)]
    fn is_good_at(n: usize, bytes: &[u8]) -> bool {
        let s = Shared::of_record(bytes);
        s.cube.is_good(n) & (s.outputs != 0)
    }

    #[inline(always)]
    fn write(item: Shared, bytes: &mut [u8]) {
        item.put_in(bytes);
    }

    ghost width_is = { refl };

    ghost laws = { shares_laws };
}

/// The shared product at a place that the list has.
pub fn record_at(list: &[u8], i: usize) -> Shared
    requires { i < length list.now / shared_width }
    ensures { result ≡ get_or (shares_of list.now) i no_shared }
{
    kind::item_at::<Products>(list, i)
}

/// The shared product stored at a place that the list has.
pub fn put_record(list: &mut [u8], i: usize, s: Shared)
    requires { i < length list.old / shared_width }
    ensures { list.new ≡ stored shares list.old i s }
{
    kind::put_item::<Products>(list, i, s);
}
