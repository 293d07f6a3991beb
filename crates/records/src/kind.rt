//! A kind of record: what it holds, its width, and the reading, testing and writing of one.
ghost use Rattle.std.specs.Prelude.{◌≡◌, ℕ, ◌+◌, ◌*◌, ◌/◌, ◌≤◌, ◌<◌, Bool, length, get_or};
ghost use Rattle.records.specs.declared.reason.Reason.{Reason};
ghost use Rattle.records.specs.Records.{Codec, list_of, stored, capacity_of};
ghost use Rattle.records.specs.Kinds.{Laws};

use crate::Reason;

/// A kind of record, named by a marker type: two kinds may hold one item.
pub trait Kind {
    /// What a record holds.
    type Item: Copy;

    ghost codec: { Codec Self.Item };

    ghost good: { ℕ → Self.Item → Bool };

    ghost writable: { Self.Item → Type 0 };

    ghost WIDTH: { ℕ };

    ghost MOST: { ℕ };

    ghost CUT_SHORT: { Reason };

    ghost TOO_MANY: { Reason };

    ghost BAD: { Reason };

    /// Bytes of a record.
    const WIDTH: usize;

    /// Records of a list, at most.
    const MOST: usize;

    /// Why a list is refused that ends within a record.
    const CUT_SHORT: Reason;

    /// Why a list is refused that has too many records.
    const TOO_MANY: Reason;

    /// Why a list is refused that has a bad record.
    const BAD: Reason;

    /// The item of a record.
    fn read(bytes: &[u8]) -> Self::Item
        requires { length bytes.now ≡ codec.width }
        ensures { result ≡ codec.read bytes.now 0 };

    /// Whether a record is good over n variables, tested in its bytes.
    fn is_good_at(n: usize, bytes: &[u8]) -> bool
        requires { length bytes.now ≡ codec.width }
        ensures { result ≡ good n (codec.read bytes.now 0) };

    /// The item stored as a record.
    fn write(item: Self::Item, bytes: &mut [u8])
        requires fits { writable item }
        requires width { length bytes.old ≡ codec.width }
        ensures { bytes.new ≡ codec.enc item };

    ghost width_is: { codec.width ≡ WIDTH };

    ghost laws: { Laws codec };
}

/// How many records of a kind a buffer has.
#[inline(always)]
pub fn count<K: Kind>(list: &[u8]) -> usize
    ensures { result ≡ length list.now / K.codec.width }
{
    list.len() / K::WIDTH
}

/// How many records of a kind a lent buffer of so many bytes can hold.
pub fn capacity<K: Kind>(room: usize) -> usize
    ensures { result ≡ capacity_of K.codec K.MOST room }
{
    (room / K::WIDTH).min(K::MOST)
}

/// The item at a place that the list has.
#[inline(always)]
pub fn item_at<K: Kind>(list: &[u8], i: usize) -> K::Item
    requires { i < length list.now / K.codec.width }
    ensures { result ≡ get_or (list_of K.codec list.now) i K.codec.none }
{
    let at = K::WIDTH * i;
    K::read(&list[at..at + K::WIDTH])
}

/// The item stored at a place that the list has.
#[inline(always)]
pub fn put_item<K: Kind>(list: &mut [u8], i: usize, item: K::Item)
    requires place { i < length list.old / K.codec.width }
    requires fits { K.writable item }
    ensures { list.new ≡ stored K.codec list.old i item }
{
    let at = K::WIDTH * i;
    K::write(item, &mut list[at..at + K::WIDTH]);
}
