//! Places as records of two bytes in a lent buffer.
ghost use Rattle.std.specs.Prelude.{◌≡◌, ◌/◌, ◌<◌, length};
ghost use Rattle.records.specs.Records.{stored};
ghost use Rattle.records.specs.Places.{place_width, places};

use crate::numbers;

/// Bytes of a place.
pub const PLACE_WIDTH: usize = 2;

/// The k-th place of a buffer that has so many.
// Stays: reading and storing of its own, and no `Kind`; a buffer of places is never checked, so it has no test and no reasons to be refused for.
pub fn place_at(b: &[u8], k: usize) -> u16
    requires { k < length b.now / place_width }
    ensures { result ≡ places.read b.now k }
{
    let at = PLACE_WIDTH * k;
    let end = at + PLACE_WIDTH;
    numbers::number2_at(&b[at..end], 0)
}

/// The place i stored as the k-th of a buffer that has room for it.
pub fn put_place(b: &mut [u8], k: usize, i: u16)
    requires { k < length b.old / place_width }
    ensures { b.new ≡ stored places b.old k i }
{
    let at = PLACE_WIDTH * k;
    let end = at + PLACE_WIDTH;
    numbers::put_number2(&mut b[at..end], 0, i);
}
