//! The check of a list of records of any kind.
ghost use Rattle.std.specs.Prelude.{◌≡◌, ◌*◌, ◌/◌, ◌≤◌, ◌<◌, leb, length, get_or};
ghost use Rattle.bits.specs.Sums.{All, first_bad};
ghost use Rattle.records.specs.Answers.{counted, unless};
ghost use Rattle.records.specs.Reasons.{number_of};
ghost use Rattle.records.specs.Records.{list_of, written};
ghost use Rattle.records.specs.Kinds.{checked, stride};
ghost use Rattle.records.specs.Strides.{pass_from, stride_from};

use crate::kind::{self, Kind};
use crate::{Reason, Refusal};

/// Records that are looked at together, with no branch between them.
pub const STRIDE: usize = 32;

/// Whether the record at a place that the list has is good.
#[inline(always)]
fn good_at<K: Kind>(n: usize, list: &[u8], i: usize) -> bool
    requires { i < length list.now / K.codec.width }
    ensures { result ≡ K.good n (get_or (list_of K.codec list.now) i K.codec.none) }
{
    let at = K::WIDTH * i;
    K::is_good_at(n, &list[at..at + K::WIDTH])
}

/// Whether a stride is left from place i on, and every record of it is good.
#[inline(always)]
fn stride_good<K: Kind>(n: usize, list: &[u8], i: usize) -> bool
    requires { i ≤ length list.now / K.codec.width }
    ensures { result ≡ pass_from (K.good n) K.codec.none stride (list_of K.codec list.now) i }
{
    if kind::count::<K>(list) - i < STRIDE {
        return false;
    }
    let mut all = true;
    for k in 0..STRIDE {
        all = all & good_at::<K>(n, list, i + k);
    }
    all
}

/// How many good records are passed at once from place i on: a stride, or one, or none.
#[inline(always)]
fn good_from<K: Kind>(n: usize, list: &[u8], i: usize) -> usize
    requires { i < length list.now / K.codec.width }
    ensures { result ≡ stride_from (K.good n) K.codec.none stride (list_of K.codec list.now) i }
{
    if stride_good::<K>(n, list, i) {
        return STRIDE;
    }
    good_at::<K>(n, list, i) as usize
}

/// The lowest bad record, or the count.
#[inline(always)]
pub fn first_bad<K: Kind>(n: usize, list: &[u8]) -> usize
    ensures { result ≡ first_bad (K.good n) (list_of K.codec list.now) }
{
    let count = kind::count::<K>(list);
    let mut i: usize = 0;
    // Stays: a loop that yields the place by `break`; the documents name it, and it goes on by strides.
    loop {
        if count <= i {
            break count;
        }
        let good = good_from::<K>(n, list, i);
        if good == 0 {
            break i;
        }
        i += good;
    }
}

/// Checking a list: refused where it is cut short, has too many records or a bad one, by the reasons of its kind; or the count of its records.
#[inline(always)]
pub fn check<K: Kind>(n: usize, list: &[u8]) -> Result<usize, Refusal>
    ensures { counted result ≡ checked K.codec (K.good n) (number_of K.CUT_SHORT) (number_of K.TOO_MANY) (number_of K.BAD) K.MOST list.now }
{
    if list.len() % K::WIDTH != 0 {
        return Err(K::CUT_SHORT.at(0));
    }
    let count = kind::count::<K>(list);
    if K::MOST < count {
        return Err(K::TOO_MANY.at(0));
    }
    let bad = first_bad::<K>(n, list);
    if bad != count {
        return Err(K::BAD.at(bad));
    }
    Ok(count)
}

/// Checking a list of at most `limit` variables: refused by number 1 where n is above it, and then as its kind's check.
#[inline(always)]
pub fn check_within<K: Kind>(limit: usize, n: usize, list: &[u8]) -> Result<usize, Refusal>
    ensures { counted result ≡ unless (leb n limit) 1 0 (checked K.codec (K.good n) (number_of K.CUT_SHORT) (number_of K.TOO_MANY) (number_of K.BAD) K.MOST list.now) }
{
    if limit < n {
        return Err(Reason::TooManyVariables.at(0));
    }
    check::<K>(n, list)
}

/// Every item of a list stored at its place of another, as a record of another kind.
#[inline(always)]
pub fn carry_all<From: Kind, To: Kind<Item = From::Item>>(list: &[u8], out: &mut [u8])
    requires room { To.codec.width * (length list.now / From.codec.width) ≤ length out.old }
    requires fits { All To.writable (list_of From.codec list.now) }
    ensures { out.new ≡ written To.codec 0 (list_of From.codec list.now) out.old }
{
    for i in 0..kind::count::<From>(list) {
        kind::put_item::<To>(out, i, kind::item_at::<From>(list, i));
    }
}
