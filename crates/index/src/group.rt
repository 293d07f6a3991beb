//! The group of a number in a lent index: whether the index is the list's, and the part that holds the group.
ghost use Rattle.std.specs.Prelude.{◌≡◌, cond, ◌+◌, ◌*◌, ◌/◌, ◌≤◌, ◌<◌, min, length};
ghost use Rattle.records.specs.Records.{records};
ghost use Rattle.records.specs.Places.{place_width, places};
ghost use Rattle.records.specs.Answers.{counted};
ghost use Rattle.cube.specs.Lists.{record_width, most_records, cubes_of};
ghost use Rattle.index.specs.Index.{group_count, literals_at, index_of};
ghost use Rattle.index.specs.Counting.{Started, next_start};
ghost use Rattle.index.specs.Calls.{first_apart, own_outcome, group_outcome, part_of, group_part};

use crate::GROUPS;
use crate::count::{literals_at, starts_of};
use records::place::{PLACE_WIDTH, place_at};
use records::{Reason, Refusal};

/// The lowest wrong entry so far, with the entry e, which is right or wrong.
fn lowest_wrong(bad: usize, e: usize, right: bool) -> usize
    ensures { result ≡ cond right bad (min bad e) }
{
    if right {
        return bad;
    }
    bad.min(e)
}

/// The first wrong entry of an index, or the count. Each place is looked for at its entry, so that one pass over the list is enough.
// Stays: the count for none, and 33 in `wrong_start`: both are `first_apart`, which has the number that is looked through.
fn wrong_entry(list: &[u8], count: usize, s: [u64; GROUPS], index: &[u8]) -> usize
    requires count_in_bounds { (count ≤ length list.now / record_width) × (count ≤ most_records) }
    requires started { Started (literals_at (cubes_of list.now)) count s }
    requires count_in_bounds_2 { place_width * count ≤ length index.now }
    ensures { result ≡ first_apart count (records places count index.now) (index_of (literals_at (cubes_of list.now)) count) }
{
    let mut next = s;
    let mut bad = count;
    for p in 0..count {
        let m = literals_at(list, p);
        let e = next[m];
        let right = place_at(index, e as usize) as usize == p;
        bad = lowest_wrong(bad, e as usize, right);
        next[m] = e + 1;
    }
    bad
}

/// The first group whose start is wrong, or 33.
fn wrong_start(starts: [u64; GROUPS], right: [u64; GROUPS]) -> usize
    ensures { result ≡ first_apart group_count starts right }
{
    for m in 0..GROUPS {
        if starts[m] != right[m] {
            return m;
        }
    }
    GROUPS
}

/// Where the group after m starts.
fn next_start(starts: [u64; GROUPS], count: usize, m: usize) -> usize
    requires { m < group_count }
    ensures { result ≡ next_start starts count m }
{
    if 32 <= m {
        return count;
    }
    starts[m + 1] as usize
}

/// The group of a number in an index that has room for a checked list's: refusals 25 and 21, or how many entries it has.
fn own_group(
    list: &[u8],
    count: usize,
    index: &[u8],
    starts: [u64; GROUPS],
    number: usize,
) -> Result<usize, Refusal>
    requires count_value { (count ≡ length list.now / record_width) × (count ≤ most_records) }
    requires count_in_bounds { place_width * count ≤ length index.now }
    ensures { counted result ≡ own_outcome (cubes_of list.now) index.now starts number }
{
    let right = starts_of(list, count);
    let bad = wrong_entry(list, count, right, index);
    if bad != count {
        return Err(Reason::OtherIndex.at(bad));
    }
    let off = wrong_start(starts, right);
    if off != GROUPS {
        return Err(Reason::OtherIndex.at(off));
    }
    if GROUPS <= number {
        return Err(Reason::NoSuchOutput.at(0));
    }
    let end = next_start(right, count, number);
    Ok(end - right[number] as usize)
}

/// The group of a number: refusals 1 to 4, 5, 25 and 21, or how many entries it has.
pub fn group_count(
    n: usize,
    list: &[u8],
    index: &[u8],
    starts: [u64; GROUPS],
    number: usize,
) -> Result<usize, Refusal>
    ensures { counted result ≡ group_outcome n list.now index.now starts number }
{
    let count = cube::list::check(n, list)?;
    if index.len() < PLACE_WIDTH * count {
        return Err(Reason::NoRoom.at(0));
    }
    own_group(list, count, index, starts, number)
}

/// So many entries of an index, from one on.
fn part<'a>(index: &'a [u8], from: usize, size: usize) -> &'a [u8]
    requires { place_width * (from + size) ≤ length index.now }
    ensures { result.now ≡ part_of index.now from size }
{
    &index[PLACE_WIDTH * from..PLACE_WIDTH * (from + size)]
}

/// The part of the lent index that holds the places of the cubes with so many literals, from the group's start to the next; an empty part where the
/// call is refused, and then `group_count` says why.
pub fn group<'a>(
    n: usize,
    list: &[u8],
    index: &'a [u8],
    starts: [u64; GROUPS],
    number: usize,
) -> &'a [u8]
    ensures { result.now ≡ group_part n list.now index.now starts number }
{
    match group_count(n, list, index, starts, number) {
        Err(_) => part(index, 0, 0),
        Ok(size) => part(index, starts[number] as usize, size),
    }
}
