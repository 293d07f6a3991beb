//! A change made to the records of the work buffer. Nothing else writes a drop, join, split or turn; what is known to be a drop or a join, `writer` does by the same functions.
ghost use Rattle.std.specs.Prelude.{◌≡◌, ◌/◌, ◌<◌, max, min, length};
ghost use Rattle.records.specs.Places.{remove_at};
ghost use Rattle.records.specs.Records.{Held, records, image};
ghost use Rattle.cube.specs.Cubes.{one};
ghost use Rattle.cube.specs.Lists.{cubes};
ghost use Rattle.steps.specs.Moves.{drop_at, join_at, applied};
ghost use Rattle.steps.specs.Effects.{TwoPlaces};
ghost use Rattle.steps.specs.Changes.{move_of, Placed, DoneBy};

use crate::{Change, Decides, OnCubes, StepRefusal};
use cube::Cube;

/// The smaller of two numbers.
// Stays: docs/CONTRACTS.md names it; one line over std's min.
pub fn smaller(i: usize, j: usize) -> usize
    ensures { result ≡ min i j }
{
    i.min(j)
}

/// The larger of two numbers.
// Stays: docs/CONTRACTS.md names it; one line over std's max.
pub fn larger(i: usize, j: usize) -> usize
    ensures { result ≡ max i j }
{
    i.max(j)
}

/// Place i of count removed: the last record copied there, and its own place cleared.
// Stays: buffer and count apart, here and below, with `Held` and `TwoPlaces` in each contract; docs/CONTRACTS.md names `drop_both`, `join_both`, `drop_places` and `join_places` so, and C lends the buffer.
#[inline(always)]
fn remove<K: Decides>(work: &mut [u8], count: usize, i: usize)
    requires held { Held K.codec count work.old }
    requires i_lt_count { i < count }
    ensures { work.new ≡ image K.codec (length work.old) (remove_at K.codec.none (records K.codec count work.old) i) }
{
    let last = count - 1;
    let record = K::record_at(work, last);
    K::put_record(work, i, record);
    K::put_record(work, last, K::NONE);
}

/// Both places removed, the greater one first: the count after it.
#[inline(always)]
pub fn drop_places<K: Decides>(work: &mut [u8], count: usize, i: usize, j: usize) -> usize
    requires held { Held K.codec count work.old }
    requires two_places { TwoPlaces count i j }
    ensures value { result ≡ length (drop_at K.codec.none (records K.codec count work.old) i j) }
    ensures work_after { work.new ≡ image K.codec (length work.old) (drop_at K.codec.none (records K.codec count work.old) i j) }
{
    let first = larger(i, j);
    let second = smaller(i, j);
    remove::<K>(work, count, first);
    remove::<K>(work, count - 1, second);
    count - 2
}

/// One record written at place i for two, and then j removed: the count after it.
#[inline(always)]
pub fn join_places<K: Decides>(
    work: &mut [u8],
    count: usize,
    i: usize,
    j: usize,
    joined: K::Item,
) -> usize
    requires held { Held K.codec count work.old }
    requires two_places { TwoPlaces count i j }
    ensures value { result ≡ length (join_at K.codec.none (records K.codec count work.old) i j joined) }
    ensures work_after { work.new ≡ image K.codec (length work.old) (join_at K.codec.none (records K.codec count work.old) i j joined) }
{
    K::put_record(work, i, joined);
    remove::<K>(work, count, j);
    count - 1
}

/// Both cubes removed, the one at the greater place first: the count after it.
pub fn drop_both(work: &mut [u8], count: usize, i: usize, j: usize) -> usize
    requires held { Held cubes count work.old }
    requires two_places { TwoPlaces count i j }
    ensures value { result ≡ length (drop_at one (records cubes count work.old) i j) }
    ensures work_after { work.new ≡ image cubes (length work.old) (drop_at one (records cubes count work.old) i j) }
{
    drop_places::<OnCubes>(work, count, i, j)
}

/// The third written at place i, and then j removed: the count after it.
pub fn join_both(work: &mut [u8], count: usize, i: usize, j: usize, third: Cube) -> usize
    requires held { Held cubes count work.old }
    requires two_places { TwoPlaces count i j }
    ensures value { result ≡ length (join_at one (records cubes count work.old) i j third) }
    ensures work_after { work.new ≡ image cubes (length work.old) (join_at one (records cubes count work.old) i j third) }
{
    join_places::<OnCubes>(work, count, i, j, third)
}

/// The change made to the count records, at places i and j.
#[inline(always)]
pub(crate) fn perform<K: Decides>(
    work: &mut [u8],
    count: usize,
    i: usize,
    j: usize,
    change: Change<K::Item>,
) -> Result<usize, StepRefusal>
    requires held { Held K.codec count work.old }
    requires placed { Placed count (length work.old / K.codec.width) i j (move_of change) }
    ensures { DoneBy K.codec work.old work.new (applied K.codec.none i j (records K.codec count work.old) (move_of change)) result }
{
    match change {
        Change::Refuse(why) => Err(why),
        Change::Drop => Ok(drop_places::<K>(work, count, i, j)),
        Change::Join(c) => Ok(join_places::<K>(work, count, i, j, c)),
        Change::Split(c, d) => {
            K::put_record(work, i, c);
            K::put_record(work, count, d);
            Ok(count + 1)
        }
        Change::Turn(c, d) => {
            K::put_record(work, i, c);
            K::put_record(work, j, d);
            Ok(count)
        }
    }
}
