//! The first pair of a list, found without looking at every pair again.
ghost use Rattle.std.specs.Prelude.{◌≡◌, not, ◌+◌, ◌/◌, ◌<◌, ◌≤◌, length};
ghost use Rattle.bits.specs.Below.{NoneTo, FirstIn};
ghost use Rattle.records.specs.Records.{records};
ghost use Rattle.records.specs.Strides.{pass_from};
ghost use Rattle.cube.specs.Cubes.{one};
ghost use Rattle.cube.specs.Checking.{stride};
ghost use Rattle.cube.specs.Lists.{record_width, cubes, cubes_of};
ghost use Rattle.steps.specs.Calls.{Ready};
ghost use Rattle.writer.specs.Pairs.{pair_at};
ghost use Rattle.writer.specs.Watching.{near, near_at, looked, Watched, Found};

use crate::Pair;
use cube::{Cube, list};

/// Whether the cube at a place that the list has and c are equal or differ in one variable.
fn near_at(list: &[u8], i: usize, c: Cube) -> bool
    requires { i < length list.now / record_width }
    ensures { result ≡ near_at c (cubes_of list.now) i }
{
    list::differing_at(list, i, c).count_ones() < 2
}

/// Whether none of a stride of cubes, from place i on, is near c. There is no branch between them.
fn stride_far(list: &[u8], i: usize, c: Cube) -> bool
    requires { i + stride ≤ length list.now / record_width }
    ensures { result ≡ pass_from (λ d. not (near c d)) one stride (cubes_of list.now) i }
{
    let mut far = true;
    for k in 0..list::STRIDE {
        far = far & !near_at(list, i + k, c);
    }
    far
}

/// A place up to which no cube, from place `from` on, is near c: by strides, as long as whole ones are left.
// Stays: a loop that goes on by a stride; what it yields is where the rest begins, which `step_by` does not tell.
fn far_to(list: &[u8], from: usize, end: usize, c: Cube) -> usize
    requires { (from ≤ end) × (end ≤ length list.now / record_width) }
    ensures { NoneTo (near_at c (cubes_of list.now)) from end result }
{
    let mut i = from;
    while list::STRIDE <= end - i {
        if !stride_far(list, i, c) {
            return i;
        }
        i += list::STRIDE;
    }
    i
}

/// The lowest place from `from` on whose cube is near c, or the end.
// Stays: the end for none, here and in `below` and `look`; `FirstIn` has it so, and what follows compares a place with it.
fn near_from(list: &[u8], from: usize, end: usize, c: Cube) -> usize
    requires { (from ≤ end) × (end ≤ length list.now / record_width) }
    ensures { FirstIn (near_at c (cubes_of list.now)) from end result }
{
    for i in far_to(list, from, end, c)..end {
        if near_at(list, i, c) {
            return i;
        }
    }
    end
}

/// The lowest place below row that makes a pair with it, or row.
// Stays: buffer and count apart, here and below, with `Ready` in each contract; C lends the buffer, and docs/CONTRACTS.md (Exceptions) names these functions by what they ask.
fn below(work: &[u8], n: usize, count: usize, row: usize) -> usize
    requires ready { Ready n count count work.now }
    requires row_lt_count { row < count }
    ensures { FirstIn (λ k. pair_at n (records cubes count work.now) k row) 0 row result }
{
    near_from(work, 0, row, list::record_at(work, row))
}

/// The lowest place above an unmarked row that makes a pair with it, or the count; the count where the row is marked.
// Stays: a mark is a number, 0 or 1, as `looked` and `Watched` (specs/Watching.antt) speak of it.
fn look(work: &[u8], n: usize, count: usize, i: usize, mark: u8) -> usize
    requires ready { Ready n count count work.now }
    requires i_lt_count { i < count }
    ensures { result ≡ looked mark n (records cubes count work.now) i }
{
    if mark != 0 {
        return count;
    }
    near_from(work, i + 1, count, list::record_at(work, i))
}

/// The first pair from row on, with a mark for each row that was looked at and has none.
fn scan(work: &[u8], n: usize, count: usize, row: usize, marks: &mut [u8]) -> Option<Pair>
    requires ready { Ready n count count work.now }
    requires count_in_bounds { count ≤ length marks.old }
    requires watched { Watched n (records cubes count work.now) row count marks.old }
    ensures { Found n (records cubes count work.now) marks.new result }
{
    for i in row..count {
        let j = look(work, n, count, i, marks[i]);
        if j < count {
            return Some(Pair { i, j });
        }
        marks[i] = 1;
    }
    None
}

/// The first pair: one with the new cube at row, or the first from row on.
pub(crate) fn find(
    work: &[u8],
    n: usize,
    count: usize,
    row: usize,
    marks: &mut [u8],
) -> Option<Pair>
    requires ready { Ready n count count work.now }
    requires count_in_bounds { count ≤ length marks.old }
    requires watched { Watched n (records cubes count work.now) row row marks.old }
    ensures { Found n (records cubes count work.now) marks.new result }
{
    if count <= row {
        return scan(work, n, count, row, marks);
    }
    let k = below(work, n, count, row);
    if k < row {
        return Some(Pair { i: k, j: row });
    }
    scan(work, n, count, row, marks)
}
