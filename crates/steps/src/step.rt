//! One step on the work buffer.
ghost use Rattle.std.specs.Prelude.{◌≡◌, get_or};
ghost use Rattle.records.specs.Records.{Held, records};
ghost use Rattle.cube.specs.Lists.{cubes};
ghost use Rattle.steps.specs.Steps.{meaning, step};
ghost use Rattle.steps.specs.Calls.{Ready, ReadyBy, Known, stepped, work_stepped};
ghost use Rattle.steps.specs.Changes.{DoneBy};

use crate::{Decides, OnCubes, StepRecord, StepRefusal, perform, reorder};

/// The record at place i of count, or the one whose bytes are all zero past the end.
#[inline(always)]
fn look<K: Decides>(work: &[u8], count: usize, i: usize) -> K::Item
    requires { Held K.codec count work.now }
    ensures { result ≡ get_or (records K.codec count work.now) i K.codec.none }
{
    if count <= i {
        return K::NONE;
    }
    K::record_at(work, i)
}

/// One step on the count records of the work buffer, which has room for cap of them.
#[inline(always)]
pub fn step_on<K: Decides>(
    work: &mut [u8],
    n: usize,
    count: usize,
    cap: usize,
    x: StepRecord,
) -> Result<usize, StepRefusal>
    requires ready { ReadyBy K.codec (K.Fine n) n count cap work.old }
    requires known { K.Known n x }
    ensures { DoneBy K.codec work.old work.new (K.step n cap x (records K.codec count work.old)) result }
{
    if x.is_letter() {
        reorder::reorder_on::<K>(work, count, x.v, orders::letter_order(x.literal));
        return Ok(count);
    }
    let a = look::<K>(work, count, x.i);
    let b = look::<K>(work, count, x.j);
    let change = K::decide(n, count, cap, x, a, b);
    perform::perform::<K>(work, count, x.i, x.j, change)
}

/// One step on the count cubes of the work buffer, which has room for cap of them.
#[inline(always)]
pub fn do_step(
    work: &mut [u8],
    n: usize,
    count: usize,
    cap: usize,
    x: StepRecord,
) -> Result<usize, StepRefusal>
    requires ready { Ready n count cap work.old }
    requires known { Known n x }
    ensures value { result ≡ stepped (step n cap (meaning x) (records cubes count work.old)) }
    ensures work_after { work.new ≡ work_stepped work.old (step n cap (meaning x) (records cubes count work.old)) }
{
    step_on::<OnCubes>(work, n, count, cap, x)
}
