//! The steps that are left, in one pass: a stack of the numbers of the steps that are kept so far. A step that undoes the last of them takes it off, and is not
//! kept itself.

ghost use Rattle.std.specs.Prelude.{◌≡◌, true, ◌/◌, ◌-◌, ◌<◌, ◌≤◌, length, get_or};
ghost use Rattle.cube.specs.Lists.{most_records};
ghost use Rattle.script.specs.Scripts.{step_width, most_steps, steps_of};
ghost use Rattle.compactor.specs.Keeping.{most_count, taken_off, top_after, kept_after, Faithful, StepsKept};

use crate::{Halves, bytes, pair};
use script::record::STEP_WIDTH;

/// Whether x undoes the last of the top steps that are kept, after which there are so many records.
fn takes_off(script: &[u8], kept: &[u16], top: usize, count: usize, x: Halves) -> bool
    requires top_in_bounds { (top ≤ length kept.now) × (count ≤ most_count) }
    requires top_in_bounds_2 { 0 < top → get_or kept.now (top - 1) 0 < length script.now / step_width }
    ensures { result ≡ taken_off script.now kept.now top count x }
{
    if top == 0 {
        return false;
    }
    let last = usize::from(kept[top - 1]);
    pair::is_pair(count.saturating_sub(1), bytes::halves_at(script, last), x)
}

/// The last one taken off, or step k put on: how many are kept then.
fn keep(kept: &mut [u16], top: usize, k: usize, off: bool) -> usize
    requires { (top < length kept.old) × (k < most_steps) × (off ≡ true → 0 < top) }
    ensures value { result ≡ top_after off top }
    ensures kept_after { kept.new ≡ kept_after off kept.old top k }
{
    if off {
        return top - 1;
    }
    kept[top] = k as u16;
    top + 1
}

/// The numbers of the steps that are left, at the front of kept: how many.
pub(crate) fn keep_steps(script: &[u8], first: usize, kept: &mut [u16]) -> usize
    requires faithful { Faithful script.now }
    requires script_len_bound { (length (steps_of script.now) ≤ most_steps) × (length (steps_of script.now) ≤ length kept.old) × (first ≤ most_records) }
    ensures { StepsKept first (steps_of script.now) kept.new result }
{
    let steps = script.len() / STEP_WIDTH;
    let mut top = 0;
    let mut count = first;
    for k in 0..steps {
        let x = bytes::halves_at(script, k);
        let off = takes_off(script, kept, top, count, x);
        top = keep(kept, top, k, off);
        count = pair::count_after(count, x);
    }
    top
}
