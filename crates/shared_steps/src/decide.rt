//! Decisions on shared products, on values alone: the cubes' own and the test of the outputs; and the merge.
ghost use Rattle.std.specs.Prelude.{◌≡◌, ◌≤◌};
ghost use Rattle.cube.specs.Cubes.{Good};
ghost use Rattle.cube.specs.Lists.{most_variables};
ghost use Rattle.steps.specs.Moves.{map_move};
ghost use Rattle.steps.specs.Changes.{move_of};
ghost use Rattle.shared.specs.SharedRecord.{sharing};
ghost use Rattle.shared_steps.specs.SharedSteps.{alike, merge_move, shared_meaning, shared_decision};
ghost use Rattle.shared_steps.specs.Calls.{SharedKnown};

use crate::SharedStep;
use cube::Cube;
use records::Reason;
use shared::Shared;
use steps::decide::{self, misplaced, refuse};
use steps::{Change, Step, StepRecord};

/// A change of cubes, with these outputs for all that it writes.
#[inline(always)]
fn carried(change: Change<Cube>, outputs: u32) -> Change<Shared>
    ensures { move_of result ≡ map_move (sharing outputs) (move_of change) }
{
    match change {
        Change::Refuse(why) => Change::Refuse(why),
        Change::Drop => Change::Drop,
        Change::Join(cube) => Change::Join(Shared { cube, outputs }),
        Change::Split(c, d) => {
            Change::Split(Shared { cube: c, outputs }, Shared { cube: d, outputs })
        }
        Change::Turn(c, d) => {
            Change::Turn(Shared { cube: c, outputs }, Shared { cube: d, outputs })
        }
    }
}

/// Drop, join and turn: the cubes' own change where the outputs are equal; else its own refusal, or 22.
#[inline(always)]
fn of_alike(a: Shared, b: Shared, change: Change<Cube>) -> Change<Shared>
    ensures { move_of result ≡ alike a b (move_of change) }
{
    if a.outputs == b.outputs {
        return carried(change, a.outputs);
    }
    match change {
        Change::Refuse(why) => Change::Refuse(why),
        _ => refuse(Reason::OutputsDiffer),
    }
}

/// Merge: 10, 11; 23 unless the cubes are equal and the outputs are not.
#[inline(always)]
fn decide_merge(n: usize, count: usize, i: usize, j: usize, a: Shared, b: Shared) -> Change<Shared>
    requires { Good n a.cube × Good n b.cube }
    ensures { move_of result ≡ merge_move n count i j a b }
{
    if let Some(reason) = misplaced(count, i, j) {
        return refuse(reason);
    }
    if a.cube.differing(b.cube) != 0 {
        return refuse(Reason::NotMergeable);
    }
    if a.outputs == b.outputs {
        return refuse(Reason::NotMergeable);
    }
    Change::Join(Shared {
        cube: a.cube,
        outputs: a.outputs ^ b.outputs,
    })
}

/// What a drop, join, split, turn or merge does, from the products at its places.
#[inline(always)]
pub(crate) fn decide_shared(
    n: usize,
    count: usize,
    cap: usize,
    x: StepRecord,
    a: Shared,
    b: Shared,
) -> Change<Shared>
    requires good { Good n a.cube × Good n b.cube }
    requires n_le_most_variables { n ≤ most_variables }
    requires shared_known { SharedKnown n x }
    requires fact { x.op ≡ 5 → ⊥ }
    ensures { move_of result ≡ shared_decision n count cap (shared_meaning x) a b }
{
    let step = match SharedStep::from(x) {
        SharedStep::Merge { i, j } => return decide_merge(n, count, i, j, a, b),
        SharedStep::Plain(step) => step,
    };
    let change = decide::decide(n, count, cap, x, a.cube, b.cube);
    match step {
        Step::Split { .. } => carried(change, a.outputs),
        _ => of_alike(a, b, change),
    }
}
