//! The steps on lists of shared products, as what every kind of record shares asks for them.
ghost use Rattle.std.specs.Prelude.{refl};
ghost use Rattle.cube.specs.Cubes.{Good};
ghost use Rattle.cube.proofs.Codes.{one_good};
ghost use Rattle.shared.specs.SharedRecord.{shares, shared_width, no_shared, Fine};
ghost use Rattle.shared.proofs.SharedRecord.{shared_lawful};
ghost use Rattle.steps.specs.Steps.{reordered};
ghost use Rattle.shared_steps.specs.SharedSteps.{on_cube, shared_meaning, shared_step};
ghost use Rattle.shared_steps.specs.Calls.{SharedKnown};
ghost use Rattle.shared_steps.specs.Letters.{fine_more, shared_letter};

use crate::decide;
use shared::{Shared, list};
use steps::reorder::{Masks, recoded};
use steps::{Change, Decides, StepRecord};

/// The steps on lists of shared products.
#[derive(Clone, Copy, Debug, PartialEq, Eq)]
pub struct OnProducts;

impl Decides for OnProducts {
    type Item = Shared;

    ghost codec = { shares };

    ghost Fine = { Fine };

    ghost Sound = { λ n s. Good n s.cube };

    ghost Known = { SharedKnown };

    ghost step = { λ n cap x l. shared_step n cap (shared_meaning x) l };

    ghost moved = { λ v o s. on_cube (reordered v o) s };

    ghost WIDTH = { shared_width };

    ghost NONE = { no_shared };

    const WIDTH: usize = list::SHARED_WIDTH;

    const NONE: Shared = Shared::NONE;

    #[inline(always)]
    fn record_at(list: &[u8], i: usize) -> Shared {
        list::record_at(list, i)
    }

    #[inline(always)]
    fn put_record(list: &mut [u8], i: usize, s: Shared) {
        list::put_record(list, i, s);
    }

    #[inline(always)]
    fn recode(masks: Masks, list: &mut [u8], i: usize) {
        let s = list::record_at(list, i);
        let moved = Shared {
            cube: recoded(masks, s.cube),
            outputs: s.outputs,
        };
        list::put_record(list, i, moved);
    }

    #[inline(always)]
    fn decide(
        n: usize,
        count: usize,
        cap: usize,
        x: StepRecord,
        a: Shared,
        b: Shared,
    ) -> Change<Shared> {
        decide::decide_shared(n, count, cap, x, a, b)
    }

    ghost width_is = { refl };

    ghost none_is = { refl };

    ghost lawful = { shared_lawful };

    ghost wider = { fine_more };

    ghost fine_sound = { λ n s fine. fine.good };

    ghost none_sound = { one_good };

    ghost letter = { shared_letter };
}
