//! Lists of shared products, for a script to run on.
ghost use Rattle.std.specs.Prelude.{refl};
ghost use Rattle.cube.proofs.Codes.{good_more};
ghost use Rattle.shared.specs.SharedRecord.{sharing, shares, fine};
ghost use Rattle.shared.specs.Calls.{check_shared};
ghost use Rattle.shared.proofs.SharedRecord.{shared_lawful, shared_bytes, fine_parts, parts_fine};
ghost use Rattle.shared_steps.specs.SharedSteps.{shared_meaning, shared_step, on_cube};
ghost use Rattle.shared_run.specs.SharedScripts.{shared_fits};
ghost use Rattle.shared_run.specs.Listed.{shared_listed};

use crate::check;
use records::Refusal;
use script::Runnable;
use shared::{Shared, list};
use steps::{StepRecord, StepRefusal};

/// Lists of shared products.
#[derive(Clone, Copy)]
pub struct Products;

impl Runnable for Products {
    type Item = Shared;

    ghost codec = { shares };

    ghost fine = { fine };

    ghost fits = { shared_fits };

    ghost step = { λ n cap x l. shared_step n cap (shared_meaning x) l };

    ghost on_cube = { on_cube };

    ghost check = { check_shared };

    ghost WIDTH = { 12 };

    const WIDTH: usize = list::SHARED_WIDTH;

    fn check(n: usize, list: &[u8]) -> Result<usize, Refusal> {
        list::check(n, list)
    }

    fn capacity(room: usize) -> usize {
        list::capacity(room)
    }

    #[inline(always)]
    fn fits(n: usize, x: StepRecord) -> bool {
        check::fits(n, x)
    }

    #[inline(always)]
    fn do_step(
        work: &mut [u8],
        n: usize,
        count: usize,
        cap: usize,
        x: StepRecord,
    ) -> Result<usize, StepRefusal> {
        shared_steps::step::do_step(work, n, count, cap, x)
    }

    #[inline(always)]
    fn reorder(work: &mut [u8], count: usize, v: u8, o: u8) {
        shared_steps::reorder::reorder(work, count, v, o)
    }

    ghost lawful = { shared_lawful };

    ghost width_is = { refl };

    ghost accepted_is = { shared_listed };

    ghost whole_is = { shared_bytes };

    ghost fine_more = { λ n m h r g. let p = fine_parts n r g in parts_fine m r (record { good = good_more n m r.cube h p.good; some = p.some }) };

    ghost on_fine = { λ f n h r g. let p = fine_parts n r g in parts_fine n (on_cube f r) (record { good = h r.cube p.good; some = p.some }) };

    ghost on_same = { λ f n h r g i. sharing r.outputs (h r.cube (fine_parts n r g).good i) };

    ghost on_twice = { λ f h r i. on_cube f (on_cube h r) };
}
