//! The steps on lists of cubes, as what every kind of record shares asks for them.
ghost use Rattle.std.specs.Prelude.{refl};
ghost use Rattle.cube.specs.Cubes.{one, Good};
ghost use Rattle.cube.specs.Lists.{cubes, record_width, most_variables};
ghost use Rattle.cube.proofs.Codes.{good_more, one_good};
ghost use Rattle.cube.proofs.Lists.{lawful};
ghost use Rattle.steps.specs.Steps.{meaning, reordered, step};
ghost use Rattle.steps.specs.Calls.{Known};
ghost use Rattle.steps.specs.Letters.{cube_letter};

use crate::reorder::Masks;
use crate::{Change, Decides, StepRecord, decide, reorder};
use cube::{Cube, list};

/// The steps on lists of cubes.
#[derive(Clone, Copy, Debug, PartialEq, Eq)]
pub struct OnCubes;

impl Decides for OnCubes {
    type Item = Cube;

    ghost codec = { cubes };

    ghost Fine = { Good };

    ghost Sound = { Good };

    ghost Known = { Known };

    ghost step = { λ n cap x l. step n cap (meaning x) l };

    ghost moved = { reordered };

    ghost WIDTH = { record_width };

    ghost NONE = { one };

    const WIDTH: usize = list::RECORD_WIDTH;

    const NONE: Cube = Cube::ONE;

    #[inline(always)]
    fn record_at(list: &[u8], i: usize) -> Cube {
        list::record_at(list, i)
    }

    #[inline(always)]
    fn put_record(list: &mut [u8], i: usize, c: Cube) {
        list::put_record(list, i, c);
    }

    #[inline(always)]
    fn recode(masks: Masks, list: &mut [u8], i: usize) {
        reorder::recode(masks, list, i);
    }

    #[inline(always)]
    fn decide(n: usize, count: usize, cap: usize, x: StepRecord, a: Cube, b: Cube) -> Change<Cube> {
        decide::decide(n, count, cap, x, a, b)
    }

    ghost width_is = { refl };

    ghost none_is = { refl };

    ghost lawful = { lawful };

    ghost wider = { λ n few c good. good_more n most_variables c few good };

    ghost fine_sound = { λ n c good. good };

    ghost none_sound = { one_good };

    ghost letter = { cube_letter };
}
