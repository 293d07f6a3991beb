//! Settling a map.
ghost use Rattle.std.specs.Prelude.{◌≡◌, length};
ghost use Rattle.cube.specs.Lists.{cubes_of};
ghost use Rattle.settling.specs.Choice.{Burns, BurningIs};
ghost use Rattle.settling.specs.Calls.{settled, settle_outcome, settle_work, settle_out};

use crate::{Burning, Settlement, burn, candidates};
use records::{Reason, Refusal};
use script::Peaked;

/// The best candidate, to the front of the output.
fn burn_best(n: usize, list: &[u8], res: &[u8], out: &mut [u8]) -> Burning
    requires { Burns n list.now res.now (length out.old) }
    ensures { BurningIs n (cubes_of res.now) (cubes_of list.now) out.old out.new result }
{
    let best = candidates::best_form(n, list);
    let c = candidates::choose(n, list, res, best);
    let origin = c.origin;
    let burned = burn::burn(n, list, res, best, origin, out);
    let fixed = best.fixed;
    Burning { fixed, burned }
}

/// Settles a map: the refusals of run, where 5 tests work and then output; or the counts, with the list to burn in the output.
// Stays: beside it stands the settle of shared products with the same tests; but what is compared, burned and answered is its own in each, and a trait for that is longer than what it saves.
pub fn settle(
    n: usize,
    list: &[u8],
    script: &[u8],
    work: &mut [u8],
    out: &mut [u8],
) -> Result<Settlement, Refusal>
    ensures result_value { settled result ≡ settle_outcome n list.now script.now (length work.old) (length out.old) }
    ensures work_after { work.new ≡ settle_work n list.now script.now work.old (length out.old) }
    ensures out_after { out.new ≡ settle_out n list.now script.now (length work.old) out.old }
{
    let given = cube::list::check(n, list)?;
    if cube::list::capacity(work.len()) < given {
        return Err(Reason::NoRoom.at(0));
    }
    if cube::list::capacity(out.len()) < given {
        return Err(Reason::NoRoom.at(0));
    }
    let Peaked { count, peak } = script::run::run_checked(n, list, script, work)?;
    let end = cube::list::RECORD_WIDTH * count;
    let b = burn_best(n, list, &work[..end], out);
    records::clear(work);
    let fixed = b.fixed;
    Ok(Settlement {
        given,
        peak,
        script: count,
        fixed,
        burned: b.burned,
    })
}
