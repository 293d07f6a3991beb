//! Settling a list of shared products: the script's result or the given list, whichever has fewer products.
ghost use Rattle.std.specs.Prelude.{◌≡◌, ◌%◌, ◌≤◌, length};
ghost use Rattle.records.specs.Records.{image};
ghost use Rattle.shared.specs.SharedRecord.{shares, shares_of, shared_width};
ghost use Rattle.shared_run.specs.SharedRun.{shared_burned};
ghost use Rattle.shared_run.specs.Calls.{shared_settled, shared_settle_outcome, shared_settle_work, shared_settle_out};

use crate::{SharedSettlement, run};
use records::{Reason, Refusal};
use script::Peaked;
use shared::list;

/// The script's result or the given list, whichever has fewer products and of equal ones the result, to the front of the output: its count.
fn burn(list: &[u8], res: &[u8], out: &mut [u8]) -> usize
    requires shared_width_len { (length list.now % shared_width ≡ 0) × (length res.now % shared_width ≡ 0) }
    requires list_in_bounds { length list.now ≤ length out.old }
    ensures value { result ≡ length (shared_burned (shares_of res.now) (shares_of list.now)) }
    ensures out_after { out.new ≡ image shares (length out.old) (shared_burned (shares_of res.now) (shares_of list.now)) }
{
    let given = list.len() / list::SHARED_WIDTH;
    let count = res.len() / list::SHARED_WIDTH;
    if given < count {
        records::fill(out, list);
        return given;
    }
    records::fill(out, res);
    count
}

/// Settles a list of shared products: the refusals of run, where 5 tests work and then output; or the counts, with the list to burn in the output.
// Stays: beside it stands the settle of cubes with the same tests; but what is compared, burned and answered is its own in each, and a trait for that is longer than what it saves.
pub fn settle(
    n: usize,
    list: &[u8],
    script: &[u8],
    work: &mut [u8],
    out: &mut [u8],
) -> Result<SharedSettlement, Refusal>
    ensures result_value { shared_settled result ≡ shared_settle_outcome n list.now script.now (length work.old) (length out.old) }
    ensures work_after { work.new ≡ shared_settle_work n list.now script.now work.old (length out.old) }
    ensures out_after { out.new ≡ shared_settle_out n list.now script.now (length work.old) out.old }
{
    let given = list::check(n, list)?;
    if list::capacity(work.len()) < given {
        return Err(Reason::NoRoom.at(0));
    }
    if list::capacity(out.len()) < given {
        return Err(Reason::NoRoom.at(0));
    }
    let Peaked { count, peak } = run::run_checked(n, list, script, work)?;
    let end = list::SHARED_WIDTH * count;
    let burned = burn(list, &work[..end], out);
    records::clear(work);
    Ok(SharedSettlement {
        given,
        peak,
        script: count,
        burned,
    })
}
