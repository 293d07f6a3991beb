//! Running a script on shared products: the run of any kind of record, for records of 12 bytes.
ghost use Rattle.std.specs.Prelude.{◌≡◌, ◌≤◌, length};
ghost use Rattle.records.specs.Answers.{Accepts};
ghost use Rattle.script.specs.Calls.{finished};
ghost use Rattle.shared.specs.SharedRecord.{shares_of, shared_capacity};
ghost use Rattle.shared.specs.Calls.{check_shared};
ghost use Rattle.shared_run.specs.Calls.{shared_run_outcome, shared_run_after};

use crate::Products;
use records::Refusal;
use script::Peaked;

/// The run of a checked list that the work buffer has room for: refusals 7, 8 and 9, then 10, 11, 16 to 19, 22, 23 and 13 at a step; or the count and the peak.
pub(crate) fn run_checked(
    n: usize,
    list: &[u8],
    script: &[u8],
    work: &mut [u8],
) -> Result<Peaked, Refusal>
    requires accepts { Accepts (check_shared n list.now) }
    requires list_len_bound { length (shares_of list.now) ≤ shared_capacity (length work.old) }
    ensures result_value { finished result ≡ shared_run_outcome n list.now script.now (length work.old) }
    ensures work_after { work.new ≡ shared_run_after n list.now script.now work.old }
{
    script::run::run_checked_on::<Products>(n, list, script, work)
}

/// Runs a script on a list of shared products: refusals 1 to 5, 7, 8, 9 before anything is written, then 10, 11, 16 to 19, 22, 23 and 13 at a step; or the count and
/// the peak.
pub fn run(n: usize, list: &[u8], script: &[u8], work: &mut [u8]) -> Result<Peaked, Refusal>
    ensures result_value { finished result ≡ shared_run_outcome n list.now script.now (length work.old) }
    ensures work_after { work.new ≡ shared_run_after n list.now script.now work.old }
{
    script::run::run_on::<Products>(n, list, script, work)
}
