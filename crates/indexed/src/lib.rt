//! Running a script with an index by number of literals kept up beside the work list.
#![tactic(auto)]

ghost use Rattle.std.specs.Prelude.{◌≡◌, true, ◌*◌, ◌≤◌, length};
ghost use Rattle.records.specs.Places.{place_width};
ghost use Rattle.records.specs.Answers.{Accepts, counted};
ghost use Rattle.cube.specs.Lists.{cube_capacity};
ghost use Rattle.script.specs.Calls.{check_run, finished};
ghost use Rattle.indexed.specs.Calls.{check_indexed, indexed_outcome, indexed_work, indexed_index, indexed_starts, begun};
ghost use Rattle.indexed.specs.Keeping.{IndexKept, AnsweredIndexed};

use index::GROUPS;
use index::build::rebuild;
use records::place::PLACE_WIDTH;
use records::{Reason, Refusal};
use script::{Cubes, Ended, Peaked, Watch, WorkList, check};

/// No start of any group.
const NO_STARTS: [u64; GROUPS] = [0; GROUPS];

// Stays: `begun` and `starts` are promised by value on a refusal too (the contract of `run_indexed`).
/// What a run with an index answers: whether it came to the steps, since a refusal before the first one has written nothing; what run answers; and the start
/// of each group at the end, each 0 where the run is refused.
#[derive(Clone, Copy, Debug, PartialEq, Eq)]
pub struct IndexedRun {
    pub begun: bool,
    pub answer: Result<Peaked, Refusal>,
    pub starts: [u64; GROUPS],
}

/// An index by number of literals, beside a list of cubes.
#[derive(Clone, Copy)]
struct Indexing;

impl Watch<Cubes> for Indexing {
    ghost keeps = { IndexKept };

    #[inline(always)]
    fn after_step(work: &[u8], _cap: usize, before: usize, count: usize, beside: &mut [u8]) {
        let _starts = rebuild(work, count, before, beside);
    }
}

/// Refusals 1 to 5, 5 for the index, 7, 8 and 9; or the number of the script's steps.
fn check_indexed(
    n: usize,
    list: &[u8],
    script: &[u8],
    room: usize,
    index_room: usize,
) -> Result<usize, Refusal>
    ensures { counted result ≡ check_indexed n list.now script.now room index_room }
{
    let count = cube::list::check(n, list)?;
    let cap = cube::list::capacity(room);
    if cap < count {
        return Err(Reason::NoRoom.at(0));
    }
    if index_room / PLACE_WIDTH < cap {
        return Err(Reason::NoRoom.at(0));
    }
    check::check_script(n, script)
}

/// The run of an accepted list and script.
fn run_accepted(
    n: usize,
    list: &[u8],
    script: &[u8],
    work: &mut [u8],
    index: &mut [u8],
) -> IndexedRun
    requires accepts { Accepts (check_run n list.now script.now (length work.old)) }
    requires work_in_bounds { place_width * cube_capacity (length work.old) ≤ length index.old }
    ensures answered_indexed { AnsweredIndexed n list.now script.now work.old index.old work.new index.new result.answer result.starts }
    ensures begun_value { result.begun ≡ true }
{
    let first = list.len() / cube::list::RECORD_WIDTH;
    let cap = cube::list::capacity(work.len());
    records::fill(work, list);
    records::clear(index);
    let _first_starts = rebuild(work, first, 0, index);
    let mut cubes = WorkList::<Cubes>::of(work, n, first, cap);
    match cubes.run_steps::<Indexing>(script, index) {
        Err(r) => IndexedRun {
            begun: true,
            answer: Err(r),
            starts: NO_STARTS,
        },
        Ok(ended) => {
            let Ended { count, peak, .. } = ended;
            let pending = ended.pending;
            cubes.undo(n, pending);
            let starts = rebuild(work, count, count, index);
            IndexedRun {
                begun: true,
                answer: Ok(Peaked { count, peak }),
                starts,
            }
        }
    }
}

/// Runs a script on a list and keeps an index for the work list: what run answers, and 5 too for an index buffer that is shorter than 2 bytes a record of
/// the work buffer's capacity; and the starts at the end.
pub fn run_indexed(
    n: usize,
    list: &[u8],
    script: &[u8],
    work: &mut [u8],
    index: &mut [u8],
) -> IndexedRun
    ensures begun_value { result.begun ≡ begun n list.now script.now (length work.old) (length index.old) }
    ensures answer_value { finished result.answer ≡ indexed_outcome n list.now script.now (length work.old) (length index.old) }
    ensures starts_value { result.starts ≡ indexed_starts n list.now script.now (length work.old) (length index.old) }
    ensures work_after { work.new ≡ indexed_work n list.now script.now work.old (length index.old) }
    ensures index_after { index.new ≡ indexed_index n list.now script.now (length work.old) index.old }
{
    match check_indexed(n, list, script, work.len(), index.len()) {
        Err(r) => IndexedRun {
            begun: false,
            answer: Err(r),
            starts: NO_STARTS,
        },
        Ok(_) => run_accepted(n, list, script, work, index),
    }
}
