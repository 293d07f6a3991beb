//! Settling a map, list by list.
ghost use Rattle.std.specs.Prelude.{◌≡◌, ◌++◌, ◌-◌, ◌≤◌, length, take, drop};
ghost use Rattle.cube.specs.Lists.{cubes_of, most_records};
ghost use Rattle.polarity.specs.Cost.{cost};
ghost use Rattle.settling.specs.Calls.{settled, settle_outcome, settle_out};
ghost use Rattle.selector.specs.Calls.{job, SettleCalled};
ghost use Rattle.selector.specs.Turns.{PartTold, Settleable, SettledTurns};

use crate::lengths::check_job;
use crate::lists::Lists;
use crate::{ByList, MOST_LISTS, MapRefusal};
use records::Refusal;
use settling::Settlement;

/// What is burned of one list of a map: how many bytes its list has, and what it costs.
#[derive(Clone, Copy, Debug, PartialEq, Eq)]
pub(crate) struct Burned {
    bytes: usize,
    cost: usize,
}

/// What a list costs.
fn list_cost(list: &[u8]) -> usize
    requires { length (cubes_of list.now) ≤ most_records }
    ensures { result ≡ cost (cubes_of list.now) }
{
    let counts = settling::candidates::count_list(list);
    let products = counts.products as usize;
    products - counts.constant as usize
}

/// Settles a list into the bytes from..end of the output.
fn burn_part(
    n: usize,
    list: &[u8],
    script: &[u8],
    work: &mut [u8],
    out: &mut [u8],
    from: usize,
    end: usize,
) -> Result<Settlement, Refusal>
    requires { (from ≤ end) × (end ≤ length out.old) }
    ensures result_value { settled result ≡ settle_outcome n list.now script.now (length work.old) (end - from) }
    ensures out_after { out.new ≡ take from out.old ++ (settle_out n list.now script.now (length work.old) (take (end - from) (drop from out.old)) ++ drop end out.old) }
{
    settling::settle::settle(n, list, script, work, &mut out[from..end])
}

/// The same, with what the burned list costs.
fn settle_part(
    n: usize,
    list: &[u8],
    script: &[u8],
    work: &mut [u8],
    out: &mut [u8],
    from: usize,
    end: usize,
) -> Result<Burned, Refusal>
    requires { (from ≤ end) × (end ≤ length out.old) }
    ensures part_told { PartTold n list.now script.now (length work.old) (end - from) result }
    ensures out_after { out.new ≡ take from out.old ++ (settle_out n list.now script.now (length work.old) (take (end - from) (drop from out.old)) ++ drop end out.old) }
{
    let settled = burn_part(n, list, script, work, out, from, end)?;
    let bytes = cube::list::RECORD_WIDTH * settled.burned;
    let to = from + bytes;
    let cost = list_cost(&out[from..to]);
    Ok(Burned { bytes, cost })
}

/// Settles the lists in turn, one after the other in the output, and zeros after them; where one is refused, the output is cleared.
fn settle_lists(
    n: usize,
    lists: Lists<'_>,
    scripts: Lists<'_>,
    work: &mut [u8],
    out: &mut [u8],
) -> ByList
    requires { Settleable (job n lists.bytes.now lists.lengths.now scripts.bytes.now scripts.lengths.now (length work.old)) (length out.old) }
    ensures { SettledTurns (job n lists.entry.bytes.now lists.entry.lengths.now scripts.entry.bytes.now scripts.entry.lengths.now (length work.old)) out.old result out.new }
{
    let mut sizes = [0u64; MOST_LISTS];
    let mut total: usize = 0;
    let mut to: usize = 0;
    for (k, (list, script)) in lists.zip(scripts).enumerate() {
        let room = to + list.len();
        match settle_part(n, list, script, work, out, to, room) {
            Err(why) => {
                records::clear(out);
                return ByList::refused(MapRefusal::of_list(why, k));
            }
            Ok(burned) => {
                sizes[k] = burned.bytes as u64;
                total += burned.cost;
                to += burned.bytes;
            }
        }
    }
    records::clear(&mut out[to..]);
    ByList {
        answer: Ok(total),
        each: sizes,
    }
}

/// Settles a map: refusals 24, 26 and 5, then those of settle on the lists in turn; or the total cost and the lengths of the burned lists, which fill the front
/// of the output.
// Stays: lists and lengths are two buffers in the C interface, and `job` and its theorems are over both.
pub fn settle_map(
    n: usize,
    lists: &[u8],
    lengths: &[u64],
    scripts: &[u8],
    script_lengths: &[u64],
    work: &mut [u8],
    out: &mut [u8],
) -> ByList
    ensures { SettleCalled (job n lists.now lengths.now scripts.now script_lengths.now (length work.old)) work.old out.old result work.new out.new }
{
    match check_job(lists, lengths, scripts, script_lengths, out.len()) {
        Err(why) => ByList::refused(why.into()),
        Ok(_) => {
            let lists = Lists {
                bytes: lists,
                lengths,
            };
            let scripts = Lists {
                bytes: scripts,
                lengths: script_lengths,
            };
            let settled = settle_lists(n, lists, scripts, work, out);
            records::clear(work);
            settled
        }
    }
}
