//! The reasons of a map: for each bit, the places of the products that are true at a label.
ghost use Rattle.std.specs.Prelude.{◌≡◌, ◌++◌, ◌-◌, ◌≤◌, length, take, drop};
ghost use Rattle.reasons.specs.Calls.{reasoned, reasons_outcome, reasons_after};
ghost use Rattle.selector.specs.Calls.{ReasonsInto, ReasonsCalled};
ghost use Rattle.selector.specs.Turns.{Showable, ShownTurns};

use crate::lengths::check_map_reasons;
use crate::lists::Lists;
use crate::slot::with_bit;
use crate::{ByList, MOST_LISTS, MapRefusal};
use reasons::{PLACE_WIDTH, TrueProducts};
use records::Refusal;

/// The reasons of a list, into the bytes from..end of the output.
fn show_part(
    n: usize,
    list: &[u8],
    a: u64,
    out: &mut [u8],
    from: usize,
    end: usize,
) -> Result<TrueProducts, Refusal>
    requires { (from ≤ end) × (end ≤ length out.old) }
    ensures result_value { reasoned result ≡ reasons_outcome n list.now a (end - from) }
    ensures out_after { out.new ≡ take from out.old ++ (reasons_after n list.now a (take (end - from) (drop from out.old)) ++ drop end out.old) }
{
    reasons::reasons(n, list, a, &mut out[from..end])
}

/// The lists in turn, the reasons of each after those before it, with their numbers; where one is refused, the output and the numbers are cleared.
fn show_lists(
    n: usize,
    lists: Lists<'_>,
    a: u64,
    out: &mut [u8],
    numbers: &mut [u64; MOST_LISTS],
) -> Result<usize, MapRefusal>
    requires { Showable lists.bytes.now lists.lengths.now (length out.old) }
    ensures { ShownTurns n lists.entry.bytes.now lists.entry.lengths.now a out.old numbers.old result out.new numbers.new }
{
    *numbers = [0; MOST_LISTS];
    let mut slot: usize = 0;
    let mut to: usize = 0;
    for (k, list) in lists.enumerate() {
        let room = to + PLACE_WIDTH * (list.len() / cube::list::RECORD_WIDTH);
        match show_part(n, list, a, out, to, room) {
            Err(why) => {
                records::clear(out);
                *numbers = [0; MOST_LISTS];
                return Err(MapRefusal::of_list(why, k));
            }
            Ok(shown) => {
                numbers[k] = shown.count as u64;
                slot = with_bit(slot, k, (shown.count % 2) as u8);
                to += PLACE_WIDTH * shown.count;
            }
        }
    }
    Ok(slot)
}

/// The reasons of a map: refusals 24, 26 and 5, then those of reasons on the lists in turn; or the slot, with the places of all bits at the front of the output, end
/// to end, and how many each list has in the numbers.
// Stays: lists and lengths are two buffers in the C interface, and `ReasonsInto` and its theorems are over both.
pub fn reasons_into(
    n: usize,
    lists: &[u8],
    lengths: &[u64],
    a: u64,
    out: &mut [u8],
    numbers: &mut [u64; MOST_LISTS],
) -> Result<usize, MapRefusal>
    ensures { ReasonsInto n lists.now lengths.now a out.old numbers.old result out.new numbers.new }
{
    check_map_reasons(lists, lengths, out.len()).map_err(|why| MapRefusal::from(why))?;
    let lists = Lists {
        bytes: lists,
        lengths,
    };
    show_lists(n, lists, a, out, numbers)
}

/// The same, with the numbers by value.
pub fn map_reasons(n: usize, lists: &[u8], lengths: &[u64], a: u64, out: &mut [u8]) -> ByList
    ensures { ReasonsCalled n lists.now lengths.now a out.old result out.new }
{
    let mut each = [0u64; MOST_LISTS];
    let answer = reasons_into(n, lists, lengths, a, out, &mut each);
    ByList { answer, each }
}
