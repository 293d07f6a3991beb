//! Why a label goes to its slot: the places of the products of a list that are true at an assignment.
#![tactic(auto)]

ghost use Rattle.std.specs.Prelude.{◌≡◌, ◌*◌, ◌/◌, ◌^◌, ◌≤◌, ◌<◌, length};
ghost use Rattle.bits.specs.Sums.{All};
ghost use Rattle.records.specs.Records.{written};
ghost use Rattle.records.specs.Places.{place_width, places};
ghost use Rattle.cube.specs.Cubes.{Good};
ghost use Rattle.cube.specs.Lists.{record_width, most_records, cubes_of};
ghost use Rattle.reasons.specs.Calls.{true_places, reasoned, reasons_outcome, reasons_after};

use cube::{list, value};
pub use records::place::PLACE_WIDTH;
use records::place::put_place;
use records::{Reason, Refusal};

/// How many products are true, and the value.
#[derive(Clone, Copy, Debug, PartialEq, Eq)]
pub struct TrueProducts {
    pub count: usize,
    pub bit: u8,
}

/// The places of the true products of a list of good cubes, to the front of a buffer that has room for every place. Answers how many they are.
// Stays: the list as bytes, with what its check has shown in the contract; docs/CONTRACTS.md (Exceptions) names it by what it asks.
fn put_trues(n: usize, list: &[u8], a: u32, out: &mut [u8]) -> usize
    requires all { All (Good n) (cubes_of list.now) }
    requires a_bound { a < 2 ^ n }
    requires record_width_len_bound { length list.now / record_width ≤ most_records }
    requires record_width_in_bounds { place_width * (length list.now / record_width) ≤ length out.old }
    ensures value { result ≡ length (true_places n (cubes_of list.now) a) }
    ensures out_after { out.new ≡ written places 0 (true_places n (cubes_of list.now) a) out.old }
{
    let count = list.len() / list::RECORD_WIDTH;
    let mut k: usize = 0;
    for i in 0..count {
        if list::record_at(list, i).holds_at(a) {
            put_place(out, k, i as u16);
            k += 1;
        }
    }
    k
}

/// The reasons for the value of a list at the assignment a: refusals 1 to 4, 6 and 5; or how many products are true there and the bit, with their places
/// written to the front of the buffer.
pub fn reasons(n: usize, list: &[u8], a: u64, out: &mut [u8]) -> Result<TrueProducts, Refusal>
    ensures result_value { reasoned result ≡ reasons_outcome n list.now a (length out.old) }
    ensures out_after { out.new ≡ reasons_after n list.now a out.old }
{
    let count = value::check_at(n, list, a)?;
    if out.len() < PLACE_WIDTH * count {
        return Err(Reason::NoRoom.at(0));
    }
    let number = put_trues(n, list, a as u32, out);
    Ok(TrueProducts {
        count: number,
        bit: (number % 2) as u8,
    })
}
