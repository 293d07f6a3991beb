//! The list of one output of shared products, and a list as shared products of one output.
#![tactic(auto)]

ghost use Rattle.std.specs.Prelude.{◌≡◌, map, ◌*◌, ◌/◌, ◌≤◌, ◌<◌, length};
ghost use Rattle.records.specs.Answers.{counted};
ghost use Rattle.records.specs.Records.{written};
ghost use Rattle.cube.specs.Lists.{record_width, cubes, cubes_of};
ghost use Rattle.shared.specs.SharedRecord.{sharing, shared_width, shares, shares_of};
ghost use Rattle.shared.specs.Outputs.{carrying};
ghost use Rattle.outputs.specs.Calls.{list_outcome, list_after, shares_outcome, shares_after};
ghost use Rattle.outputs.specs.Steps.{place_after, buffer_after};

use cube::list;
use records::{Reason, Refusal};
use shared::Shared;

/// Outputs of a shared product, at most.
const OUTPUTS: u32 = 32;

/// The cube of a product that carries bit k stored at a place that the list has. Answers the next place: the same one where it doesn't carry the bit.
fn put_carried(k: u32, s: Shared, out: &mut [u8], at: usize) -> usize
    requires { at < length out.old / record_width }
    ensures value { result ≡ place_after k s at }
    ensures out_after { out.new ≡ buffer_after k s at out.old }
{
    if bits::bit(s.outputs, k) == 1 {
        list::put_record(out, at, s.cube);
        return at + 1;
    }
    at
}

/// The cubes of the products that carry bit k, in their order, to the front of a buffer that has room for all products. Answers how many they are.
fn put_carrying(k: u32, list: &[u8], out: &mut [u8]) -> usize
    requires { record_width * (length list.now / shared_width) ≤ length out.old }
    ensures value { result ≡ length (carrying k (shares_of list.now)) }
    ensures out_after { out.new ≡ written cubes 0 (carrying k (shares_of list.now)) out.old }
{
    let count = list.len() / shared::list::SHARED_WIDTH;
    let mut met: usize = 0;
    for i in 0..count {
        met = put_carried(k, shared::list::record_at(list, i), out, met);
    }
    met
}

/// The list of output k: the cubes of the shared products that carry bit k, in their order at the front of `out`, and every other byte as it was. The records of
/// the list are not checked. Refusal 5 where `out` is too short for as many cubes as there are products, or the number of the cubes.
pub fn list_of(k: u32, list: &[u8], out: &mut [u8]) -> Result<usize, Refusal>
    ensures result_value { counted result ≡ list_outcome k list.now (length out.old) }
    ensures out_after { out.new ≡ list_after k list.now out.old }
{
    if out.len() / list::RECORD_WIDTH < list.len() / shared::list::SHARED_WIDTH {
        return Err(Reason::NoRoom.at(0));
    }
    Ok(put_carrying(k, list, out))
}

/// Every cube of a list stored at its place, as a product of these outputs.
fn put_shares(outputs: u32, list: &[u8], out: &mut [u8])
    requires { shared_width * (length list.now / record_width) ≤ length out.old }
    ensures { out.new ≡ written shares 0 (map (sharing outputs) (cubes_of list.now)) out.old }
{
    let count = list.len() / list::RECORD_WIDTH;
    for i in 0..count {
        let cube = list::record_at(list, i);
        shared::list::put_record(out, i, Shared { cube, outputs });
    }
}

/// A list as shared products of output k alone, each at its cube's place of `out`, and every other byte as it was. The records of the list are not checked.
/// Refusal 21 where there is no output k, 5 where `out` is too short, or the count.
pub fn shares_of(k: u32, list: &[u8], out: &mut [u8]) -> Result<usize, Refusal>
    ensures result_value { counted result ≡ shares_outcome k list.now (length out.old) }
    ensures out_after { out.new ≡ shares_after k list.now out.old }
{
    if OUTPUTS <= k {
        return Err(Reason::NoSuchOutput.at(0));
    }
    let count = list.len() / list::RECORD_WIDTH;
    if out.len() / shared::list::SHARED_WIDTH < count {
        return Err(Reason::NoRoom.at(0));
    }
    put_shares(1 << k, list, out);
    Ok(count)
}
