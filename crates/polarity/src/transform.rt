//! The coefficients of a vector under a polarity, and back, on the bits of four words, or of one.

ghost use Rattle.std.specs.Prelude.{◌≡◌, ◌++◌, ◌^◌, ◌<◌, ◌≤◌, length, drop};
ghost use Rattle.bits.specs.Below.{list_below};
ghost use Rattle.records.specs.Answers.{counted, after_call};
ghost use Rattle.polarity.specs.Vectors.{byte_at, Vector};
ghost use Rattle.polarity.specs.Calls.{coefficients_outcome, coefficients_after, back_after};
ghost use Rattle.polarity.specs.Words.{transformed};

use crate::pass::transformed;
use crate::vector;
use bits::packed::Packed;
use bits::passes::Bits;
use bits::word;
use records::{Reason, Refusal};

/// The bytes of either transform, to a buffer of their number.
fn put_transformed<B: Bits>(back: bool, n: usize, bytes: &[u8], p: usize, out: &mut [u8])
    requires { Vector n bytes.now × (p < 2 ^ n) × (length out.old ≡ 2 ^ n) × (n ≤ B.VARIABLES) }
    ensures { out.new ≡ list_below (2 ^ n) (transformed back n p (byte_at bytes.now)) }
{
    let bits: B = transformed(back, n, bytes, p);
    bits.put(out);
}

/// The same, of bits in one word where they fit.
fn put_either(back: bool, n: usize, bytes: &[u8], p: usize, out: &mut [u8])
    requires { Vector n bytes.now × (p < 2 ^ n) × (length out.old ≡ 2 ^ n) }
    ensures { out.new ≡ list_below (2 ^ n) (transformed back n p (byte_at bytes.now)) }
{
    if n <= word::VARIABLES {
        put_transformed::<u64>(back, n, bytes, p, out);
    } else {
        put_transformed::<Packed>(back, n, bytes, p, out);
    }
}

/// Refusals 1, 14, 15 and 5 of a vector, a polarity and a buffer of so many bytes, or the vector's length.
fn check_room(n: usize, bytes: &[u8], p: u64, room: usize) -> Result<usize, Refusal>
    ensures { counted result ≡ coefficients_outcome n bytes.now p room }
{
    let m = vector::check_vector(n, bytes)?;
    if m as u64 <= p {
        return Err(Reason::PolarityOutside.at(0));
    }
    if room < m {
        return Err(Reason::NoRoom.at(0));
    }
    Ok(m)
}

/// Either call: the bytes go to the front of the buffer where every test passes.
fn transform(back: bool, n: usize, bytes: &[u8], p: u64, out: &mut [u8]) -> Result<usize, Refusal>
    ensures result_value { counted result ≡ coefficients_outcome n bytes.now p (length out.old) }
    ensures out_after { out.new ≡ after_call (coefficients_outcome n bytes.now p (length out.old)) (list_below (2 ^ n) (transformed back n p (byte_at bytes.now)) ++ drop (2 ^ n) out.old) out.old }
{
    let m = check_room(n, bytes, p, out.len())?;
    put_either(back, n, bytes, p as usize, &mut out[..m]);
    Ok(m)
}

/// The coefficients of a truth vector under a polarity.
pub fn coefficients(n: usize, vector: &[u8], p: u64, out: &mut [u8]) -> Result<usize, Refusal>
    ensures result_value { counted result ≡ coefficients_outcome n vector.now p (length out.old) }
    ensures out_after { out.new ≡ coefficients_after n vector.now p out.old }
{
    transform(false, n, vector, p, out)
}

/// The truth vector of coefficients under a polarity.
pub fn vector_back(n: usize, coefficients: &[u8], p: u64, out: &mut [u8]) -> Result<usize, Refusal>
    ensures result_value { counted result ≡ coefficients_outcome n coefficients.now p (length out.old) }
    ensures out_after { out.new ≡ back_after n coefficients.now p out.old }
{
    transform(true, n, coefficients, p, out)
}
