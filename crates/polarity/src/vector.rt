//! The check of a vector's bytes.

ghost use Rattle.std.specs.Prelude.{◌≡◌, ◌≤◌, ◌<◌, length};
ghost use Rattle.bits.specs.Sums.{first_bad};
ghost use Rattle.records.specs.Answers.{counted};
ghost use Rattle.records.specs.Strides.{pass_from, stride_from};
ghost use Rattle.polarity.specs.Vectors.{is_bit, check_vector};

use bits::packing;
use records::{Reason, Refusal};

/// Bytes that are looked at together.
const STRIDE: usize = 8;

/// Whether a stride is left from place i on, and every byte of it is 0 or 1.
// Stays: a scan of its own beside that of `records::list`; a byte is no record of a `Kind`, and eight of them are tested as one number.
fn stride_good(bytes: &[u8], i: usize) -> bool
    requires { i ≤ length bytes.now }
    ensures { result ≡ pass_from is_bit 0 8 bytes.now i }
{
    if bytes.len() - i < STRIDE {
        return false;
    }
    let end = i + STRIDE;
    packing::eight_bits(&bytes[i..end])
}

/// How many good bytes are passed at once from place i on: a stride, or one, or none.
fn good_from(bytes: &[u8], i: usize) -> usize
    requires { i < length bytes.now }
    ensures { result ≡ stride_from is_bit 0 8 bytes.now i }
{
    if stride_good(bytes, i) {
        return STRIDE;
    }
    (bytes[i] <= 1) as usize
}

/// The lowest byte above 1, or the length.
fn first_bad(bytes: &[u8]) -> usize
    ensures { result ≡ first_bad is_bit bytes.now }
{
    // Stays: a loop by break, in strides; the documents name it.
    let mut i: usize = 0;
    let found = loop {
        if bytes.len() <= i {
            break bytes.len();
        }
        let good = good_from(bytes, i);
        if good == 0 {
            break i;
        }
        i += good;
    };
    found
}

/// Checking a vector: refusals 1 and 14, or its length.
// Stays: it answers the length and no checked vector; docs/CONTRACTS.md names it so, and C lends the bytes that `Vector n` is said of in the contracts of its callers.
pub fn check_vector(n: usize, bytes: &[u8]) -> Result<usize, Refusal>
    ensures { counted result ≡ check_vector n bytes.now }
{
    if cube::value::VECTOR_VARIABLES < n {
        return Err(Reason::TooManyVariables.at(0));
    }
    let m: usize = 1 << n;
    if bytes.len() != m {
        return Err(Reason::BadVector.at(m));
    }
    let bad = first_bad(bytes);
    if bad != m {
        return Err(Reason::BadVector.at(bad));
    }
    Ok(m)
}
