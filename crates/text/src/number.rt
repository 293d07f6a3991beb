//! Numbers in decimal.
ghost use Rattle.std.specs.Prelude.{◌≡◌, ◌+◌, ◌*◌, ◌-◌, leb};
ghost use Rattle.text.specs.Places.{Laid};
ghost use Rattle.text.specs.Numbers.{is_digit, decimal, with_digit};
ghost use Rattle.text.specs.Reading.{number_in};

use crate::{Read, WrongAt, place};

/// Whether a byte is a digit's character.
pub fn is_digit(b: u8) -> bool
    ensures { result ≡ is_digit b }
{
    b.is_ascii_digit()
}

/// A number in decimal at a place of a buffer, and the next place.
pub fn put_number(out: &mut [u8], at: usize, x: usize) -> usize
    ensures { Laid out.old at (decimal x) result out.new }
{
    if x < 10 {
        return place::put_byte(out, at, b'0' + x as u8);
    }
    let next = put_number(out, at, x / 10);
    place::put_byte(out, next, b'0' + (x % 10) as u8)
}

/// The number of a digit's character.
pub fn digit(b: u8) -> usize
    ensures { result ≡ b - 48 }
{
    b.saturating_sub(b'0') as usize
}

/// x followed by the digit d, where that is at most `most`.
fn with_digit(x: usize, d: usize, most: usize) -> Option<usize>
    ensures { result ≡ with_digit most x d }
{
    let longer = x.checked_mul(10)?.checked_add(d)?;
    (longer <= most).then_some(longer)
}

/// The number at a place of a text, as far as its digits go. It is wrong where no digit stands, and at the digit that takes it above `most`.
pub fn number_at(text: &[u8], at: usize, most: usize) -> Result<Read<usize>, WrongAt>
    ensures { result ≡ number_in most text.now at }
{
    if !is_digit(place::byte_at(text, at)) {
        return Err(WrongAt { place: at });
    }
    let mut x = 0;
    for p in at..text.len() {
        if !is_digit(text[p]) {
            return Ok(Read { value: x, next: p });
        }
        let Some(longer) = with_digit(x, digit(text[p]), most) else {
            return Err(WrongAt { place: p });
        };
        x = longer;
    }
    Ok(Read {
        value: x,
        next: text.len(),
    })
}
