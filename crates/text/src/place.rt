//! Single bytes of a text and of a lent buffer; words; blanks.
ghost use Rattle.std.specs.Prelude.{◌≡◌, [], ◌∷◌, get_or, drop};
ghost use Rattle.text.specs.Blanks.{blank, past_blanks};
ghost use Rattle.text.specs.Places.{Laid};
ghost use Rattle.text.specs.Reading.{word_in};

use crate::{Read, WrongAt};

// Stays: each printer takes a buffer and a place and answers the next place, by which it is known where room lacked: the documents name the printers so.
/// The place after a byte that found no room.
pub const NO_PLACE: usize = usize::MAX;

/// The byte at a place, or 0 past the end.
pub fn byte_at(text: &[u8], p: usize) -> u8
    ensures { result ≡ get_or text.now p 0 }
{
    text.get(p).copied().unwrap_or(0)
}

/// What stands from a place on; nothing past the end.
pub fn rest(text: &[u8], at: usize) -> &[u8]
    ensures { result.now ≡ drop at text.now }
{
    text.get(at..).unwrap_or(&[])
}

/// A byte at a place of a buffer, and the next place.
pub fn put_byte(out: &mut [u8], at: usize, b: u8) -> usize
    ensures { Laid out.old at (b ∷ []) result out.new }
{
    if at < out.len() {
        out[at] = b;
        return at + 1;
    }
    NO_PLACE
}

/// The bytes of a text at a place of a buffer, and the next place.
pub fn put_text(out: &mut [u8], at: usize, text: &[u8]) -> usize
    ensures { Laid out.old at text.now result out.new }
{
    let mut p = at;
    for b in text {
        p = put_byte(out, p, *b);
    }
    p
}

/// The word at a place of a text, read as the number that it stands for.
pub fn word_at(text: &[u8], at: usize, word: &[u8], number: usize) -> Result<Read<usize>, WrongAt>
    ensures { result ≡ word_in number word.now text.now at }
{
    let mut p = at;
    for letter in word {
        match text.get(p) {
            Some(b) if b == letter => p += 1,
            _ => return Err(WrongAt { place: p }),
        }
    }
    Ok(Read {
        value: number,
        next: p,
    })
}

/// Whether a byte is a space, a tab or a carriage return.
pub fn is_blank(b: u8) -> bool
    ensures { result ≡ blank b }
{
    matches!(b, b' ' | b'\t' | b'\r')
}

/// The place after the blanks that stand from a place on.
pub fn past_blanks(text: &[u8], at: usize) -> usize
    ensures { result ≡ past_blanks text.now at }
{
    at + rest(text, at).iter().take_while(|b| is_blank(**b)).count()
}
