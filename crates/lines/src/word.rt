//! The words of a line.
ghost use Rattle.std.specs.Prelude.{◌≡◌};
ghost use Rattle.lines.specs.Words.{past_word, blank_from, same as words_same, only_number, only_word};

use text::{number, place};

/// The place after the word that stands from a place on.
pub fn past_word(line: &[u8], at: usize) -> usize
    ensures { result ≡ past_word line.now at }
{
    at + place::rest(line, at)
        .iter()
        .take_while(|b| !place::is_blank(**b))
        .count()
}

/// Whether there are blanks alone from a place on.
pub fn is_blank_from(line: &[u8], at: usize) -> bool
    ensures { result ≡ blank_from line.now at }
{
    place::past_blanks(line, at) == line.len()
}

/// Whether two texts have the same bytes.
pub fn same(a: &[u8], b: &[u8]) -> bool
    ensures { result ≡ words_same a.now b.now }
{
    a == b
}

/// The number that a line says, where that is one word, of digits, for a number of at most `most`.
#[tactic(auto, unfolding(crate::specs::Words::only_number))]
pub fn only_number(line: &[u8], most: usize) -> Option<usize>
    ensures { result ≡ only_number most line.now }
{
    let read = number::number_at(line, place::past_blanks(line, 0), most).ok()?;
    is_blank_from(line, read.next).then_some(read.value)
}

/// Whether a line says this one word.
pub fn is_only_word(line: &[u8], word: &[u8]) -> bool
    ensures { result ≡ only_word word.now line.now }
{
    let from = place::past_blanks(line, 0);
    let end = past_word(line, from);
    same(&line[from..end], word) && is_blank_from(&line[end..], 0)
}
