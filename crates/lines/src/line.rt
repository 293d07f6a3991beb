//! The lines of a text.
ghost use Rattle.std.specs.Prelude.{◌≡◌, ◌+◌, drop};
ghost use Rattle.io.specs.Counts.{IsPrefixLen};
ghost use Rattle.lines.specs.Bytes.{index_of};
ghost use Rattle.lines.specs.Lines.{newline, hash};

use text::place;

/// The end of the line that begins at a place of a text: the place of its newline, or the text's length; a place past the text is its own end.
pub fn line_end(text: &[u8], at: usize) -> usize
    ensures { result ≡ at + index_of newline (drop at text.now) }
{
    at + place::rest(text, at)
        .iter()
        .take_while(|b| **b != b'\n')
        .count()
}

/// How many bytes of a line stand before its comment.
pub fn content_end(line: &[u8]) -> usize
    ensures prefix_len { IsPrefixLen result line.now }
    ensures value { result ≡ index_of hash line.now }
{
    line.iter().take_while(|b| **b != b'#').count()
}
