//! A whole text.
ghost use Rattle.std.specs.Prelude.{◌≡◌, List, ◌<◌, ◌≤◌, length};
ghost use Rattle.records.specs.Records.{zeros};
ghost use Rattle.shared.specs.declared.Shared.{Shared};
ghost use Rattle.lines.specs.Gathering.{most_text};
ghost use Rattle.pla.specs.Header.{unsaid};
ghost use Rattle.pla.specs.Reading.{Kept};
ghost use Rattle.pla.specs.Pla.{says_before, line_says, line_is, finished as pla_finished, told_of, pla_outcome, pla_after, read_pla};

use crate::names::Name;
use crate::{Header, Line, MapSize, names, product};
use records::{Reason, Refusal};
use shared::list;

/// What line k says before its comment.
fn says_before(k: usize, h: Header, c: &[u8]) -> Result<Line, Reason>
    requires { h.products < unsaid }
    ensures { line_is result ≡ says_before k h c.now }
{
    let from = text::place::past_blanks(c, 0);
    if from == c.len() {
        return Ok(Line::Knows(h));
    }
    if text::place::byte_at(c, from) != b'.' {
        return product::product(h, c);
    }
    let end = lines::word::past_word(c, from);
    match Name::of(&c[from..end]) {
        Some(name) => name.says(k, h, &c[end..]),
        None => Err(Reason::UnknownLine),
    }
}

/// What line k says.
fn line_says(k: usize, h: Header, line: &[u8]) -> Result<Line, Reason>
    requires { h.products < unsaid }
    ensures { line_is result ≡ line_says k h line.now }
{
    let end = lines::line::content_end(line);
    says_before(k, h, &line[..end])
}

/// What is answered at the end, at line k, where `count` products are in some output.
fn finished(h: Header, count: usize, k: usize) -> Result<MapSize, Refusal>
    ensures { (l : List Shared) → length l ≡ count → read_pla result ≡ told_of (pla_finished h l k) }
{
    product::lacking(h).map_err(|why| why.at(k))?;
    if h.stated != names::UNSAID && h.stated != h.products {
        return Err(Reason::OtherCount.at(h.line));
    }
    Ok(MapSize {
        inputs: h.inputs,
        outputs: h.outputs,
        products: count,
    })
}

/// The lines of a text in turn, with the products stored in a cleared buffer; `line` is how many are read.
fn gathered(text: &[u8], out: &mut [u8]) -> Result<MapSize, Refusal>
    requires text_len_bound { length text.now ≤ most_text }
    requires out_value { out.old ≡ zeros (length out.old) }
    ensures result_value { read_pla result ≡ pla_outcome text.now (length out.old) }
    ensures kept { Kept text.now (length out.old) out.new }
{
    let room = list::capacity(out.len());
    let mut h = Header::NOTHING_SAID;
    let mut count: usize = 0;
    let mut at: usize = 0;
    let mut line: usize = 0;
    while at < text.len() {
        let end = lines::line::line_end(text, at);
        line += 1;
        let said = match line_says(line, h, &text[at..end]) {
            Ok(said) => said,
            Err(why) => return Err(why.at(line)),
        };
        at = end + 1;
        match said {
            Line::Over => return finished(h, count, line),
            // Field by field, here and below: a header that is assigned whole brings the bytes behind `esop`, where no field is, and each line would write them.
            Line::Knows(g) => {
                h = Header { ..g };
            }
            Line::Has(g, s) => {
                h = Header { ..g };
                if s.outputs != 0 {
                    if room <= count {
                        return Err(Reason::TooManyProducts.at(line));
                    }
                    list::put_record(out, count, s);
                    count += 1;
                }
            }
        }
    }
    finished(h, count, line + 1)
}

/// A map as text: its inputs, its outputs and how many products it has in some output, whose records, of 12 bytes, are at the front of the buffer, with zeros after them; or a
/// refusal, by 27 to 33 or 36 at a line, and zeros alone.
pub fn read(text: &[u8], out: &mut [u8]) -> Result<MapSize, Refusal>
    ensures result_value { read_pla result ≡ pla_outcome text.now (length out.old) }
    ensures out_after { out.new ≡ pla_after text.now (length out.old) }
{
    records::clear(out);
    if lines::MOST_TEXT < text.len() {
        return Err(Reason::TextTooLong.at(0));
    }
    match gathered(text, out) {
        Err(r) => {
            records::clear(out);
            Err(r)
        }
        Ok(size) => Ok(size),
    }
}
