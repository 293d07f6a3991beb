//! Cubes: a character for each variable, variable 0 first.
ghost use Rattle.std.specs.Prelude.{◌≡◌};
ghost use Rattle.text.specs.Places.{Laid};
ghost use Rattle.text.specs.Cubes.{glyph as cubes_glyph, code_of_glyph, known, cube_text};
ghost use Rattle.text.specs.Reading.{cube_in};

use crate::{Read, WrongAt, place};
use cube::Cube;

/// The character of a literal code.
fn glyph(x: u8) -> u8
    ensures { result ≡ cubes_glyph x }
{
    match x {
        0 => b'0',
        1 => b'1',
        _ => b'-',
    }
}

/// The literal code of a character, if it is one's.
pub fn code_of(b: u8) -> Option<u8>
    ensures { result ≡ known 3 (code_of_glyph b) }
{
    match b {
        b'0' => Some(0),
        b'1' => Some(1),
        b'-' => Some(2),
        _ => None,
    }
}

/// A cube over n variables at a place of a buffer, and the next place.
pub fn put_cube(out: &mut [u8], at: usize, n: u32, c: Cube) -> usize
    ensures { Laid out.old at (cube_text n c) result out.new }
{
    let mut p = at;
    for k in 0..n {
        p = place::put_byte(out, p, glyph(c.code_at(k)));
    }
    p
}

/// The cube over n variables at a place of a text. It is wrong at the first character that is no code.
pub fn cube_at(text: &[u8], at: usize, n: u32) -> Result<Read<Cube>, WrongAt>
    ensures { result ≡ cube_in n text.now at }
{
    let mut c = Cube::ONE;
    let mut p = at;
    for k in 0..n {
        let Some(code) = code_of(place::byte_at(text, p)) else {
            return Err(WrongAt { place: p });
        };
        c = c.with_code(k, code);
        p += 1;
    }
    Ok(Read { value: c, next: p })
}
