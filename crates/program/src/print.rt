//! What the programs print: a line of text, and a list with each cube on a line. Where standard output can't be written, nothing tells of it.
ghost use Rattle.std.specs.Prelude.{◌≡◌, [], ◌∷◌, ◌++◌, ◌≤◌, ◌<◌, length, take};
ghost use Rattle.io.specs.Counts.{IsPrefixLen};
ghost use Rattle.cube.specs.Lists.{most_variables};
ghost use Rattle.text.specs.Cubes.{cube_text};

use cube::Cube;
use std::fmt::Display;

/// A cube's characters and its newline.
const LINE_BYTES: usize = cube::list::MOST_VARIABLES + 1;

/// Bytes as they are.
pub fn text(rt: &impl Print, bytes: &[u8]) {
    let _ = rt.write_all(bytes);
}

/// A text on a line of its own.
pub fn line<T: Display + Drop>(rt: &impl Print, said: T) {
    let _ = rt.println(said);
}

// Stays: a lent buffer and where its text ends; `text` lays a cube so, and its contract says which bytes.
/// A cube and its newline at the front of a line, which has room for them, and how long they are.
fn spell(n: usize, c: Cube, line: &mut [u8]) -> usize
    requires { (n ≤ most_variables) × (n < length line.old) }
    ensures prefix_len { IsPrefixLen result line.new }
    ensures line_after { take result line.new ≡ cube_text n c ++ (10 ∷ []) }
{
    let end = text::cubes::put_cube(line, 0, n as u32, c);
    text::place::put_byte(line, end, b'\n')
}

fn cube_line(rt: &impl Print, n: usize, c: Cube)
    requires { n ≤ most_variables }
{
    let mut line = [0u8; LINE_BYTES];
    let end = spell(n, c, &mut line);
    text(rt, &line[..end]);
}

/// The first `count` cubes of a list.
pub fn list(rt: &impl Print, n: usize, bytes: &[u8], count: usize)
    requires { n ≤ most_variables }
{
    for i in 0..count {
        cube_line(rt, n, cube::list::cube_at(bytes, i));
    }
}
