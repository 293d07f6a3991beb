//! The products of a list that are true at a label, printed.
use cube::Cube;
use records::place;
use text::cubes::put_cube;
use text::place::put_byte;
use text_files::at_most_32;

/// Characters of a cube and its newline, at most.
const LINE_BYTES: usize = cube::list::MOST_VARIABLES + 1;

// Stays: a lent buffer and where its text ends; `text` lays a cube so.
/// A place and its product, on a line.
fn product(rt: &impl Print, n: usize, place: usize, c: Cube) {
    let _ = print!(rt; "{place} ");
    let mut line = [0u8; LINE_BYTES];
    let end = put_cube(&mut line, 0, at_most_32(n), c);
    let end = put_byte(&mut line, end, b'\n');
    let _ = rt.write_all(&line[..end.min(LINE_BYTES)]);
}

/// The products of a list at the places of a buffer.
pub(crate) fn print(rt: &impl Print, n: usize, list: &[u8], places: &[u8]) {
    for k in 0..places.len() / place::PLACE_WIDTH {
        let place = place::place_at(places, k) as usize;
        product(rt, n, place, cube::list::cube_at(list, place));
    }
}
