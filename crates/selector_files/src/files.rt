//! The files of a map: `bit0`, `bit1` and so on, with an ending, loaded one after the other.
ghost use Rattle.std.specs.Prelude.{◌≡◌, ◌*◌, ◌≤◌, length, take, IfOk};
ghost use Rattle.io.specs.Counts.{IsPrefixLen};
ghost use Rattle.text.specs.Places.{Laid};
ghost use Rattle.selector.specs.Maps.{most_lists};
ghost use Rattle.selector_files.specs.Paths.{bit_path};

use crate::loaded::Bits;
use program::file;
use program::told::Told;
use selector::MOST_LISTS;
use std::io;
use std::rt::Files;

/// Bytes of a path, at most.
const PATH_BYTES: usize = 64;

// Stays: a lent buffer and where its text ends; docs/CONTRACTS.md names `lay_path` and `put_path`.
/// The path of a bit's file, laid to the front of a buffer, and its end.
fn lay_path(folder: &[u8], k: usize, ending: &[u8], path: &mut [u8]) -> usize
    ensures { Laid path.old 0 (bit_path folder.now k ending.now) result path.new }
{
    let name = text::place::put_text(path, 0, folder);
    let number = text::place::put_text(path, name, b"bit");
    let dot = text::number::put_number(path, number, k);
    text::place::put_text(path, dot, ending)
}

/// The same, and how long it is: 0, which names no file, where it has no room.
fn put_path(folder: &[u8], k: usize, ending: &[u8], path: &mut [u8]) -> usize
    ensures prefix_len { IsPrefixLen result path.new }
    ensures path_after { length (bit_path folder.now k ending.now) ≤ length path.old → take result path.new ≡ bit_path folder.now k ending.now }
{
    let end = lay_path(folder, k, ending, path);
    if path.len() < end {
        return 0;
    }
    end
}

/// Opens a bit's file.
fn open_bit<R: Files>(rt: &R, folder: &[u8], k: usize, ending: &[u8]) -> io::Result<R::File> {
    let mut path = [0u8; PATH_BYTES];
    let size = put_path(folder, k, ending, &mut path);
    file::open(rt, &path[..size])
}

/// The files of bits 0, 1 and so on, up to the first that is missing and of at most so many bits, at most `width` bytes of each: end to end to the front of a buffer, as
/// far as it goes, and their lengths to another. A file that is there and can't be read is told of.
pub(crate) fn load_bits<'a, R: Files>(
    rt: &R,
    folder: &[u8],
    ending: &[u8],
    width: usize,
    most: usize,
    bytes: &'a mut [u8],
    lengths: &'a mut [u64; MOST_LISTS],
) -> Result<Bits<'a>, Told>
    requires { most ≤ most_lists }
    ensures few { IfOk result (λ bits. length bits.lengths.now ≤ most) }
    ensures short { IfOk result (λ bits. length bits.bytes.now ≤ most * width) }
    ensures within { IfOk result (λ bits. length bits.bytes.now ≤ length bytes.old) }
{
    let mut count = 0;
    let mut end: usize = 0;
    for k in 0..most {
        let Ok(mut file) = open_bit(rt, folder, k, ending) else {
            break;
        };
        let room = bytes.len().min(end.saturating_add(width));
        let bit = file::load_open(&mut file, &mut bytes[end..room])?;
        lengths[k] = bit.len() as u64;
        count = k + 1;
        end += bit.len();
    }
    Ok(Bits {
        bytes: &bytes[..end],
        lengths: &lengths[..count],
    })
}
