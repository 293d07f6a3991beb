//! The lists of a map of several outputs, one after the other.
ghost use Rattle.std.specs.Prelude.{◌≡◌, ◌≤◌, length};
ghost use Rattle.selector.specs.Maps.{most_lists};

use selector::MOST_LISTS;
use selector_files::loaded::Bits;
use text_files::{buffers, first_records};

/// Bytes of the lists of a map, at most.
const LISTS_BYTES: usize = MOST_LISTS * buffers::CUBES_BYTES;

/// For the lists of a map. Its length alone is told, as of `text_files::buffers`.
pub(crate) fn buffer() -> [u8; LISTS_BYTES]
    ensures { 393216 ≡ length result }
{
    [0; LISTS_BYTES]
}

/// The lists of the first m outputs of shared products, end to end in a buffer, and their lengths in another.
pub(crate) fn lists_of<'a>(
    m: usize,
    products: &[u8],
    bytes: &'a mut [u8],
    lengths: &'a mut [u64; MOST_LISTS],
) -> Bits<'a>
    requires { m ≤ most_lists }
    ensures { length result.bytes.now ≤ length bytes.old }
{
    let mut end = 0;
    for k in 0..m {
        let list = &mut bytes[end..];
        let count = outputs::list_of(k as u32, products, list).unwrap_or(0);
        let bit = first_records(cube::list::RECORD_WIDTH, count, list);
        lengths[k] = bit.len() as u64;
        end += bit.len();
    }
    Bits {
        bytes: &bytes[..end],
        lengths: &lengths[..m],
    }
}
