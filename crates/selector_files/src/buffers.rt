//! The buffers for a map of as many lists as it can have. Of each only the length is told: it is all that lending it needs, and a proof that goes by the bytes takes long.
ghost use Rattle.std.specs.Prelude.{◌≡◌, length};

use program::file;
use records::place::PLACE_WIDTH;
use selector::MOST_LISTS;

/// Bytes of the lists that are read, and of the scripts.
const LISTS_BYTES: usize = MOST_LISTS * file::LIST_BYTES;

const SCRIPTS_BYTES: usize = MOST_LISTS * file::SCRIPT_BYTES;

/// Bytes of the work buffer.
const WORK_BYTES: usize = cube::list::RECORD_WIDTH * cube::list::MOST_RECORDS;

/// Bytes of the places of all records that are read.
const PLACES_BYTES: usize = PLACE_WIDTH * (LISTS_BYTES / cube::list::RECORD_WIDTH);

/// For the lists, and for those that are burned.
pub(crate) fn lists() -> [u8; LISTS_BYTES]
    ensures { 393312 ≡ length result }
{
    [0; LISTS_BYTES]
}

pub(crate) fn scripts() -> [u8; SCRIPTS_BYTES]
    ensures { 98400 ≡ length result }
{
    [0; SCRIPTS_BYTES]
}

pub(crate) fn work() -> [u8; WORK_BYTES]
    ensures { 32768 ≡ length result }
{
    [0; WORK_BYTES]
}

pub(crate) fn places() -> [u8; PLACES_BYTES]
    ensures { 98328 ≡ length result }
{
    [0; PLACES_BYTES]
}
