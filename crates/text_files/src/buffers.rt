//! The buffers of the commands. Of each only the length is told: it is all that lending it needs, and a proof that goes by the bytes takes long.
ghost use Rattle.std.specs.Prelude.{◌≡◌, [], ◌∷◌, length};

/// Bytes of a text that are loaded: one more than is read, by which it is too long.
pub const TEXT_BYTES: usize = lines::MOST_TEXT + 1;

/// Bytes of the longest list, of shared products and of cubes.
pub const SHARES_BYTES: usize = shared::list::SHARED_WIDTH * cube::list::MOST_RECORDS;

pub const CUBES_BYTES: usize = cube::list::RECORD_WIDTH * cube::list::MOST_RECORDS;

/// Bytes of the longest script.
pub const STEPS_BYTES: usize = script::check::STEP_WIDTH * script::check::MOST_STEPS;

/// Bytes of the longest text of a map: its lines before and after the products, fewer than 128, and 66 characters of each product with its newline.
pub const MAP_TEXT_BYTES: usize = 128 + 66 * cube::list::MOST_RECORDS;

/// Bytes of the longest text of a script: `turn x255 65535 65535` and its newline are the longest line.
pub const SCRIPT_TEXT_BYTES: usize = 22 * script::check::MOST_STEPS;

/// Bytes of the places of the longest list, and of those of twelve such lists.
pub const PLACES_BYTES: usize = records::place::PLACE_WIDTH * cube::list::MOST_RECORDS;

pub const MAP_PLACES_BYTES: usize = 12 * PLACES_BYTES;

/// Bytes of the longest vector.
pub const VECTOR_BYTES: usize = 256;

/// Bytes of a file of records that are loaded: one record more than the most.
pub const PACKED_BYTES: usize = SHARES_BYTES + shared::list::SHARED_WIDTH;

/// All of them by their values, in the order above: a longer text is refused, and not cut, and the longest lists and scripts have room.
pub fn lengths() -> [usize; 10]
    ensures { result ≡ 1048577 ∷ 49152 ∷ 32768 ∷ 8192 ∷ 270464 ∷ 22528 ∷ 8192 ∷ 98304 ∷ 256 ∷ 49164 ∷ [] }
{
    [
        TEXT_BYTES,
        SHARES_BYTES,
        CUBES_BYTES,
        STEPS_BYTES,
        MAP_TEXT_BYTES,
        SCRIPT_TEXT_BYTES,
        PLACES_BYTES,
        MAP_PLACES_BYTES,
        VECTOR_BYTES,
        PACKED_BYTES,
    ]
}

pub fn text() -> [u8; TEXT_BYTES]
    ensures { 1048577 ≡ length result }
{
    [0; TEXT_BYTES]
}

pub fn shares() -> [u8; SHARES_BYTES]
    ensures { 49152 ≡ length result }
{
    [0; SHARES_BYTES]
}

pub fn cubes() -> [u8; CUBES_BYTES]
    ensures { 32768 ≡ length result }
{
    [0; CUBES_BYTES]
}

pub fn steps() -> [u8; STEPS_BYTES]
    ensures { 8192 ≡ length result }
{
    [0; STEPS_BYTES]
}

pub fn map_text() -> [u8; MAP_TEXT_BYTES]
    ensures { 270464 ≡ length result }
{
    [0; MAP_TEXT_BYTES]
}

pub fn script_text() -> [u8; SCRIPT_TEXT_BYTES]
    ensures { 22528 ≡ length result }
{
    [0; SCRIPT_TEXT_BYTES]
}

pub fn places() -> [u8; PLACES_BYTES]
    ensures { 8192 ≡ length result }
{
    [0; PLACES_BYTES]
}

pub fn map_places() -> [u8; MAP_PLACES_BYTES]
    ensures { 98304 ≡ length result }
{
    [0; MAP_PLACES_BYTES]
}

pub fn vector() -> [u8; VECTOR_BYTES]
    ensures { 256 ≡ length result }
{
    [0; VECTOR_BYTES]
}

pub fn packed() -> [u8; PACKED_BYTES]
    ensures { 49164 ≡ length result }
{
    [0; PACKED_BYTES]
}
