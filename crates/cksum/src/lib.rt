//! The checksum of POSIX's `cksum`.

#![tactic(auto)]

ghost use Rattle.std.specs.Prelude.{◌≡◌};
ghost use Rattle.cksum.specs.Cksum.{crc_turn, crc_byte, crc_bytes, length_bytes, checksum};

/// The polynomial x^32 + x^26 + .. + 1 without its highest bit.
const POLYNOMIAL: u32 = 0x04c11db7;

/// The highest bit of a remainder.
const HIGHEST: u32 = 0x80000000;

/// Bits of a byte.
const BYTE_BITS: u32 = 8;

/// The remainder one bit on.
fn turn(c: u32) -> u32
    ensures { result ≡ crc_turn c }
{
    if HIGHEST <= c {
        return (c << 1) ^ POLYNOMIAL;
    }
    c * 2
}

/// The remainder after one more byte.
fn with_byte(crc: u32, b: u8) -> u32
    ensures { result ≡ crc_byte crc b }
{
    let mut c = crc ^ (u32::from(b) * 0x1000000);
    for _turned in 0..BYTE_BITS {
        c = turn(c);
    }
    c
}

/// The remainder after a slice's bytes.
fn with_bytes(crc: u32, bytes: &[u8]) -> u32
    ensures { result ≡ crc_bytes crc bytes.now }
{
    let mut c = crc;
    for byte in bytes {
        c = with_byte(c, *byte);
    }
    c
}

/// The remainder after a length, its low byte first.
fn with_length(crc: u32, size: usize) -> u32
    ensures { result ≡ crc_bytes crc (length_bytes size) }
{
    let mut c = crc;
    let mut n = size;
    while n != 0 {
        c = with_byte(c, (n % 256) as u8);
        n = n / 256;
    }
    c
}

/// The checksum of a file with these bytes: the number that POSIX's `cksum` prints first.
pub fn checksum(bytes: &[u8]) -> u32
    ensures { result ≡ checksum bytes.now }
{
    let c = with_bytes(0, bytes);
    with_length(c, bytes.len()) ^ 0xffffffff
}
