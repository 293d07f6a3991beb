//! Bytes that are a bit each, into the bits of a word and back.

ghost use Rattle.std.specs.Prelude.{◌≡◌, ◌++◌, ℕ, min, ◌+◌, ◌-◌, ◌*◌, ◌%◌, ◌^◌, ◌<◌, ◌≤◌, leb, length, get_or, take, drop};
ghost use Rattle.bits.specs.Bits.{bit};
ghost use Rattle.bits.specs.Below.{all_below, sum_below, list_below};
ghost use Rattle.bits.specs.Packed.{byte_of, number_of, spread_bits, word_from};

/// Bits of a word.
const WORD_BITS: usize = 64;

/// How many of the 64 bytes from `from` on there are.
fn bytes_from(size: usize, from: usize) -> usize
    ensures { result ≡ min (size - from) 64 }
{
    size.saturating_sub(from).min(WORD_BITS)
}

/// The bytes as one number, the first lowest. Of a part of eight the compiler makes one load.
fn number(part: &[u8]) -> u64
    requires { length part.now ≤ 8 }
    ensures { result ≡ number_of part.now }
{
    let mut x: u64 = 0;
    for j in 0..part.len() {
        x |= u64::from(part[j]) << (8 * j);
    }
    x
}

/// The lowest bit of each of eight bytes.
const LOWEST: u64 = 0x0101010101010101;

/// The bits of eight bytes above the lowest of each.
const ABOVE: u64 = 0xfefefefefefefefe;

/// Whether each of eight bytes is 0 or 1.
pub fn eight_bits(part: &[u8]) -> bool
    requires { length part.now ≡ 8 }
    ensures { result ≡ all_below 8 (λ i. leb (get_or part.now i 0) 1) }
{
    number(part) & ABOVE == 0
}

/// Eight bits that stand a byte each come together: by twos, by fours, then all.
fn gather(x: u64) -> u64
    ensures { (y : ℕ) → y < 256 → x ≡ spread_bits 8 y → result ≡ y }
{
    let twos = (x | (x >> 7)) & 0x0003000300030003;
    let fours = (twos | (twos >> 14)) & 0x0000000f0000000f;
    (fours | (fours >> 28)) & 0x00000000000000ff
}

/// The lowest bit of each of eight bytes.
fn pack_eight(part: &[u8]) -> u64
    requires { length part.now ≡ 8 }
    ensures { result ≡ sum_below 8 (λ i. get_or part.now i 0 % 2 * 2 ^ i) }
{
    gather(number(part) & LOWEST)
}

/// The lowest bit of each of the 64 bytes from `from` on; 0 past the end.
pub fn pack_word(bytes: &[u8], from: usize) -> u64
    requires { from ≤ 192 }
    ensures { result ≡ word_from bytes.now from }
{
    let size = bytes_from(bytes.len(), from);
    let eights = size / 8;
    let mut w: u64 = 0;
    for k in 0..eights {
        let at = from + 8 * k;
        w |= pack_eight(&bytes[at..at + 8]) << (8 * k);
    }
    for j in 8 * eights..size {
        w |= u64::from(bytes[from + j] % 2) << j;
    }
    w
}

/// Four bits, a byte each: copies of x, seven bits apart, of which each byte keeps its lowest bit. It goes by the bits that are not set, since
/// of x itself the compiler takes the last byte from the product, before the mask, and then stores byte by byte.
fn spread(x: u32) -> u32
    requires { x < 16 }
    ensures { result ≡ spread_bits 4 x }
{
    (((15 - x) * 0x00204081) & 0x01010101) ^ 0x01010101
}

/// The bytes of a number, the lowest first. To a part of four the compiler makes one store.
fn put_number(x: u32, part: &mut [u8])
    requires { length part.old ≤ 4 }
    ensures { part.new ≡ list_below (length part.old) (byte_of x) }
{
    for j in 0..part.len() {
        part[j] = ((x >> (8 * j)) % 256) as u8;
    }
}

/// The bits of a word, a byte each. The part is exactly as long as what is written, so that the loops need no test of the place.
pub fn put_bits(w: u64, part: &mut [u8])
    requires { length part.old ≤ 64 }
    ensures { part.new ≡ list_below (length part.old) (bit w) }
{
    let fours = part.len() / 4;
    for k in 0..fours {
        let at = 4 * k;
        let four = spread(((w >> at) % 16) as u32);
        put_number(four, &mut part[at..at + 4]);
    }
    for j in 4 * fours..part.len() {
        part[j] = ((w >> j) % 2) as u8;
    }
}

/// The bits of a word to the bytes from `from` on, as many as there are.
pub(crate) fn put_word(w: u64, out: &mut [u8], from: usize)
    requires { from ≤ 192 }
    ensures { out.new ≡ take from out.old ++ (list_below (min (length out.old - from) 64) (bit w) ++ drop (from + 64) out.old) }
{
    let size = bytes_from(out.len(), from);
    if size == 0 {
        return;
    }
    let end = from + size;
    put_bits(w, &mut out[from..end]);
}
