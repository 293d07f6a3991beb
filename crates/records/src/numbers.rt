//! Numbers of two and of four bytes on a slice, the low byte first. A byte past the end is read as 0 and not stored. The compiler reads or stores
//! them at once where it knows the slice's length, as of a part `&s[at..at + 4]`.
ghost use Rattle.std.specs.Prelude.{◌≡◌, ◌+◌, ◌*◌, ◌≤◌, length};
ghost use Rattle.std.proofs.lemmas.List.Edits.{sets};
ghost use Rattle.records.specs.Numbers.{byte_size, bytes_of, number_at};

/// How many numbers one byte holds.
const BYTE: u32 = 256;

/// How many numbers two bytes hold.
const TWO_BYTES: u32 = 65536;

/// The number of two bytes.
fn pair(low: u8, high: u8) -> u16
    ensures { result ≡ low + byte_size * high }
{
    (low as u32 + BYTE * (high as u32)) as u16
}

fn byte_at(b: &[u8], p: usize) -> u8
    ensures { result ≡ number_at 1 b.now p }
{
    if b.len() <= p {
        return 0;
    }
    b[p]
}

fn put_byte(b: &mut [u8], p: usize, x: u8)
    ensures { b.new ≡ sets b.old p (bytes_of 1 x) }
{
    if p < b.len() {
        b[p] = x;
    }
}

/// The number of two bytes that are there.
fn two_at(b: &[u8], p: usize) -> u16
    requires { p + 2 ≤ length b.now }
    ensures { result ≡ number_at 2 b.now p }
{
    pair(b[p], b[p + 1])
}

/// The number of four bytes that are there. They meet in the result of a function of its own, because only then does the compiler read them by one load.
fn four_at(b: &[u8], p: usize) -> u32
    requires { p + 4 ≤ length b.now }
    ensures { result ≡ number_at 4 b.now p }
{
    two_at(b, p) as u32 + TWO_BYTES * (two_at(b, p + 2) as u32)
}

/// A number stored where its two bytes are there.
fn put_two(b: &mut [u8], p: usize, x: u16)
    requires { p + 2 ≤ length b.old }
    ensures { b.new ≡ sets b.old p (bytes_of 2 x) }
{
    let y = x as u32;
    b[p] = (y % BYTE) as u8;
    b[p + 1] = (y / BYTE) as u8;
}

/// A number stored where its four bytes are there: likewise by one store.
fn put_four(b: &mut [u8], p: usize, x: u32)
    requires { p + 4 ≤ length b.old }
    ensures { b.new ≡ sets b.old p (bytes_of 4 x) }
{
    put_two(b, p, (x % TWO_BYTES) as u16);
    put_two(b, p + 2, (x / TWO_BYTES) as u16);
}

/// The number of the two bytes from byte p on.
// Stays: a function for each width; the result is a u16 or a u32, and the four bytes are read and stored as two and two, from which the compiler makes one load or store.
pub fn number2_at(b: &[u8], p: usize) -> u16
    ensures { result ≡ number_at 2 b.now p }
{
    if b.len() <= p {
        return 0;
    }
    pair(byte_at(b, p), byte_at(b, p + 1))
}

/// The number of the four bytes from byte p on.
pub fn number4_at(b: &[u8], p: usize) -> u32
    ensures { result ≡ number_at 4 b.now p }
{
    if b.len() <= p {
        return 0;
    }
    if 4 <= b.len() - p {
        return four_at(b, p);
    }
    number2_at(b, p) as u32 + TWO_BYTES * (number2_at(b, p + 2) as u32)
}

/// The two bytes of a number stored from byte p on.
pub fn put_number2(b: &mut [u8], p: usize, x: u16)
    ensures { b.new ≡ sets b.old p (bytes_of 2 x) }
{
    if b.len() <= p {
        return;
    }
    let y = x as u32;
    put_byte(b, p, (y % BYTE) as u8);
    put_byte(b, p + 1, (y / BYTE) as u8);
}

/// The four bytes of a number stored from byte p on.
pub fn put_number4(b: &mut [u8], p: usize, x: u32)
    ensures { b.new ≡ sets b.old p (bytes_of 4 x) }
{
    if b.len() <= p {
        return;
    }
    if 4 <= b.len() - p {
        put_four(b, p, x);
        return;
    }
    put_number2(b, p, (x % TWO_BYTES) as u16);
    put_number2(b, p + 2, (x / TWO_BYTES) as u16);
}
