//! Parts of a buffer from its front on.
ghost use Rattle.std.specs.Prelude.{◌≡◌, ◌*◌, take, drop};

/// The first so many bytes, and those after them; all and none where there are fewer.
pub fn split(size: usize, bytes: &[u8]) -> (&[u8], &[u8])
    ensures front { result.0.now ≡ take size bytes.now }
    ensures back { result.1.now ≡ drop size bytes.now }
{
    bytes.split_at(bytes.len().min(size))
}

/// The first so many records, each of so many bytes; all bytes where there are fewer.
pub fn first_records(width: usize, count: usize, bytes: &[u8]) -> &[u8]
    ensures { result.now ≡ take (count * width) bytes.now }
{
    &bytes[..bytes.len().min(count.saturating_mul(width))]
}
