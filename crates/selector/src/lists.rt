//! The lists of a map, or their scripts, one after the other.
ghost use Rattle.std.specs.Prelude.{◌≡◌, length, sum};
ghost use Rattle.std.specs.Iterator.{YieldsFirstRef, item_count};
ghost use Rattle.selector.specs.Parts.{parts_of};

/// What is left of the lists of a map: their bytes, end to end, and the length of each.
#[derive(Drop)]
pub(crate) struct Lists<'a> {
    pub(crate) bytes: &'a [u8],
    pub(crate) lengths: &'a [u64],
    pub(crate) ghost fits: { sum lengths.now ≡ length bytes.now },
}

impl<'a> Iterator for Lists<'a> {
    type Item = &'a [u8];

    ghost next_gives = { YieldsFirstRef (λ s. parts_of s.lengths.now s.bytes.now) };

    ghost remaining = { item_count (λ s. parts_of s.lengths.now s.bytes.now) };

    fn next(&mut self) -> Option<&'a [u8]> {
        let (first, lengths) = self.lengths.split_first()?;
        let (list, bytes) = self.bytes.split_at(*first as usize);
        self.bytes = bytes;
        self.lengths = lengths;
        Some(list)
    }
}
