//! The lists or the scripts of a map's bits.
ghost use Rattle.std.specs.Prelude.{◌≤◌, length};
ghost use Rattle.selector.specs.Maps.{most_lists};

/// The lists or the scripts of a map's bits, at most twelve, end to end, with their lengths.
#[derive(Clone, Copy)]
pub struct Bits<'a> {
    pub bytes: &'a [u8],
    pub lengths: &'a [u64],
    pub ghost few: { length lengths.now ≤ most_lists },
}
