//! Shared products, each shown as its cube and, after a stroke, its outputs.
use answers::left::{Bytes, Spelt, is_whole};
use shared::list;
use std::fmt;

/// A lent buffer: the shared products that stand in it, where a call counted them and it is shown whole, and its bytes.
#[derive(Clone, Copy, Debug)]
pub(crate) struct Products<'a> {
    pub n: usize,
    pub count: Option<usize>,
    pub bytes: &'a [u8],
}

/// So many products of a list.
fn show<W: fmt::Write>(
    f: &mut fmt::Formatter<W>,
    n: usize,
    count: usize,
    bytes: &[u8],
) -> fmt::Result {
    f.write_str(" :")?;
    for i in 0..count.min(bytes.len() / list::SHARED_WIDTH) {
        let product = list::record_at(bytes, i);
        let cube = product.cube;
        write!(f, " {}/{}", Spelt { n, cube }, product.outputs)?;
    }
    Ok(())
}

impl fmt::Display for Products<'_> {
    fn fmt<W: fmt::Write>(&self, f: &mut fmt::Formatter<W>) -> fmt::Result {
        let bytes = self.bytes;
        if let Some(count) = self.count
            && is_whole(bytes)
        {
            show(f, self.n, count, bytes)?;
        }
        write!(f, "{}", Bytes { bytes })
    }
}
