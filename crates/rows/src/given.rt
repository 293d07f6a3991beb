//! What a row gives its call.
use crate::head::Head;

/// The numbers of a row and its parts.
#[derive(Clone, Copy, Debug)]
pub struct Given<'a> {
    pub head: Head,
    pub first: &'a [u8],
    pub second: &'a [u8],
    pub third: &'a [u8],
}
