//! The call that a row names.
use crate::reader::{Reader, RowError};

/// A call that takes a list or a script.
#[derive(Clone, Copy, Debug, PartialEq, Eq)]
pub enum ListCall {
    Check,
    Value,
    Reasons,
    Vector,
    Run,
    Write,
    Compact,
    Wide,
    Narrow,
}

/// A call that makes or takes an index.
#[derive(Clone, Copy, Debug, PartialEq, Eq)]
pub enum IndexCall {
    Index,
    Group,
    Indexed,
}

/// A call on shared products.
#[derive(Clone, Copy, Debug, PartialEq, Eq)]
pub enum SharedCall {
    Run,
    Settle,
    Check,
    Value,
}

/// A call that takes a vector or coefficients.
#[derive(Clone, Copy, Debug, PartialEq, Eq)]
pub enum BitsCall {
    Test,
    Best,
    Form,
    Coefficients,
    Back,
    Tree,
    Kronecker,
}

/// The calls of the table.
#[derive(Clone, Copy, Debug, PartialEq, Eq)]
pub enum Call {
    OnList(ListCall),
    OnIndex(IndexCall),
    Settle,
    OnShared(SharedCall),
    OnBits(BitsCall),
}

/// The names of the calls. A row that has none of them can't be read from where it leaves the last one that begins as it does.
const NAMES: [(&[u8], Call); 24] = [
    (b"check ", Call::OnList(ListCall::Check)),
    (b"compact ", Call::OnList(ListCall::Compact)),
    (b"coefficients ", Call::OnBits(BitsCall::Coefficients)),
    (b"shared run ", Call::OnShared(SharedCall::Run)),
    (b"shared settle ", Call::OnShared(SharedCall::Settle)),
    (b"shared check ", Call::OnShared(SharedCall::Check)),
    (b"shared value ", Call::OnShared(SharedCall::Value)),
    (b"settle ", Call::Settle),
    (b"form ", Call::OnBits(BitsCall::Form)),
    (b"kronecker ", Call::OnBits(BitsCall::Kronecker)),
    (b"value ", Call::OnList(ListCall::Value)),
    (b"vector ", Call::OnList(ListCall::Vector)),
    (b"wide ", Call::OnList(ListCall::Wide)),
    (b"write ", Call::OnList(ListCall::Write)),
    (b"narrow ", Call::OnList(ListCall::Narrow)),
    (b"best ", Call::OnBits(BitsCall::Best)),
    (b"back ", Call::OnBits(BitsCall::Back)),
    (b"run ", Call::OnList(ListCall::Run)),
    (b"reasons ", Call::OnList(ListCall::Reasons)),
    (b"test ", Call::OnBits(BitsCall::Test)),
    (b"tree ", Call::OnBits(BitsCall::Tree)),
    (b"index ", Call::OnIndex(IndexCall::Index)),
    (b"indexed ", Call::OnIndex(IndexCall::Indexed)),
    (b"group ", Call::OnIndex(IndexCall::Group)),
];

impl Reader<'_> {
    /// Takes the name of a call at the front of the row.
    pub fn call(&mut self) -> Result<Call, RowError> {
        let mut place = 0;
        for (name, call) in NAMES {
            if self.skip(name) {
                return Ok(call);
            }
            let common = self.common(name);
            if 0 < common {
                place = common;
            }
        }
        Err(RowError::Unread { place })
    }
}
