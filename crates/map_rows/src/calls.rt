//! The calls on a map, made, and what they answer and leave written.
use crate::parts::Parts;
use crate::shown::{Burned, Each, Told};
use answers::left::Bytes;
use rows::head::Head;
use selector::{map_reasons, settle_map, slot};
use std::io;
use std::io::Write;

pub(crate) fn slot<W: Write>(out: &mut W, head: Head, map: Parts<'_>) -> io::Result<()> {
    let answer = slot::slot(head.n, map.bytes, map.lengths, head.given as u64);
    writeln!(out, "{}", Told { answer })
}

pub(crate) fn reasons<W: Write>(
    out: &mut W,
    head: Head,
    map: Parts<'_>,
    lent: &mut [u8],
) -> io::Result<()> {
    let a = head.given as u64;
    let told = map_reasons::map_reasons(head.n, map.bytes, map.lengths, a, lent);
    let answer = told.answer;
    let each = told.each;
    writeln!(
        out,
        "{}{}{}",
        Told { answer },
        Each { each },
        Bytes { bytes: lent }
    )
}

/// Settling: what it answers and the work buffer, and the output with the burned lists before it, unless the map is refused.
pub(crate) fn settle<W: Write>(
    out: &mut W,
    n: usize,
    map: Parts<'_>,
    scripts: Parts<'_>,
    work: &mut [u8],
    burned: &mut [u8],
) -> io::Result<()> {
    let settled = settle_map::settle_map(
        n,
        map.bytes,
        map.lengths,
        scripts.bytes,
        scripts.lengths,
        work,
        burned,
    );
    let answer = settled.answer;
    let each = settled.each;
    write!(
        out,
        "{}{}{}",
        Told { answer },
        Each { each },
        Bytes { bytes: work }
    )?;
    if answer.is_ok() {
        let lists = Burned {
            n,
            count: map.lengths.len(),
            lengths: each,
            bytes: burned,
        };
        write!(out, "{lists}")?;
    }
    writeln!(out, "{}", Bytes { bytes: burned })
}
