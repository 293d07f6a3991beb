//! What is asked of a map as it is: how large it is, the slot of a label, and why.
use crate::{lists, trues};
use program::label::label_in;
use records::Reason;
use records::place::PLACE_WIDTH;
use selector::{MOST_LISTS, MapRefusal};
use text_files::job::{Job, System};
use text_files::load::Map;
use text_files::told::Told;
use text_files::{buffers, first_records};

/// How large a list of cubes is, and what it costs.
pub fn check_one(rt: &impl Print, n: usize, list: &[u8]) {
    let products = list.len() / cube::list::RECORD_WIDTH;
    let cost = text_files::cost::cost(list);
    let _ = println!(rt; "inputs {n} outputs 1 products {products} cost {cost}");
}

/// How large a map of several outputs is.
pub fn check_shared(rt: &impl Print, map: Map<'_>) {
    let products = map.products.len() / shared::list::SHARED_WIDTH;
    let _ = println!(rt;
        "inputs {} outputs {} products {products}",
        map.inputs, map.outputs
    );
}

/// The places and the products of a list that are true at a label, one a line; and the bit.
pub fn why_one<'a, R: System, E: Print>(
    job: &Job<'a, R, E>,
    n: usize,
    list: &[u8],
) -> Result<(), Told<'a>> {
    let mut places = buffers::places();
    let shown = reasons::reasons(n, list, label_in(job.word), &mut places).map_err(
        |refusal| job.of_label(refusal),
    )?;
    let _ = println!(job.err; "bit {}", shown.bit);
    trues::print(
        job.rt,
        n,
        list,
        first_records(PLACE_WIDTH, shown.count, &places),
    );
    Ok(())
}

/// What is told of a map that is refused: a refusal of one of its lists is one of the label.
fn told_of<'a, R, E>(job: &Job<'a, R, E>, why: MapRefusal) -> Told<'a> {
    match why.list {
        None => job.whole(why.refusal),
        Some(_) => job.of_label(why.refusal),
    }
}

/// The slot of a label, in lists that stand end to end.
fn slot_of<'a, R: System, E: Print>(
    job: &Job<'a, R, E>,
    n: usize,
    bytes: &[u8],
    lengths: &[u64],
) -> Result<(), Told<'a>> {
    let slot = selector::slot::slot(n, bytes, lengths, label_in(job.word)).map_err(|why| told_of(
        job, why,
    ))?;
    let _ = println!(job.rt; "{slot}");
    Ok(())
}

/// The slot of a label in a list of cubes.
pub fn slot_one<'a, R: System, E: Print>(
    job: &Job<'a, R, E>,
    n: usize,
    list: &[u8],
) -> Result<(), Told<'a>> {
    slot_of(job, n, list, &[list.len() as u64])
}

/// The slot of a label, where there are several outputs.
// Not inlined: its buffers are on the stack only while it runs, and not while the map is read.
#[inline(never)]
pub fn slot<'a, R: System, E: Print>(job: &Job<'a, R, E>, map: Map<'_>) -> Result<(), Told<'a>> {
    if MOST_LISTS < map.outputs {
        return Err(job.whole(Reason::NotOneToTwelve.at(0)));
    }
    let mut bytes = lists::buffer();
    let mut lengths = [0u64; MOST_LISTS];
    let all = lists::lists_of(map.outputs, map.products, &mut bytes, &mut lengths);
    slot_of(job, map.inputs, all.bytes, all.lengths)
}

/// Why a label gets its slot, where there are several outputs: each bit, and the places of its products that are true, in the list of its output.
// Not inlined: its buffers are on the stack only while it runs, and not while the map is read.
#[inline(never)]
pub fn why_shared<'a, R: System, E: Print>(
    job: &Job<'a, R, E>,
    map: Map<'_>,
) -> Result<(), Told<'a>> {
    if MOST_LISTS < map.outputs {
        return Err(job.whole(Reason::NotOneToTwelve.at(0)));
    }
    let mut bytes = lists::buffer();
    let mut lengths = [0u64; MOST_LISTS];
    let all = lists::lists_of(map.outputs, map.products, &mut bytes, &mut lengths);
    let mut places = buffers::map_places();
    let a = label_in(job.word);
    let told = selector::map_reasons::map_reasons(
        map.inputs,
        all.bytes,
        all.lengths,
        a,
        &mut places,
    );
    let slot = told.answer.map_err(|why| told_of(job, why))?;
    selector_files::print::shown(job.rt, slot, &told.each[..all.lengths.len()], &places);
    Ok(())
}
