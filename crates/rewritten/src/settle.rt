//! Settling: the counts beside standard output, and the burned list to it.
use map_files::counts::Counts;
use text_files::job::{Job, System};
use text_files::load::Map;
use text_files::told::Told;
use text_files::{buffers, first_records, load, show};

/// A map of one output.
pub fn one<'a, R: System, E: Print>(
    job: &Job<'a, R, E>,
    n: usize,
    list: &[u8],
) -> Result<(), Told<'a>> {
    let rt = job.rt;
    let mut script = buffers::steps();
    let script = load::steps(rt, job.word, &mut script)?;
    let mut work = buffers::cubes();
    let mut out = buffers::cubes();
    let settled = settling::settle::settle(n, list, script, &mut work, &mut out).map_err(
        |refusal| load::refused_step(rt, job.word, refusal),
    )?;
    let _ = println!(job.err; "{}", Counts(settled));
    show::cubes(
        rt,
        n,
        first_records(cube::list::RECORD_WIDTH, settled.burned, &out),
    )
}

/// A map of several outputs, as shared products.
// Not inlined: its buffers are on the stack only while it runs, and not while the map is read.
#[inline(never)]
pub fn shared<'a, R: System, E: Print>(job: &Job<'a, R, E>, map: Map<'_>) -> Result<(), Told<'a>> {
    let rt = job.rt;
    let mut script = buffers::steps();
    let script = load::steps(rt, job.word, &mut script)?;
    let mut work = buffers::shares();
    let mut out = buffers::shares();
    let s = shared_run::settle::settle(
        map.inputs,
        map.products,
        script,
        &mut work,
        &mut out,
    ).map_err(|refusal| load::refused_step(rt, job.word, refusal))?;
    let _ = println!(job.err;
        "in {} peak {} script {} out {}",
        s.given, s.peak, s.script, s.burned
    );
    let burned = first_records(shared::list::SHARED_WIDTH, s.burned, &out);
    show::shares(rt, map.inputs, map.outputs, burned)
}
