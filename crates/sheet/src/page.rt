//! What stands on the sheet.
use crate::sentences;
use cube::list::RECORD_WIDTH;
use polarity::BestPolarity;
use rewritten::rewrite::{form_of, vector_of};
use settling::Settlement;
use text_files::job::{Job, System};
use text_files::load::Map;
use text_files::told::Told;
use text_files::{buffers, first_records, load};

/// A text as it is.
fn put(rt: &impl Print, text: &str) {
    let _ = rt.print(text);
}

/// The checksum of a list's bytes, and how many there are, as cksum prints them.
fn sum(rt: &impl Print, list: &[u8]) {
    let checksum = cksum::checksum(list);
    let _ = println!(rt; "  cksum     {checksum} {}", list.len());
}

/// A list of cubes.
fn cubes(rt: &impl Print, list: &[u8]) {
    let _ = println!(rt; "  products  {}", list.len() / RECORD_WIDTH);
    let _ = println!(rt; "  cost      {}", text_files::cost::cost(list));
    sum(rt, list);
}

/// A list of shared products.
fn shares(rt: &impl Print, list: &[u8]) {
    let _ = println!(rt; "  products  {}", list.len() / shared::list::SHARED_WIDTH);
    sum(rt, list);
}

/// The files, and the number of inputs and outputs. The names of the files need not be text.
fn heading<R: System, E: Print>(job: &Job<'_, R, E>, n: usize, m: usize) {
    let rt = job.rt;
    put(rt, "Sheet of a settled map\n\nmap         ");
    let _ = rt.write_all(job.file);
    put(rt, "\nscript      ");
    if job.word.is_empty() {
        put(rt, "none");
    } else {
        let _ = rt.write_all(job.word);
    }
    let _ = println!(rt; "\ninputs      {n}\noutputs     {m}");
}

/// What the script did.
fn of_script(rt: &impl Print, script: &[u8], peak: usize) {
    let steps = script.len() / script::check::STEP_WIDTH;
    let _ = println!(rt; "\nscript\n  steps     {steps}\n  peak      {peak}");
}

/// Whether a list is the one that the script ends in.
fn is_result(n: usize, list: &[u8], script: &[u8], burned: &[u8]) -> bool {
    let mut work = buffers::cubes();
    match script::run::run(n, list, script, &mut work) {
        Ok(ran) => first_records(RECORD_WIDTH, ran.count, &work) == burned,
        Err(_) => false,
    }
}

/// Whether a list is the form of the best polarity, where that was looked for.
fn is_form<'a, R: System, E: Print>(
    job: &Job<'a, R, E>,
    n: usize,
    list: &[u8],
    fixed: Option<BestPolarity>,
    burned: &[u8],
) -> Result<bool, Told<'a>> {
    match fixed {
        None => Ok(false),
        Some(found) => {
            let mut vector = buffers::vector();
            let vector = vector_of(job, n, list, &mut vector)?;
            let mut form = buffers::cubes();
            Ok(form_of(n, vector, found.polarity, &mut form) == burned)
        }
    }
}

/// Which candidate the burned list is: the first of the script's result, the given list, the best polarity's form and the cheapest tree's list that has its bytes. So
/// settling chooses too: of candidates that count as much, the first is burned.
fn by<'a, R: System, E: Print>(
    job: &Job<'a, R, E>,
    n: usize,
    list: &[u8],
    script: &[u8],
    fixed: Option<BestPolarity>,
    burned: &[u8],
) -> Result<&'static str, Told<'a>> {
    if is_result(n, list, script, burned) {
        return Ok("the list that the script ends in");
    }
    if list == burned {
        return Ok("the given list");
    }
    if is_form(job, n, list, fixed, burned)? {
        return Ok("the form of the best polarity");
    }
    Ok("the list of the cheapest tree")
}

fn best(rt: &impl Print, fixed: Option<BestPolarity>) {
    match fixed {
        Some(found) => {
            let _ = println!(rt;
                "\nbest polarity {}, products of its form {}",
                found.polarity, found.products
            );
        }
        None => {
            put(
                rt,
                "\nbest polarity: not looked for, there are more than 8 inputs\n",
            );
        }
    }
}

/// The page below its heading, of a map of one output.
fn settled_one<'a, R: System, E: Print>(
    job: &Job<'a, R, E>,
    n: usize,
    list: &[u8],
    script: &[u8],
    settled: Settlement,
    burned: &[u8],
) -> Result<(), Told<'a>> {
    let rt = job.rt;
    let by = by(job, n, list, script, settled.fixed, burned)?;
    heading(job, n, 1);
    put(rt, "\ngiven\n");
    cubes(rt, list);
    of_script(rt, script, settled.peak);
    let _ = println!(rt; "\nburned: {by}");
    cubes(rt, burned);
    best(rt, settled.fixed);
    put(rt, sentences::SUMS);
    put(rt, sentences::OF_ONE);
    if n <= cube::value::VECTOR_VARIABLES {
        put(rt, sentences::OF_FEW);
    }
    put(rt, sentences::OF_TEXT);
    Ok(())
}

/// The sheet of a map of one output.
pub fn one<'a, R: System, E: Print>(
    job: &Job<'a, R, E>,
    n: usize,
    list: &[u8],
) -> Result<(), Told<'a>> {
    let rt = job.rt;
    let mut script = buffers::steps();
    let script = load::steps(rt, job.word, &mut script)?;
    let mut work = buffers::cubes();
    let mut out = buffers::cubes();
    let settled = settling::settle::settle(n, list, script, &mut work, &mut out).map_err(
        |refusal| load::refused_step(rt, job.word, refusal),
    )?;
    let burned = first_records(RECORD_WIDTH, settled.burned, &out);
    settled_one(job, n, list, script, settled, burned)
}

/// The sheet of a map of several outputs.
// Not inlined: its buffers are on the stack only while it runs, and not while the map is read.
#[inline(never)]
pub fn shared<'a, R: System, E: Print>(job: &Job<'a, R, E>, map: Map<'_>) -> Result<(), Told<'a>> {
    let rt = job.rt;
    let mut script = buffers::steps();
    let script = load::steps(rt, job.word, &mut script)?;
    let mut work = buffers::shares();
    let mut out = buffers::shares();
    let s = shared_run::settle::settle(
        map.inputs,
        map.products,
        script,
        &mut work,
        &mut out,
    ).map_err(|refusal| load::refused_step(rt, job.word, refusal))?;
    heading(job, map.inputs, map.outputs);
    put(rt, "\ngiven\n");
    shares(rt, map.products);
    of_script(rt, script, s.peak);
    if s.script <= s.given {
        put(rt, "\nburned: the list that the script ends in\n");
    } else {
        put(rt, "\nburned: the given list\n");
    }
    shares(
        rt,
        first_records(shared::list::SHARED_WIDTH, s.burned, &out),
    );
    put(rt, sentences::SUMS);
    put(rt, sentences::OF_SHARED);
    put(rt, sentences::OF_TEXT);
    Ok(())
}
