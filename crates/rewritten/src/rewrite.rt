//! Other lists and scripts: the easy script, the script without steps that undo each other, the cheapest tree, the best polarity.
use cube::list::RECORD_WIDTH;
use script::check::STEP_WIDTH;
use text_files::cost::cost;
use text_files::job::{Job, System};
use text_files::told::Told;
use text_files::{buffers, first_records, load, show};

/// The easy script, as text; how many steps it has, and whether no pair is left, beside it.
pub fn easy<'a, R: System, E: Print>(
    job: &Job<'a, R, E>,
    n: usize,
    list: &[u8],
) -> Result<(), Told<'a>> {
    let rt = job.rt;
    let mut work = buffers::cubes();
    let mut script = buffers::steps();
    let written = writer::write::write_script(n, list, &mut work, &mut script).map_err(
        |refusal| job.whole(refusal),
    )?;
    let finished = written.finished as u8;
    let _ = println!(job.err; "steps {} finished {finished}", written.steps);
    show::steps(rt, first_records(STEP_WIDTH, written.steps, &script))
}

/// A script for lists of as many products as this one, without steps that undo each other.
pub fn compact<'a, R: System, E: Print>(
    job: &Job<'a, R, E>,
    n: usize,
    list: &[u8],
) -> Result<(), Told<'a>> {
    let rt = job.rt;
    let mut script = buffers::steps();
    let script = load::steps(rt, job.word, &mut script)?;
    let mut out = buffers::steps();
    let left = compactor::compact::compact(n, list.len() / RECORD_WIDTH, script, &mut out).map_err(
        |refusal| load::refused_step(rt, job.word, refusal),
    )?;
    let _ = println!(job.err; "steps {} left {left}", script.len() / STEP_WIDTH);
    show::steps(rt, first_records(STEP_WIDTH, left, &out))
}

/// The truth vector of a list, in a buffer.
pub fn vector_of<'a, 'b, R: System, E: Print>(
    job: &Job<'a, R, E>,
    n: usize,
    list: &[u8],
    vector: &'b mut [u8],
) -> Result<&'b [u8], Told<'a>> {
    let size = cube::value::truth_vector(n, list, vector).map_err(|refusal| job.whole(refusal))?;
    Ok(first_records(1, size, vector))
}

/// The list of the cheapest tree.
pub fn tree<'a, R: System, E: Print>(
    job: &Job<'a, R, E>,
    n: usize,
    list: &[u8],
) -> Result<(), Told<'a>> {
    let mut vector = buffers::vector();
    let vector = vector_of(job, n, list, &mut vector)?;
    let mut out = buffers::cubes();
    let tree = trees::tree::write_tree(n, vector, &mut out).map_err(|refusal| job.whole(refusal))?;
    let written = first_records(RECORD_WIDTH, tree.products, &out);
    let _ = println!(job.err;
        "products {} cost {}",
        written.len() / RECORD_WIDTH,
        cost(written)
    );
    show::cubes(job.rt, n, written)
}

/// The form of a polarity, as records in a buffer; it has none where it is refused.
pub fn form_of<'a>(n: usize, vector: &[u8], p: usize, form: &'a mut [u8]) -> &'a [u8] {
    let mut coefficients = buffers::vector();
    let size = vector.len().min(coefficients.len());
    let coefficients = &mut coefficients[..size];
    let _ = polarity::transform::coefficients(n, vector, p as u64, coefficients);
    let products = polarity::form::write_form(n, coefficients, p as u64, form).unwrap_or(0);
    first_records(RECORD_WIDTH, products, form)
}

/// The form of the best polarity.
pub fn best<'a, R: System, E: Print>(
    job: &Job<'a, R, E>,
    n: usize,
    list: &[u8],
) -> Result<(), Told<'a>> {
    let mut vector = buffers::vector();
    let vector = vector_of(job, n, list, &mut vector)?;
    let best = polarity::choose::best_polarity(n, vector).map_err(|refusal| job.whole(refusal))?;
    let p = best.polarity;
    let mut form = buffers::cubes();
    let form = form_of(n, vector, p, &mut form);
    let products = form.len() / RECORD_WIDTH;
    let _ = println!(job.err; "polarity {p} products {products} cost {}", cost(form));
    show::cubes(job.rt, n, form)
}
