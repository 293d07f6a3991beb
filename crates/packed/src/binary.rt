//! Lists as records, in files.
use command_words::verb::Verb;
use program::{file, line};
use records::Reason;
use text_files::job::{Job, System};
use text_files::told::{Told, Trouble};
use text_files::{buffers, first_records, load, show};

/// A list's bytes, written to the file that the command names, in place of what it had.
pub fn pack<'a, R: System, E: Print>(job: &Job<'a, R, E>, list: &[u8]) -> Result<(), Told<'a>> {
    file::save(job.rt, job.word, list).map_err(|_| Told::OfFile(job.word, Trouble::NotWritten))
}

/// The same in old records, of 4 bytes.
pub fn pack_narrow<'a, R: System, E: Print>(
    job: &Job<'a, R, E>,
    n: usize,
    list: &[u8],
) -> Result<(), Told<'a>> {
    let mut narrow = buffers::cubes();
    let count = converters::narrow_from_wide::narrow_from_wide(n, list, &mut narrow).map_err(
        |refusal| job.whole(refusal),
    )?;
    pack(
        job,
        first_records(converters::narrow::NARROW_WIDTH, count, &narrow),
    )
}

/// The outputs that some product of a list is in.
fn all_outputs(list: &[u8]) -> u32 {
    let mut all = 0;
    for i in 0..list.len() / shared::list::SHARED_WIDTH {
        all |= shared::list::record_at(list, i).outputs;
    }
    all
}

/// How many outputs there are: one more than the greatest of these, and at least one.
fn outputs_of(all: u32) -> usize {
    (32 - all.leading_zeros()).max(1) as usize
}

/// The list of a file of records, as text.
fn of_list<'a, R: System, E: Print>(
    job: &Job<'a, R, E>,
    verb: Verb,
    n: usize,
    list: &[u8],
) -> Result<(), Told<'a>> {
    let rt = job.rt;
    let refused = |refusal| Told::OfFile(job.word, Trouble::AtRecord(refusal));
    match verb {
        Verb::UnpackNarrow => {
            let mut wide = buffers::cubes();
            let count = converters::wide_from_narrow::wide_from_narrow(n, list, &mut wide).map_err(
                refused,
            )?;
            show::cubes(rt, n, first_records(cube::list::RECORD_WIDTH, count, &wide))
        }
        Verb::UnpackShared => {
            shared::list::check(n, list).map_err(refused)?;
            show::shares(rt, n, outputs_of(all_outputs(list)), list)
        }
        _ => {
            cube::list::check(n, list).map_err(refused)?;
            show::cubes(rt, n, list)
        }
    }
}

/// A file of records, as text: the number of variables and the file are the command's words.
pub fn unpack<'a, R: System, E: Print>(job: &Job<'a, R, E>, verb: Verb) -> Result<(), Told<'a>> {
    let Some(n) = line::variables_in(job.file) else {
        let refusal = Reason::TooManyVariables.at(0);
        return Err(Told::OfFile(job.word, Trouble::Whole(refusal)));
    };
    let mut list = buffers::packed();
    let list = load::bytes(job.rt, job.word, &mut list)?;
    of_list(job, verb, n, list)
}
