//! The commands of the program `druthmoy`, on maps and scripts as text.
#![tactic(auto)]

ghost use Rattle.std.specs.Prelude.{◌≤◌};

use asked::ask;
use command_words::help;
use command_words::verb::Verb;
use packed::binary;
use records::Reason;
use rewritten::{rewrite, settle};
use sheet::page;
use std::env::FillError;
use std::rt::Env;
use text_files::job::{Job, System};
use text_files::load::Map;
use text_files::told::Told;
use text_files::{buffers, first_records, load};

/// Bytes of a word, at most.
const WORD_BYTES: usize = 4096;

/// What a command does with a map of several outputs, whose products are records of 12 bytes.
fn on_shared<'a, R: System, E: Print>(
    job: &Job<'a, R, E>,
    verb: Verb,
    map: Map<'_>,
) -> Result<(), Told<'a>> {
    match verb {
        Verb::Settle => settle::shared(job, map),
        Verb::Check => {
            ask::check_shared(job.rt, map);
            Ok(())
        }
        Verb::Why => ask::why_shared(job, map),
        Verb::Slot => ask::slot(job, map),
        Verb::Pack => binary::pack(job, map.products),
        Verb::Sheet => page::shared(job, map),
        _ => Err(job.whole(Reason::NotOneOutput.at(0))),
    }
}

/// The same with a map of one output, whose products are records of 8 bytes.
fn on_one<'a, R: System, E: Print>(
    job: &Job<'a, R, E>,
    verb: Verb,
    n: usize,
    list: &[u8],
) -> Result<(), Told<'a>> {
    match verb {
        Verb::Settle => settle::one(job, n, list),
        Verb::Check => {
            ask::check_one(job.rt, n, list);
            Ok(())
        }
        Verb::Why => ask::why_one(job, n, list),
        Verb::Slot => ask::slot_one(job, n, list),
        Verb::Easy => rewrite::easy(job, n, list),
        Verb::Compact => rewrite::compact(job, n, list),
        Verb::Tree => rewrite::tree(job, n, list),
        Verb::Best => rewrite::best(job, n, list),
        Verb::Pack => binary::pack(job, list),
        Verb::PackNarrow => binary::pack_narrow(job, n, list),
        Verb::Sheet => page::one(job, n, list),
        Verb::Unpack | Verb::UnpackNarrow | Verb::UnpackShared | Verb::Help => Ok(()),
    }
}

/// The map of the first word, and what the command does with it. A product in no output is not among the records of a map of one output.
fn on_map<'a, R: System, E: Print>(job: &Job<'a, R, E>, verb: Verb) -> Result<(), Told<'a>> {
    let mut products = buffers::shares();
    let map = load::map_of(job.rt, job.file, &mut products)?;
    if map.outputs != 1 {
        return on_shared(job, verb, map);
    }
    let mut cubes = buffers::cubes();
    match outputs::list_of(0, map.products, &mut cubes) {
        Ok(count) => on_one(
            job,
            verb,
            map.inputs,
            first_records(cube::list::RECORD_WIDTH, count, &cubes),
        ),
        Err(_) => Ok(()),
    }
}

/// A command that takes its words.
fn perform<'a, R: System, E: Print>(job: &Job<'a, R, E>, verb: Verb) -> Result<(), Told<'a>> {
    match verb {
        Verb::Help => {
            let _ = job.rt.print(help::COMMANDS);
            Ok(())
        }
        Verb::Unpack | Verb::UnpackNarrow | Verb::UnpackShared => binary::unpack(job, verb),
        _ => on_map(job, verb),
    }
}

/// A command with the words after it. A word that has no byte is too long, or empty.
fn with_words<R: System, E: Print>(rt: &R, err: &E, verb: Verb, words: &[&[u8]]) {
    if !verb.takes(words.len()) {
        let _ = err.println(help::MISUSED);
        return;
    }
    if words.iter().take(2).any(|word| word.is_empty()) {
        let _ = err.println(help::BAD_WORD);
        return;
    }
    let job = Job {
        rt,
        err,
        file: words.first().copied().unwrap_or(b""),
        word: words.get(1).copied().unwrap_or(b""),
    };
    if let Err(told) = perform(&job, verb) {
        let _ = told.tell(err);
    }
}

/// A command by its name, with the words after it: standard output gets what it makes, and err what it says beside.
pub fn command<R: System, E: Print>(rt: &R, err: &E, name: &[u8], words: &[&[u8]]) {
    let Some(verb) = Verb::of_word(name) else {
        let _ = err.println(help::MISUSED);
        return;
    };
    if let Some((option, rest)) = words.split_first() {
        if let Some(verb) = verb.with_option(option) {
            with_words(rt, err, verb, rest);
            return;
        }
    }
    with_words(rt, err, verb, words);
}

/// Word i that the program was started with, at the front of a buffer: it has no byte where it is missing or longer than the buffer.
fn word_of<'a, R: Env>(rt: &R, i: usize, buffer: &'a mut [u8]) -> &'a [u8] {
    match rt.arg(i, buffer) {
        Ok(end) => &buffer[..end],
        Err(_) => &[],
    }
}

/// How many words the program was started with, its own name among them; so many at most.
fn words_among<R: Env>(rt: &R, most: usize) -> usize
    ensures { result ≤ most }
{
    let mut byte = [0u8; 1];
    for i in 0..most {
        if let Err(FillError::NotPresent) = rt.arg(i, &mut byte) {
            return i;
        }
    }
    most
}

/// Words that the program looks for, its own name and the command's among them: one more than a command has use for, which is only counted.
const MOST_WORDS: usize = 6;

/// The program: its arguments.
pub fn run<R: System + Env, E: Print>(rt: &R, err: &E) {
    let mut name = [0u8; WORD_BYTES];
    let mut first = [0u8; WORD_BYTES];
    let mut second = [0u8; WORD_BYTES];
    let mut third = [0u8; WORD_BYTES];
    let words = [
        word_of(rt, 2, &mut first),
        word_of(rt, 3, &mut second),
        word_of(rt, 4, &mut third),
        b"",
    ];
    match words_among(rt, MOST_WORDS) {
        0 | 1 => {
            let _ = err.println(help::MISUSED);
        }
        count => command(rt, err, word_of(rt, 1, &mut name), &words[..count - 2]),
    }
}
