//! The calls that crate druthmoy_c exports for C and Rust: every answer is eight words.
#![tactic(auto)]

// Stays: a function for each call: the C interface, and the theorems of promises cite each by its path.
pub mod maps;

ghost use Rattle.std.specs.Prelude.{◌≡◌, length, get_or};
ghost use Rattle.records.specs.Answers.{after_call};
ghost use Rattle.cube.specs.Lists.{cubes_of, most_variables};
ghost use Rattle.cube.specs.Calls.{check_list, value_outcome, vector_outcome, vector_after};
ghost use Rattle.reasons.specs.Calls.{reasons_outcome, reasons_after};
ghost use Rattle.converters.specs.Calls.{wide_outcome, wide_after, narrow_outcome, narrow_after};
ghost use Rattle.polarity.specs.Calls.{coefficients_outcome, coefficients_after, back_after, form_outcome, form_after, best_outcome};
ghost use Rattle.trees.specs.Calls.{tree_outcome, tree_after};
ghost use Rattle.kronecker.specs.Calls.{kronecker_outcome, kronecker_after};
ghost use Rattle.script.specs.Calls.{run_outcome, run_after};
ghost use Rattle.index.specs.Index.{list_starts};
ghost use Rattle.index.specs.Calls.{build_outcome, build_after, group_outcome};
ghost use Rattle.indexed.specs.Calls.{begun, indexed_outcome, indexed_starts, indexed_work, indexed_index};
ghost use Rattle.writer.specs.Calls.{write_outcome, write_work, write_steps};
ghost use Rattle.compactor.specs.Calls.{compact_outcome, compact_after};
ghost use Rattle.settling.specs.Calls.{settle_outcome, settle_work, settle_out};
ghost use Rattle.shared.specs.Calls.{check_shared, word_outcome};
ghost use Rattle.shared_run.specs.Calls.{shared_run_outcome, shared_run_after, shared_settle_outcome, shared_settle_work, shared_settle_out};
ghost use Rattle.druthmoy.specs.Faces.{words, settled_words, with_start, starts_if};

use index::GROUPS;

/// Checking a list. Values: its count.
pub fn dm_check(n: u64, list: &[u8], answer: &mut [u64; 8])
    ensures { answer.new ≡ words (check_list most_variables n list.now) }
{
    let counted = cube::list::check(n as usize, list);
    words::put_answer(answer, counted);
}

/// The value of a list at the assignment a. Values: the bit and the number of true products.
pub fn dm_value(n: u64, list: &[u8], a: u64, answer: &mut [u64; 8])
    ensures { answer.new ≡ words (value_outcome n list.now a) }
{
    let valued = cube::value::value(n as usize, list, a);
    words::put_answer(answer, valued);
}

/// The places of the products of a list that are true at the assignment a. Values: their number and the bit.
pub fn dm_reasons(n: u64, list: &[u8], a: u64, out: &mut [u8], answer: &mut [u64; 8])
    ensures answer_after { answer.new ≡ words (reasons_outcome n list.now a (length out.old)) }
    ensures out_after { out.new ≡ reasons_after n list.now a out.old }
{
    let reasoned = reasons::reasons(n as usize, list, a, out);
    words::put_answer(answer, reasoned);
}

/// The truth vector of a list. Values: 2^n.
pub fn dm_truth_vector(n: u64, list: &[u8], out: &mut [u8], answer: &mut [u64; 8])
    ensures answer_after { answer.new ≡ words (vector_outcome n list.now (length out.old)) }
    ensures out_after { out.new ≡ vector_after n list.now out.old }
{
    let counted = cube::value::truth_vector(n as usize, list, out);
    words::put_answer(answer, counted);
}

/// The coefficients of a truth vector under the polarity p. Values: 2^n.
pub fn dm_coefficients(n: u64, vector: &[u8], p: u64, out: &mut [u8], answer: &mut [u64; 8])
    ensures answer_after { answer.new ≡ words (coefficients_outcome n vector.now p (length out.old)) }
    ensures out_after { out.new ≡ coefficients_after n vector.now p out.old }
{
    let counted = polarity::transform::coefficients(n as usize, vector, p, out);
    words::put_answer(answer, counted);
}

/// The truth vector of coefficients under the polarity p. Values: 2^n.
pub fn dm_vector(n: u64, coefficients: &[u8], p: u64, out: &mut [u8], answer: &mut [u64; 8])
    ensures answer_after { answer.new ≡ words (coefficients_outcome n coefficients.now p (length out.old)) }
    ensures out_after { out.new ≡ back_after n coefficients.now p out.old }
{
    let counted = polarity::transform::vector_back(n as usize, coefficients, p, out);
    words::put_answer(answer, counted);
}

/// The list of a form from its coefficients under the polarity p. Values: its count.
pub fn dm_write_form(n: u64, coefficients: &[u8], p: u64, out: &mut [u8], answer: &mut [u64; 8])
    ensures answer_after { answer.new ≡ words (form_outcome n coefficients.now p (length out.old)) }
    ensures out_after { out.new ≡ form_after n coefficients.now p out.old }
{
    let counted = polarity::form::write_form(n as usize, coefficients, p, out);
    words::put_answer(answer, counted);
}

/// The best polarity of a truth vector. Values: it and its size.
pub fn dm_best_polarity(n: u64, vector: &[u8], answer: &mut [u64; 8])
    ensures { answer.new ≡ words (best_outcome n vector.now) }
{
    let best = polarity::choose::best_polarity(n as usize, vector);
    words::put_answer(answer, best);
}

/// The list of a truth vector's cheapest tree. Values: its products and its cost.
pub fn dm_write_tree(n: u64, vector: &[u8], out: &mut [u8], answer: &mut [u64; 8])
    ensures answer_after { answer.new ≡ words (tree_outcome n vector.now (length out.old)) }
    ensures out_after { out.new ≡ tree_after n vector.now out.old }
{
    let listed = trees::tree::write_tree(n as usize, vector, out);
    words::put_answer(answer, listed);
}

/// The list of a truth vector's cheapest choice of one expansion for each variable. Values: its cost, the choice and its products.
pub fn dm_write_kronecker(n: u64, vector: &[u8], out: &mut [u8], answer: &mut [u64; 8])
    ensures answer_after { answer.new ≡ words (kronecker_outcome n vector.now (length out.old)) }
    ensures out_after { out.new ≡ kronecker_after n vector.now out.old }
{
    let listed = kronecker::choice::write_kronecker(n as usize, vector, out);
    words::put_answer(answer, listed);
}

/// Runs a script on a list. Values: the count and the peak.
pub fn dm_run(n: u64, list: &[u8], script: &[u8], work: &mut [u8], answer: &mut [u64; 8])
    ensures answer_after { answer.new ≡ words (run_outcome n list.now script.now (length work.old)) }
    ensures work_after { work.new ≡ run_after n list.now script.now work.old }
{
    let finished = script::run::run(n as usize, list, script, work);
    words::put_answer(answer, finished);
}

/// The index of a list by number of literals. Values: its count. The starts are written where it is accepted.
pub fn dm_index(
    n: u64,
    list: &[u8],
    index: &mut [u8],
    starts: &mut [u64; GROUPS],
    answer: &mut [u64; 8],
)
    ensures answer_after { answer.new ≡ words (build_outcome n list.now (length index.old)) }
    ensures index_after { index.new ≡ build_after n list.now index.old }
    ensures starts_after { starts.new ≡ after_call (build_outcome n list.now (length index.old)) (list_starts (cubes_of list.now)) starts.old }
{
    let indexed = index::build::build(n as usize, list, index);
    words::put_indexed(answer, starts, indexed);
}

/// The group of a number in a lent index. Values: how many entries its run has, and the entry that it begins at.
pub fn dm_group(
    n: u64,
    list: &[u8],
    index: &[u8],
    starts: &[u64; GROUPS],
    number: u64,
    answer: &mut [u64; 8],
)
    ensures { answer.new ≡ words (with_start (get_or starts.now number 0) (group_outcome n list.now index.now starts.now number)) }
{
    let s = *starts;
    let counted = index::group::group_count(n as usize, list, index, s, number as usize);
    let start = words::start_at(s, number as usize);
    words::put_group(answer, counted, start);
}

/// Runs a script on a list and keeps an index for the work list. Values: the count and the peak. The starts are written where the run came to the steps.
pub fn dm_run_indexed(
    n: u64,
    list: &[u8],
    script: &[u8],
    work: &mut [u8],
    index: &mut [u8],
    starts: &mut [u64; GROUPS],
    answer: &mut [u64; 8],
)
    ensures answer_after { answer.new ≡ words (indexed_outcome n list.now script.now (length work.old) (length index.old)) }
    ensures work_after { work.new ≡ indexed_work n list.now script.now work.old (length index.old) }
    ensures index_after { index.new ≡ indexed_index n list.now script.now (length work.old) index.old }
    ensures starts_after { starts.new ≡ starts_if (begun n list.now script.now (length work.old) (length index.old)) (indexed_starts n list.now script.now (length work.old) (length index.old)) starts.old }
{
    let run = indexed::run_indexed(n as usize, list, script, work, index);
    let begun = run.begun;
    let kept = run.starts;
    let finished = run.answer;
    if begun {
        *starts = kept;
    }
    words::put_answer(answer, finished);
}

/// Writes the easy script of a list. Values: the number of its steps, and 1 where no pair is left, else 0.
pub fn dm_write_script(
    n: u64,
    list: &[u8],
    work: &mut [u8],
    script: &mut [u8],
    answer: &mut [u64; 8],
)
    ensures answer_after { answer.new ≡ words (write_outcome n list.now (length work.old) (length script.old)) }
    ensures work_after { work.new ≡ write_work n list.now work.old (length script.old) }
    ensures script_after { script.new ≡ write_steps n list.now (length work.old) script.old }
{
    let wrote = writer::write::write_script(n as usize, list, work, script);
    words::put_answer(answer, wrote);
}

/// Compacts a script, for lists of so many products. Values: the number of steps left.
pub fn dm_compact(n: u64, count: u64, script: &[u8], out: &mut [u8], answer: &mut [u64; 8])
    ensures answer_after { answer.new ≡ words (compact_outcome n count script.now (length out.old)) }
    ensures out_after { out.new ≡ compact_after n count script.now out.old }
{
    let counted = compactor::compact::compact(n as usize, count as usize, script, out);
    words::put_answer(answer, counted);
}

/// Settles a map. Values: given, peak, the script's count, the best polarity and its size (both all ones above 8 variables), burned.
pub fn dm_settle(
    n: u64,
    list: &[u8],
    script: &[u8],
    work: &mut [u8],
    out: &mut [u8],
    answer: &mut [u64; 8],
)
    ensures answer_after { answer.new ≡ settled_words (settle_outcome n list.now script.now (length work.old) (length out.old)) }
    ensures work_after { work.new ≡ settle_work n list.now script.now work.old (length out.old) }
    ensures out_after { out.new ≡ settle_out n list.now script.now (length work.old) out.old }
{
    let settled = settling::settle::settle(n as usize, list, script, work, out);
    words::put_answer(answer, settled);
}

/// Wide from narrow: an old list of 4-byte records as a list of 8-byte records. Values: its count.
pub fn dm_wide_from_narrow(n: u64, list: &[u8], out: &mut [u8], answer: &mut [u64; 8])
    ensures answer_after { answer.new ≡ words (wide_outcome n list.now (length out.old)) }
    ensures out_after { out.new ≡ wide_after n list.now out.old }
{
    let counted = converters::wide_from_narrow::wide_from_narrow(n as usize, list, out);
    words::put_answer(answer, counted);
}

/// Narrow from wide: a list of at most 16 variables as a list of 4-byte records. Values: its count.
pub fn dm_narrow_from_wide(n: u64, list: &[u8], out: &mut [u8], answer: &mut [u64; 8])
    ensures answer_after { answer.new ≡ words (narrow_outcome n list.now (length out.old)) }
    ensures out_after { out.new ≡ narrow_after n list.now out.old }
{
    let counted = converters::narrow_from_wide::narrow_from_wide(n as usize, list, out);
    words::put_answer(answer, counted);
}

/// Checking a list of shared products. Values: its count.
pub fn dm_shared_check(n: u64, list: &[u8], answer: &mut [u64; 8])
    ensures { answer.new ≡ words (check_shared n list.now) }
{
    let counted = shared::list::check(n as usize, list);
    words::put_answer(answer, counted);
}

/// The values of all outputs of a list of shared products at the assignment a. Values: one word, bit k for output k.
pub fn dm_shared_value(n: u64, list: &[u8], a: u64, answer: &mut [u64; 8])
    ensures { answer.new ≡ words (word_outcome n list.now a) }
{
    let worded = shared::value::value(n as usize, list, a);
    words::put_answer(answer, worded);
}

/// Runs a script on a list of shared products. Values: the count and the peak.
pub fn dm_shared_run(n: u64, list: &[u8], script: &[u8], work: &mut [u8], answer: &mut [u64; 8])
    ensures answer_after { answer.new ≡ words (shared_run_outcome n list.now script.now (length work.old)) }
    ensures work_after { work.new ≡ shared_run_after n list.now script.now work.old }
{
    let finished = shared_run::run::run(n as usize, list, script, work);
    words::put_answer(answer, finished);
}

/// Settles a list of shared products. Values: given, peak, the script's count, burned.
pub fn dm_shared_settle(
    n: u64,
    list: &[u8],
    script: &[u8],
    work: &mut [u8],
    out: &mut [u8],
    answer: &mut [u64; 8],
)
    ensures answer_after { answer.new ≡ words (shared_settle_outcome n list.now script.now (length work.old) (length out.old)) }
    ensures work_after { work.new ≡ shared_settle_work n list.now script.now work.old (length out.old) }
    ensures out_after { out.new ≡ shared_settle_out n list.now script.now (length work.old) out.old }
{
    let settled = shared_run::settle::settle(n as usize, list, script, work, out);
    words::put_answer(answer, settled);
}
