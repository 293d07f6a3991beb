//! The calls of crate `druthmoy`, exported for C and Rust: a slice passes as a pointer and a length, and every answer is eight words.
#![tactic(auto)]

// Stays: a function for each call: the C interface, and the theorems of promises cite each by its path.
pub mod maps;

ghost use Rattle.std.specs.Prelude.{◌≡◌, length, get_or};
ghost use Rattle.records.specs.Answers.{after_call};
ghost use Rattle.cube.specs.Lists.{cubes_of, most_variables};
ghost use Rattle.cube.specs.Calls.{check_list, value_outcome, vector_outcome, vector_after};
ghost use Rattle.reasons.specs.Calls.{reasons_outcome, reasons_after};
ghost use Rattle.converters.specs.Calls.{wide_outcome, wide_after, narrow_outcome, narrow_after};
ghost use Rattle.polarity.specs.Calls.{coefficients_outcome, coefficients_after, back_after, form_outcome, form_after, best_outcome};
ghost use Rattle.trees.specs.Calls.{tree_outcome, tree_after};
ghost use Rattle.kronecker.specs.Calls.{kronecker_outcome, kronecker_after};
ghost use Rattle.script.specs.Calls.{run_outcome, run_after};
ghost use Rattle.index.specs.Index.{list_starts};
ghost use Rattle.index.specs.Calls.{build_outcome, build_after, group_outcome};
ghost use Rattle.indexed.specs.Calls.{begun, indexed_outcome, indexed_starts, indexed_work, indexed_index};
ghost use Rattle.writer.specs.Calls.{write_outcome, write_work, write_steps};
ghost use Rattle.compactor.specs.Calls.{compact_outcome, compact_after};
ghost use Rattle.settling.specs.Calls.{settle_outcome, settle_work, settle_out};
ghost use Rattle.shared.specs.Calls.{check_shared, word_outcome};
ghost use Rattle.shared_run.specs.Calls.{shared_run_outcome, shared_run_after, shared_settle_outcome, shared_settle_work, shared_settle_out};
ghost use Rattle.druthmoy.specs.Faces.{words, settled_words, with_start, starts_if};

use index::GROUPS;

/// Checking a list. Values: its count.
#[unsafe(no_mangle)]
pub extern "C" fn dm_check(n: u64, list: &[u8], answer: &mut [u64; 8])
    ensures { answer.new ≡ words (check_list most_variables n list.now) }
{
    druthmoy::dm_check(n, list, answer);
}

/// The value of a list at the assignment a. Values: the bit and the number of true products.
#[unsafe(no_mangle)]
pub extern "C" fn dm_value(n: u64, list: &[u8], a: u64, answer: &mut [u64; 8])
    ensures { answer.new ≡ words (value_outcome n list.now a) }
{
    druthmoy::dm_value(n, list, a, answer);
}

/// The places of the products of a list that are true at the assignment a. Values: their number and the bit.
#[unsafe(no_mangle)]
pub extern "C" fn dm_reasons(n: u64, list: &[u8], a: u64, out: &mut [u8], answer: &mut [u64; 8])
    ensures answer_after { answer.new ≡ words (reasons_outcome n list.now a (length out.old)) }
    ensures out_after { out.new ≡ reasons_after n list.now a out.old }
{
    druthmoy::dm_reasons(n, list, a, out, answer);
}

/// The truth vector of a list. Values: 2^n.
#[unsafe(no_mangle)]
pub extern "C" fn dm_truth_vector(n: u64, list: &[u8], out: &mut [u8], answer: &mut [u64; 8])
    ensures answer_after { answer.new ≡ words (vector_outcome n list.now (length out.old)) }
    ensures out_after { out.new ≡ vector_after n list.now out.old }
{
    druthmoy::dm_truth_vector(n, list, out, answer);
}

/// The coefficients of a truth vector under the polarity p. Values: 2^n.
#[unsafe(no_mangle)]
pub extern "C" fn dm_coefficients(
    n: u64,
    vector: &[u8],
    p: u64,
    out: &mut [u8],
    answer: &mut [u64; 8],
)
    ensures answer_after { answer.new ≡ words (coefficients_outcome n vector.now p (length out.old)) }
    ensures out_after { out.new ≡ coefficients_after n vector.now p out.old }
{
    druthmoy::dm_coefficients(n, vector, p, out, answer);
}

/// The truth vector of coefficients under the polarity p. Values: 2^n.
#[unsafe(no_mangle)]
pub extern "C" fn dm_vector(
    n: u64,
    coefficients: &[u8],
    p: u64,
    out: &mut [u8],
    answer: &mut [u64; 8],
)
    ensures answer_after { answer.new ≡ words (coefficients_outcome n coefficients.now p (length out.old)) }
    ensures out_after { out.new ≡ back_after n coefficients.now p out.old }
{
    druthmoy::dm_vector(n, coefficients, p, out, answer);
}

/// The list of a form from its coefficients under the polarity p. Values: its count.
#[unsafe(no_mangle)]
pub extern "C" fn dm_write_form(
    n: u64,
    coefficients: &[u8],
    p: u64,
    out: &mut [u8],
    answer: &mut [u64; 8],
)
    ensures answer_after { answer.new ≡ words (form_outcome n coefficients.now p (length out.old)) }
    ensures out_after { out.new ≡ form_after n coefficients.now p out.old }
{
    druthmoy::dm_write_form(n, coefficients, p, out, answer);
}

/// The best polarity of a truth vector. Values: it and its size.
#[unsafe(no_mangle)]
pub extern "C" fn dm_best_polarity(n: u64, vector: &[u8], answer: &mut [u64; 8])
    ensures { answer.new ≡ words (best_outcome n vector.now) }
{
    druthmoy::dm_best_polarity(n, vector, answer);
}

/// The list of a truth vector's cheapest tree. Values: its products and its cost.
#[unsafe(no_mangle)]
pub extern "C" fn dm_write_tree(n: u64, vector: &[u8], out: &mut [u8], answer: &mut [u64; 8])
    ensures answer_after { answer.new ≡ words (tree_outcome n vector.now (length out.old)) }
    ensures out_after { out.new ≡ tree_after n vector.now out.old }
{
    druthmoy::dm_write_tree(n, vector, out, answer);
}

/// The list of a truth vector's cheapest choice of one expansion for each variable. Values: its cost, the choice and its products.
#[unsafe(no_mangle)]
pub extern "C" fn dm_write_kronecker(n: u64, vector: &[u8], out: &mut [u8], answer: &mut [u64; 8])
    ensures answer_after { answer.new ≡ words (kronecker_outcome n vector.now (length out.old)) }
    ensures out_after { out.new ≡ kronecker_after n vector.now out.old }
{
    druthmoy::dm_write_kronecker(n, vector, out, answer);
}

/// Runs a script on a list. Values: the count and the peak.
#[unsafe(no_mangle)]
pub extern "C" fn dm_run(n: u64, list: &[u8], script: &[u8], work: &mut [u8], answer: &mut [u64; 8])
    ensures answer_after { answer.new ≡ words (run_outcome n list.now script.now (length work.old)) }
    ensures work_after { work.new ≡ run_after n list.now script.now work.old }
{
    druthmoy::dm_run(n, list, script, work, answer);
}

/// The index of a list by number of literals. Values: its count. The starts are written where it is accepted.
#[unsafe(no_mangle)]
pub extern "C" fn dm_index(
    n: u64,
    list: &[u8],
    index: &mut [u8],
    starts: &mut [u64; GROUPS],
    answer: &mut [u64; 8],
)
    ensures answer_after { answer.new ≡ words (build_outcome n list.now (length index.old)) }
    ensures index_after { index.new ≡ build_after n list.now index.old }
    ensures starts_after { starts.new ≡ after_call (build_outcome n list.now (length index.old)) (list_starts (cubes_of list.now)) starts.old }
{
    druthmoy::dm_index(n, list, index, starts, answer);
}

/// The group of a number in a lent index. Values: how many entries its run has, and the entry that it begins at.
#[unsafe(no_mangle)]
pub extern "C" fn dm_group(
    n: u64,
    list: &[u8],
    index: &[u8],
    starts: &[u64; GROUPS],
    number: u64,
    answer: &mut [u64; 8],
)
    ensures { answer.new ≡ words (with_start (get_or starts.now number 0) (group_outcome n list.now index.now starts.now number)) }
{
    druthmoy::dm_group(n, list, index, starts, number, answer);
}

/// Runs a script on a list and keeps an index for the work list. Values: the count and the peak. The starts are written where the run came to the steps.
#[unsafe(no_mangle)]
pub extern "C" fn dm_run_indexed(
    n: u64,
    list: &[u8],
    script: &[u8],
    work: &mut [u8],
    index: &mut [u8],
    starts: &mut [u64; GROUPS],
    answer: &mut [u64; 8],
)
    ensures answer_after { answer.new ≡ words (indexed_outcome n list.now script.now (length work.old) (length index.old)) }
    ensures work_after { work.new ≡ indexed_work n list.now script.now work.old (length index.old) }
    ensures index_after { index.new ≡ indexed_index n list.now script.now (length work.old) index.old }
    ensures starts_after { starts.new ≡ starts_if (begun n list.now script.now (length work.old) (length index.old)) (indexed_starts n list.now script.now (length work.old) (length index.old)) starts.old }
{
    druthmoy::dm_run_indexed(n, list, script, work, index, starts, answer);
}

/// Writes the easy script of a list. Values: the number of its steps, and 1 where no pair is left, else 0.
#[unsafe(no_mangle)]
pub extern "C" fn dm_write_script(
    n: u64,
    list: &[u8],
    work: &mut [u8],
    script: &mut [u8],
    answer: &mut [u64; 8],
)
    ensures answer_after { answer.new ≡ words (write_outcome n list.now (length work.old) (length script.old)) }
    ensures work_after { work.new ≡ write_work n list.now work.old (length script.old) }
    ensures script_after { script.new ≡ write_steps n list.now (length work.old) script.old }
{
    druthmoy::dm_write_script(n, list, work, script, answer);
}

/// Compacts a script, for lists of so many products. Values: the number of steps left.
#[unsafe(no_mangle)]
pub extern "C" fn dm_compact(
    n: u64,
    count: u64,
    script: &[u8],
    out: &mut [u8],
    answer: &mut [u64; 8],
)
    ensures answer_after { answer.new ≡ words (compact_outcome n count script.now (length out.old)) }
    ensures out_after { out.new ≡ compact_after n count script.now out.old }
{
    druthmoy::dm_compact(n, count, script, out, answer);
}

/// Settles a map. Values: given, peak, the script's count, the best polarity and its size (both all ones above 8 variables), burned.
#[unsafe(no_mangle)]
pub extern "C" fn dm_settle(
    n: u64,
    list: &[u8],
    script: &[u8],
    work: &mut [u8],
    out: &mut [u8],
    answer: &mut [u64; 8],
)
    ensures answer_after { answer.new ≡ settled_words (settle_outcome n list.now script.now (length work.old) (length out.old)) }
    ensures work_after { work.new ≡ settle_work n list.now script.now work.old (length out.old) }
    ensures out_after { out.new ≡ settle_out n list.now script.now (length work.old) out.old }
{
    druthmoy::dm_settle(n, list, script, work, out, answer);
}

/// Wide from narrow: an old list of 4-byte records as a list of 8-byte records. Values: its count.
#[unsafe(no_mangle)]
pub extern "C" fn dm_wide_from_narrow(n: u64, list: &[u8], out: &mut [u8], answer: &mut [u64; 8])
    ensures answer_after { answer.new ≡ words (wide_outcome n list.now (length out.old)) }
    ensures out_after { out.new ≡ wide_after n list.now out.old }
{
    druthmoy::dm_wide_from_narrow(n, list, out, answer);
}

/// Narrow from wide: a list of at most 16 variables as a list of 4-byte records. Values: its count.
#[unsafe(no_mangle)]
pub extern "C" fn dm_narrow_from_wide(n: u64, list: &[u8], out: &mut [u8], answer: &mut [u64; 8])
    ensures answer_after { answer.new ≡ words (narrow_outcome n list.now (length out.old)) }
    ensures out_after { out.new ≡ narrow_after n list.now out.old }
{
    druthmoy::dm_narrow_from_wide(n, list, out, answer);
}

/// Checking a list of shared products. Values: its count.
#[unsafe(no_mangle)]
pub extern "C" fn dm_shared_check(n: u64, list: &[u8], answer: &mut [u64; 8])
    ensures { answer.new ≡ words (check_shared n list.now) }
{
    druthmoy::dm_shared_check(n, list, answer);
}

/// The values of all outputs of a list of shared products at the assignment a. Values: one word, bit k for output k.
#[unsafe(no_mangle)]
pub extern "C" fn dm_shared_value(n: u64, list: &[u8], a: u64, answer: &mut [u64; 8])
    ensures { answer.new ≡ words (word_outcome n list.now a) }
{
    druthmoy::dm_shared_value(n, list, a, answer);
}

/// Runs a script on a list of shared products. Values: the count and the peak.
#[unsafe(no_mangle)]
pub extern "C" fn dm_shared_run(
    n: u64,
    list: &[u8],
    script: &[u8],
    work: &mut [u8],
    answer: &mut [u64; 8],
)
    ensures answer_after { answer.new ≡ words (shared_run_outcome n list.now script.now (length work.old)) }
    ensures work_after { work.new ≡ shared_run_after n list.now script.now work.old }
{
    druthmoy::dm_shared_run(n, list, script, work, answer);
}

/// Settles a list of shared products. Values: given, peak, the script's count, burned.
#[unsafe(no_mangle)]
pub extern "C" fn dm_shared_settle(
    n: u64,
    list: &[u8],
    script: &[u8],
    work: &mut [u8],
    out: &mut [u8],
    answer: &mut [u64; 8],
)
    ensures answer_after { answer.new ≡ words (shared_settle_outcome n list.now script.now (length work.old) (length out.old)) }
    ensures work_after { work.new ≡ shared_settle_work n list.now script.now work.old (length out.old) }
    ensures out_after { out.new ≡ shared_settle_out n list.now script.now (length work.old) out.old }
{
    druthmoy::dm_shared_settle(n, list, script, work, out, answer);
}
