//! The calls on a map that crate druthmoy_c exports for C and Rust: the twelve numbers of its lists are lent, and written like the buffers.
ghost use Rattle.std.specs.Prelude.{◌≡◌, length};
ghost use Rattle.selector.specs.Calls.{slot_outcome, job};
ghost use Rattle.druthmoy.specs.Faces.{map_words, SettleFaced, ReasonsFaced};

use selector::MOST_LISTS;

/// The slot of a label in a map. Values: the slot number.
pub fn dm_slot(n: u64, lists: &[u8], lengths: &[u64], a: u64, answer: &mut [u64; 8])
    ensures { answer.new ≡ map_words (slot_outcome n lists.now lengths.now a) }
{
    let told = selector::slot::slot(n as usize, lists, lengths, a);
    words::put_map_answer(answer, told);
}

/// Settles a map, each list with its own script. Values: the total cost. The lengths of the burned lists are written like the buffers.
pub fn dm_settle_map(
    n: u64,
    lists: &[u8],
    lengths: &[u64],
    scripts: &[u8],
    script_lengths: &[u64],
    work: &mut [u8],
    out: &mut [u8],
    burned_lengths: &mut [u64; MOST_LISTS],
    answer: &mut [u64; 8],
)
    ensures { SettleFaced (job n lists.now lengths.now scripts.now script_lengths.now (length work.old)) work.old out.old burned_lengths.old work.new out.new burned_lengths.new answer.new }
{
    let settled = selector::settle_map::settle_map(
        n as usize,
        lists,
        lengths,
        scripts,
        script_lengths,
        work,
        out,
    );
    let told = settled.answer;
    words::put_each(burned_lengths, settled);
    words::put_map_answer(answer, told);
}

/// The reasons of a map at a label. Values: the slot number. The number of true products of each list is written like the output.
pub fn dm_map_reasons(
    n: u64,
    lists: &[u8],
    lengths: &[u64],
    a: u64,
    out: &mut [u8],
    numbers: &mut [u64; MOST_LISTS],
    answer: &mut [u64; 8],
)
    ensures { ReasonsFaced n lists.now lengths.now a out.old numbers.old out.new numbers.new answer.new }
{
    let told = selector::map_reasons::reasons_into(n as usize, lists, lengths, a, out, numbers);
    words::put_map_answer(answer, told);
}
