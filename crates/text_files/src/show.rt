//! Maps and scripts printed as text to standard output, each whole: its text is spelt in a buffer that has room for the longest.
ghost use Rattle.std.specs.Prelude.{◌≡◌, ◌≤◌, length, take};
ghost use Rattle.io.specs.Counts.{IsPrefixLen};
ghost use Rattle.records.specs.Records.{list_of};
ghost use Rattle.cube.specs.Lists.{most_variables, most_records};
ghost use Rattle.shared.specs.SharedRecord.{shares_of};
ghost use Rattle.shared.specs.Outputs.{output_count};
ghost use Rattle.script.specs.Scripts.{step_records, most_steps};
ghost use Rattle.pla_print.specs.Printing.{pla_text};
ghost use Rattle.script_lines.specs.Scripts.{script_text};

use crate::told::Told;
use crate::{at_most_32, buffers, first_records};

/// The text of a list of shared products at the front of a buffer that has room for every list of at most 4,096, and how long it is.
fn spell_map(n: u32, m: u32, list: &[u8], text: &mut [u8]) -> usize
    requires n_le_most_variables { (n ≤ most_variables) × (m ≤ output_count) }
    requires list_len_bound { length (shares_of list.now) ≤ most_records }
    requires in_bounds { 270464 ≤ length text.old }
    ensures prefix_len { IsPrefixLen result text.new }
    ensures text_after { take result text.new ≡ pla_text n m (shares_of list.now) }
{
    pla_print::print(n, m, list, text)
}

/// A list of shared products; one of more than 4,096 is not printed.
pub fn shares<'a>(rt: &impl Print, n: usize, m: usize, list: &[u8]) -> Result<(), Told<'a>> {
    if cube::list::MOST_RECORDS < list.len() / shared::list::SHARED_WIDTH {
        return Ok(());
    }
    let mut text = buffers::map_text();
    let end = spell_map(at_most_32(n), at_most_32(m), list, &mut text);
    rt.write_all(&text[..end]).map_err(|_| Told::NotPrinted)
}

/// A list of cubes, as a map of one output; one of more than 4,096 is not printed.
pub fn cubes<'a>(rt: &impl Print, n: usize, list: &[u8]) -> Result<(), Told<'a>> {
    let mut products = buffers::shares();
    match outputs::shares_of(0, list, &mut products) {
        Ok(count) => shares(
            rt,
            n,
            1,
            first_records(shared::list::SHARED_WIDTH, count, &products),
        ),
        Err(_) => Ok(()),
    }
}

/// The text of a script at the front of a buffer that has room for every script of at most 1,024 steps, and how long it is.
fn spell_script(script: &[u8], text: &mut [u8]) -> usize
    requires script_len_bound { length (list_of step_records script.now) ≤ most_steps }
    requires in_bounds { 22528 ≤ length text.old }
    ensures prefix_len { IsPrefixLen result text.new }
    ensures text_after { take result text.new ≡ script_text (list_of step_records script.now) }
{
    script_lines::print::print(script, text)
}

/// A script; one of more than 1,024 steps is not printed.
pub fn steps<'a>(rt: &impl Print, script: &[u8]) -> Result<(), Told<'a>> {
    if script::check::MOST_STEPS < script.len() / script::check::STEP_WIDTH {
        return Ok(());
    }
    let mut text = buffers::script_text();
    let end = spell_script(script, &mut text);
    rt.write_all(&text[..end]).map_err(|_| Told::NotPrinted)
}
