//! Files that are loaded. A text has a mebibyte: each call that reads one is on the stack by itself (`inline(never)`), so that no two texts are there at once.
ghost use Rattle.std.specs.Prelude.{◌≤◌, IfOk, length};

use crate::told::{Told, Trouble};
use crate::{buffers, first_records};
use program::file;
use records::Refusal;
use std::rt::Files;

/// A map: its inputs, its outputs, and its products as records of 12 bytes.
#[derive(Clone, Copy, Debug)]
pub struct Map<'a> {
    pub inputs: usize,
    pub outputs: usize,
    pub products: &'a [u8],
}

/// The bytes of a file from its front on, at most as many as a buffer has.
pub fn bytes<'a, 'b, R: Files>(
    rt: &R,
    path: &'a [u8],
    buffer: &'b mut [u8],
) -> Result<&'b [u8], Told<'a>>
    ensures { IfOk result (λ bytes. length bytes.now ≤ length buffer.old) }
{
    file::load(rt, path, buffer).map_err(|_| Told::OfFile(path, Trouble::NoFile))
}

/// The map of a file, its products in a buffer.
#[inline(never)]
pub fn map_of<'a, 'b, R: Files>(
    rt: &R,
    path: &'a [u8],
    products: &'b mut [u8],
) -> Result<Map<'b>, Told<'a>> {
    let mut text = buffers::text();
    let text = bytes(rt, path, &mut text)?;
    let size = pla::read::read(text, products).map_err(|refusal| Told::OfFile(
        path,
        Trouble::AtLine(refusal),
    ))?;
    Ok(Map {
        inputs: size.inputs,
        outputs: size.outputs,
        products: first_records(shared::list::SHARED_WIDTH, size.products, products),
    })
}

/// The script of a file, as records of 8 bytes in a buffer. A path with no character is that of no file, and of a script with no step.
#[inline(never)]
pub fn steps<'a, 'b, R: Files>(
    rt: &R,
    path: &'a [u8],
    script: &'b mut [u8],
) -> Result<&'b [u8], Told<'a>> {
    if path.is_empty() {
        return Ok(&[]);
    }
    let mut text = buffers::text();
    let text = bytes(rt, path, &mut text)?;
    let count = script_lines::read::read(text, script).map_err(|refusal| Told::OfFile(
        path,
        Trouble::AtLine(refusal),
    ))?;
    Ok(first_records(script::check::STEP_WIDTH, count, script))
}

/// The line on which step k of a file stands: with room for k steps alone, the reader refuses the step after them, at its line. 0 where there is no such step, or no file.
#[inline(never)]
fn line_of<R: Files>(rt: &R, path: &[u8], k: usize) -> usize {
    let mut text = buffers::text();
    let Ok(text) = bytes(rt, path, &mut text) else {
        return 0;
    };
    let mut before = buffers::steps();
    let room = before
        .len()
        .min(k.saturating_mul(script::check::STEP_WIDTH));
    match script_lines::read::read(text, &mut before[..room]) {
        Err(refusal) => refusal.place,
        Ok(_) => 0,
    }
}

/// A refusal of a step, of the file of steps.
pub fn refused_step<'a, R: Files>(rt: &R, path: &'a [u8], refusal: Refusal) -> Told<'a> {
    let line = line_of(rt, path, refusal.place);
    Told::OfFile(path, Trouble::AtStep(line, refusal))
}
