//! Files that are loaded, as far as they are taken, and files that are written.
ghost use Rattle.std.specs.Prelude.{◌≡◌, [], ◌∷◌, ◌≤◌, IfOk, length};
ghost use Rattle.io.specs.Counts.{IsPrefixLen};

use std::fs::OpenFile;
use std::io::{ErrorKind, Read, Write};
use std::rt::Files;
use std::{fs, io};

/// Bytes of the list that are read: one record more than the most.
pub const LIST_BYTES: usize = cube::list::RECORD_WIDTH * (cube::list::MOST_RECORDS + 1);

/// Bytes of the script that are read: one step more than the most.
pub const SCRIPT_BYTES: usize = script::check::STEP_WIDTH * (script::check::MOST_STEPS + 1);

/// Both by their values: a longer list and a longer script are refused, and not cut.
pub fn limits() -> [usize; 2]
    ensures { result ≡ 32776 ∷ 8200 ∷ [] }
{
    [LIST_BYTES, SCRIPT_BYTES]
}

/// A path that is no text in UTF-8 names no file: std takes no other.
fn name_of(path: &[u8]) -> io::Result<&str> {
    str::from_utf8(path).map_err(|_| io::Error::from(ErrorKind::InvalidInput))
}

/// Opens a file for reading.
pub fn open<R: Files>(rt: &R, path: &[u8]) -> io::Result<R::File> {
    fs::open(rt, name_of(path)?)
}

/// Reads an open file to the front of a buffer, until that is full or the file ends; answers how many bytes it read.
fn read_full<F: Read>(file: &mut F, buffer: &mut [u8]) -> io::Result<usize>
    ensures { IfOk result (λ count. IsPrefixLen count buffer.new) }
{
    let mut count = 0;
    for _ in 0..u64::MAX {
        if count == buffer.len() {
            break;
        }
        match file.read(&mut buffer[count..]) {
            Ok(0) => break,
            Ok(more) => count += more,
            Err(error) if error.kind() == ErrorKind::Interrupted => {}
            Err(error) => return Err(error),
        }
    }
    Ok(count)
}

/// The bytes of an open file from its front on, at most as many as a buffer has: what comes after them is not read. A file whose reading fails before that is not loaded.
pub fn load_open<'a, F: Read>(file: &mut F, buffer: &'a mut [u8]) -> io::Result<&'a [u8]>
    ensures { IfOk result (λ bytes. length bytes.now ≤ length buffer.old) }
{
    let count = read_full(file, buffer)?;
    Ok(&buffer[..count])
}

/// The same of the file of a name.
pub fn load<'a, R: Files>(rt: &R, path: &[u8], buffer: &'a mut [u8]) -> io::Result<&'a [u8]>
    ensures { IfOk result (λ bytes. length bytes.now ≤ length buffer.old) }
{
    load_open(&mut open(rt, path)?, buffer)
}

/// Stores what was written to an open file, as far as the system tells: some file systems tell only then that they can't. Some files, as those of /proc, are never stored.
fn store<F: OpenFile>(file: &F) -> io::Result<()> {
    let is_file = file.metadata().is_ok_and(|told| told.is_file());
    if !is_file {
        return Ok(());
    }
    match file.sync_all() {
        Err(error) if error.kind() == ErrorKind::InvalidInput => Ok(()),
        stored => stored,
    }
}

/// Bytes written to the file of a name, in place of what it had.
pub fn save<R: Files>(rt: &R, path: &[u8], bytes: &[u8]) -> io::Result<()> {
    let mut file = fs::create(rt, name_of(path)?)?;
    file.write_all(bytes)?;
    store(&file)
}
