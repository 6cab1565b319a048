//! A journal from which nothing goes on is put aside.

use std::alloc::Global;
use std::fs::{File, Files, OpenOptions, hard_link, rename};
use std::io;
use std::io::{ErrorKind, Write};

/// So many numbers are tried behind the name.
const MOST_NUMBERS: u32 = 1_000_000;

/// Opens the file to read and to append; it is made where there is none.
pub(crate) fn opened<F: Files<File = File>>(files: &F, path: &str) -> io::Result<File> {
    let mut options = OpenOptions::new();
    options.read(true).append(true).create(true);
    options.open(files, path)
}

/// Gives the file a second name: its own, and behind it the first number that no file has yet.
fn named_aside<F: Files<File = File>>(files: &F, alloc: Global, path: &str) -> io::Result<()> {
    for number in 1..MOST_NUMBERS {
        let name = format!(in alloc; "{path}.{number}")?;
        match hard_link(files, path, name.as_str()) {
            Err(error) if error.kind() == ErrorKind::AlreadyExists => {}
            linked => return linked,
        }
    }
    Err(io::Error::from(ErrorKind::AlreadyExists))
}

/// A file with these bytes in place of the one that is there, which keeps its bytes under a name with a number. Where it fails, or
/// the machine does, the file has its old bytes or the new ones.
pub(crate) fn put_aside<F: Files<File = File>>(
    files: &F,
    alloc: Global,
    path: &str,
    bytes: &[u8],
) -> io::Result<File> {
    named_aside(files, alloc, path)?;
    let name = format!(in alloc; "{path}.new")?;
    let file = opened(files, name.as_str())?;
    file.try_lock()?;
    write_anew(&file, bytes)?;
    rename(files, name.as_str(), path)?;
    Ok(file)
}

/// The file has these bytes alone, on the disk.
pub(crate) fn write_anew(mut file: &File, bytes: &[u8]) -> io::Result<()> {
    file.set_len(0)?;
    file.write_all(bytes)?;
    file.sync_data()
}
