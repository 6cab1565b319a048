//! The words of a command line.

use grid_types::Text;
use std::io::ErrorKind;
use std::rt::Env;
use std::{env, io};

/// Why there are no words.
#[derive(Clone, Copy, Debug, PartialEq, Eq)]
pub enum NoWords {
    /// A word is not UTF-8, so it fits no program.
    NotText,
    /// Out of memory.
    Memory,
}

impl From<io::Error> for NoWords {
    fn from(error: io::Error) -> NoWords {
        match error.kind() {
            ErrorKind::InvalidData => NoWords::NotText,
            _ => NoWords::Memory,
        }
    }
}

/// The words of the command line, without the program's name.
///
/// # Errors
/// `NotText` for a word that is not UTF-8, `Memory` where there is no memory for them.
pub fn words<R: Env + AllocGlobal>(rt: &R) -> Result<Vec<Text>, NoWords> {
    let mut words = Vec::new(rt.alloc());
    for word in env::args(rt)?.skip(1) {
        if words.push(Text::from_string(word)).is_err() {
            return Err(NoWords::Memory);
        }
    }
    Ok(words)
}
