//! Journals in memory, and the verdict on one.
ghost use Rattle.std.specs.Prelude.{◌<◌};

use crate::journal::entries::{HEAD, HISTORY};
use grid_outside::{MemSource, Source};
use grid_types::Bytes;
use journal_verdicts::{CheckFault, Verdict, check};
use std::alloc::Global;

/// The journal of the whole history.
pub fn journal(alloc: Global) -> Option<Vec<u8>> {
    let mut bytes = Vec::from_slice(alloc, HEAD).ok()?;
    for (entry, _) in HISTORY {
        bytes.extend_from_slice(entry).ok()?;
    }
    Some(bytes)
}

/// What comes of a check, of which a trial asks no clause.
fn checked<S: Source>(alloc: Global, input: &mut S) -> Result<Verdict, CheckFault> {
    check(alloc, input)
}

/// The verdict on the bytes, which come in pieces of at most so many.
pub fn verdict(alloc: Global, bytes: &[u8], most: usize) -> Option<Verdict>
    requires { 0 < most }
{
    let mut input = MemSource::new(Bytes::of(alloc, bytes).ok()?, most, Vec::new(alloc));
    let verdict = checked(alloc, &mut input).ok();
    drop(input);
    verdict
}

/// So many bytes from the front, or all where there are fewer.
pub fn front_of(bytes: &[u8], count: usize) -> &[u8] {
    if count <= bytes.len() {
        &bytes[..count]
    } else {
        bytes
    }
}
