//! A journal, written to an output.
ghost use Rattle.std.specs.Prelude.{◌≡◌, ◌≤◌, ℕ, OnOk, IfErr};
ghost use Rattle.grid_types.specs.History.{history_of};
ghost use Rattle.grid_check.specs.Writes.{Puts, PutsHead, StopsAt, StopsAtHead, WriteEnds, status_of};

use crate::telling::{NO_MEMORY, WRITE_FAILED};
use grid_journal::{WriteFault, write_entry, write_head};
use grid_outside::{Sink, write_all};
use grid_types::{Entry, HubConfig};
use std::alloc::Global;

/// The status where all was written.
const DONE: u8 = 0;

/// The status where an entry has more bytes than an entry of a journal may have.
const TOO_LONG: u8 = 10;

/// Why something was not written.
#[derive(Clone, Copy)]
pub(crate) enum Unwritten {
    /// A write failed.
    Failed,
    /// There was no memory for its bytes.
    Memory,
    /// It is an entry with too many bytes.
    TooLong,
}

fn status_of(why: Unwritten) -> u8
    ensures { result ≡ status_of why }
{
    match why {
        Unwritten::Failed => WRITE_FAILED,
        Unwritten::Memory => NO_MEMORY,
        Unwritten::TooLong => TOO_LONG,
    }
}

/// Writes the head of a journal.
fn put_head<K: Sink>(alloc: Global, config: &HubConfig, output: &mut K) -> Result<(), Unwritten>
    ensures ok { OnOk result (PutsHead config.now (K.view output.old) (K.view output.new)) }
    ensures stopped { IfErr result (λ why.
        StopsAtHead config.now why (K.view output.old) (K.view output.new)) }
{
    match write_head(alloc, config) {
        Ok(head) => match write_all(output, head.as_bytes()) {
            Ok(()) => Ok(()),
            Err(_) => Err(Unwritten::Failed),
        },
        Err(_) => Err(Unwritten::Memory),
    }
}

/// Writes an entry behind what was written.
fn put_entry<K: Sink>(alloc: Global, entry: &Entry, output: &mut K) -> Result<(), Unwritten>
    ensures ok { OnOk result (Puts entry.now (K.view output.old) (K.view output.new)) }
    ensures stopped { IfErr result (λ why.
        StopsAt entry.now why (K.view output.old) (K.view output.new)) }
{
    match write_entry(alloc, entry) {
        Ok(bytes) => match write_all(output, bytes.as_bytes()) {
            Ok(()) => Ok(()),
            Err(_) => Err(Unwritten::Failed),
        },
        Err(WriteFault::TooLong { .. }) => Err(Unwritten::TooLong),
        Err(WriteFault::Memory) => Err(Unwritten::Memory),
    }
}

/// Writes the journal of these entries, the oldest first: the status of a program that does just that. It is 0 where all of it
/// was written, 6 where a write failed, 7 out of memory and 10 where an entry is too long.
pub(crate) fn write_journal<K: Sink>(
    alloc: Global,
    config: &HubConfig,
    entries: &[Entry],
    output: &mut K,
) -> u8
    ensures { WriteEnds config.now (history_of entries.now) (K.view output.old)
        (K.view output.new) result }
{
    if let Err(why) = put_head(alloc, config, output) {
        return status_of(why);
    }
    for entry in entries {
        if let Err(why) = put_entry(alloc, entry, output) {
            return status_of(why);
        }
    }
    DONE
}
