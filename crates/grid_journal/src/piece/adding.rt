//! How a piece grows.
ghost use Rattle.std.specs.Prelude.{◌≡◌, [], Err};
ghost use Rattle.grid_journal.specs.Pieces.{Added, KeepsAll};

use crate::out::Out;
use crate::piece::{Piece, PieceFault};
use crate::reading::MOST_ENTRY_BYTES;
use crate::spell::Spell;
use grid_types::{LAST_MOMENT, Moment, NoMemory};
use std::alloc::Global;

/// Lets all go, also what was written in part.
fn emptied(out: &mut Out, fault: PieceFault) -> Result<(), PieceFault>
    ensures empty { out.new.kept.items ≡ [] }
    ensures all { KeepsAll out.new }
    ensures fault { result ≡ Err fault }
{
    out.clear();
    Err(fault)
}

impl Piece {
    /// No entry. It takes no memory.
    pub fn new(alloc: Global) -> Piece
        ensures { result ≡ [] }
    {
        Piece {
            out: Out::new(alloc, u64::MAX),
        }
    }

    /// Takes memory for so many bytes more than there are.
    pub fn reserve(&mut self, bytes: usize) -> Result<(), NoMemory>
        ensures { self.new ≡ self.old }
    {
        self.out.reserve(bytes)
    }

    /// The bytes of the entries.
    pub fn as_bytes(&self) -> &[u8]
        ensures { result.now ≡ self.now }
    {
        self.out.as_bytes()
    }

    /// Lets the entries go, and keeps the memory.
    pub fn clear(&mut self)
        ensures { self.new ≡ [] }
    {
        self.out.clear();
    }

    /// Lets all go.
    pub(crate) fn refuse(&mut self, fault: PieceFault) -> Result<(), PieceFault>
        ensures empty { self.new ≡ [] }
        ensures fault { result ≡ Err fault }
    {
        emptied(&mut self.out, fault)
    }

    /// Writes the value, whose latest moment this is, behind the entries.
    pub(crate) fn add<T: Spell>(&mut self, value: &T, latest: Moment) -> Result<(), PieceFault>
        ensures { Added self.old self.new (T.spelled value.now) latest.0 result }
    {
        if latest.0 > LAST_MOMENT {
            return emptied(&mut self.out, PieceFault::Unreadable);
        }
        let before = self.out.count();
        if value.write(&mut self.out).is_err() {
            return emptied(&mut self.out, PieceFault::Memory);
        }
        let count = self.out.count();
        if count == u64::MAX {
            return emptied(&mut self.out, PieceFault::Memory);
        }
        if count - before > MOST_ENTRY_BYTES {
            return emptied(&mut self.out, PieceFault::Unreadable);
        }
        Ok(())
    }
}
