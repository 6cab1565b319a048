//! A journal's file in memory.
ghost use Rattle.std.specs.Prelude.{◌≡◌, ℕ, ◌≤◌, List, [], length, Some};
ghost use Rattle.grid_outside.specs.Counts.{Rose};

use crate::keeper::{Keeper, News, Short};
use grid_outside::Failed;
use std::alloc::Global;
use std::sync::Wait;

/// A file in memory. Its calls are numbered from 0, appends and syncs alike; each whose number is planned fails, and so does an
/// append where memory is short. A planned append takes of its piece at most `part` bytes.
#[derive(Drop)]
pub struct MemKeeper {
    bytes: Vec<u8>,
    synced: usize,
    planned: Vec<u64>,
    part: usize,
    calls: u64,
    faults: u64,
}

impl MemKeeper {
    /// An empty file.
    pub fn new(alloc: Global, part: usize, planned: Vec<u64>) -> MemKeeper
        ensures bytes { result.bytes.items ≡ [] }
        ensures synced { result.synced ≡ 0 }
        ensures part { result.part ≡ part }
        ensures planned { result.planned.items ≡ planned.items }
        ensures calls { result.calls ≡ 0 }
        ensures faults { result.faults ≡ 0 }
    {
        MemKeeper {
            bytes: Vec::new(alloc),
            synced: 0,
            planned,
            part,
            calls: 0,
            faults: 0,
        }
    }

    /// All bytes that stand there.
    pub fn bytes(&self) -> &[u8]
        ensures { result.now ≡ self.now.bytes.items }
    {
        self.bytes.as_slice()
    }

    /// How many of them were synced.
    pub fn synced(&self) -> usize
        ensures { result ≡ self.now.synced }
    {
        self.synced
    }

    /// Counts the call, and says whether it is to fail.
    fn next_fails(&mut self) -> bool
        ensures bytes { self.new.bytes ≡ self.old.bytes }
        ensures faults { self.new.faults ≡ self.old.faults }
        ensures synced { self.new.synced ≡ self.old.synced }
    {
        let call = self.calls;
        self.calls = call.saturating_add(1);
        self.planned.contains(&call)
    }

    /// Counts a failure.
    fn count_fault(&mut self)
        ensures bytes { self.new.bytes ≡ self.old.bytes }
        ensures synced { self.new.synced ≡ self.old.synced }
        ensures later { self.old.faults ≤ self.new.faults }
        ensures rose { Rose self.old.faults self.new.faults }
    {
        self.faults = self.faults.saturating_add(1);
    }
}

impl Keeper for MemKeeper {
    ghost faults = { λ k. k.faults };

    ghost kept = { λ k. Some k.bytes.items };

    ghost synced = { λ k. k.synced };

    fn is_kept(&self) -> bool {
        true
    }

    fn append(&mut self, piece: &[u8]) -> Result<(), Short> {
        let fails = self.next_fails();
        let most = if fails {
            self.part.min(piece.len())
        } else {
            piece.len()
        };
        let (front, _rest) = piece.split_at(most);
        let taken = match self.bytes.extend_from_slice(front) {
            Ok(()) => most,
            Err(_) => 0,
        };
        if taken == piece.len() && !fails {
            return Ok(());
        }
        self.count_fault();
        Err(Short { taken })
    }

    fn sync(&mut self) -> Result<(), Failed> {
        if self.next_fails() {
            self.count_fault();
            return Err(Failed);
        }
        self.synced = self.synced.max(self.bytes.len());
        Ok(())
    }

    fn tell<R: Wait>(&mut self, _rt: &R, _news: News<'_>) {}
}
