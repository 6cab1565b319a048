//! What is kept, told to a thread that watches.

use crate::keeper::News;
use crossbeam_channel::{Receiver, Sender, bounded};
use grid_types::NoMemory;
use std::alloc::Global;
use std::sync::Wait;

/// So many sights wait for who watches; what comes beyond is missed.
const MOST_SIGHTS: usize = 1_024;

/// A piece of so few bytes has one entry alone.
const ONE_ENTRY_BYTES: usize = 25;

/// Where the number of an entry's kind stands in its bytes.
const KIND_AT: usize = 8;

/// The kind of which nobody wants to be told each time: a session was used. That a node was heard is told, since it may have been
/// suspect.
const DULL_KIND: u8 = 13;

/// What one who watches is told.
#[derive(Debug, Drop)]
pub enum Sight {
    /// The bytes of entries that are kept.
    Entries(Vec<u8>),
    /// Those of so many turns are missing here, for want of room or of memory.
    Missed(u64),
    /// An append failed, and a turn waits until another does not.
    Waits,
    /// It waits no longer.
    GoesOn,
}

/// The end at which sights are told. Who watches is never waited for.
#[derive(Drop)]
pub struct Watch {
    sights: Sender<Sight>,
    alloc: Global,
    missed: u64,
    waits: bool,
}

/// Whether nobody wants to be told of the entries.
fn is_dull(piece: &[u8]) -> bool {
    match piece.get(KIND_AT) {
        Some(kind) => piece.len() <= ONE_ENTRY_BYTES && *kind == DULL_KIND,
        None => true,
    }
}

impl Watch {
    /// The end at which sights are told, and the one at which they come.
    pub fn new(alloc: Global) -> Result<(Watch, Receiver<Sight>), NoMemory> {
        let Ok((sights, coming)) = bounded(alloc, MOST_SIGHTS) else {
            return Err(NoMemory);
        };
        let watch = Watch {
            sights,
            alloc,
            missed: 0,
            waits: false,
        };
        Ok((watch, coming))
    }

    /// Whether there was room for the sight.
    fn show<R: Wait>(&self, rt: &R, sight: Sight) -> bool {
        self.sights.try_send(rt, sight).is_ok()
    }

    /// Shows how many turns were missed, where some were. False: there was no room.
    fn show_missed<R: Wait>(&mut self, rt: &R) -> bool {
        if self.missed > 0 && self.show(rt, Sight::Missed(self.missed)) {
            self.missed = 0;
        }
        self.missed == 0
    }

    /// Shows a copy of the entries. False: there was no room, or no memory.
    fn show_entries<R: Wait>(&self, rt: &R, piece: &[u8]) -> bool {
        let mut copy = Vec::new(self.alloc);
        copy.extend_from_slice(piece).is_ok() && self.show(rt, Sight::Entries(copy))
    }

    /// The entries are kept.
    fn kept<R: Wait>(&mut self, rt: &R, piece: &[u8]) {
        if self.waits && self.show(rt, Sight::GoesOn) {
            self.waits = false;
        }
        if is_dull(piece) {
            return;
        }
        if !self.show_missed(rt) || !self.show_entries(rt, piece) {
            self.missed = self.missed.saturating_add(1);
        }
    }

    /// A turn waits.
    fn waits<R: Wait>(&mut self, rt: &R) {
        if !self.waits && self.show(rt, Sight::Waits) {
            self.waits = true;
        }
    }

    /// Tells what became of a piece.
    pub(crate) fn tell<R: Wait>(&mut self, rt: &R, news: News<'_>) {
        match news {
            News::Kept(piece) => self.kept(rt, piece),
            News::Waits => self.waits(rt),
        }
    }
}
