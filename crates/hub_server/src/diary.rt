//! When the connections of a loop are looked at again. It is about time alone, so no promise rests on it.
use grid_types::NoMemory;
use std::alloc::Global;
use std::sync::atomic::{AtomicU64, Ordering};

/// So many connections whose pause is over go on in one round, so that they hold up none whose line is ready.
const WAKES: usize = 16;

/// A connection that has rested so many milliseconds gives back the memory that it can do without. Its next request takes longer.
const RESTS_MS: u64 = 500;

/// The same where a loop has had more than so many connections at once: what they could give back adds up.
const RESTS_OF_MANY_MS: u64 = 100;

const MANY: usize = 256;

/// A connection that waits for its line is tried after so many milliseconds all the same: it ends where it has been silent for too
/// long.
const TRIES_MS: u64 = 10_000;

/// The same of one that waits for its node: its client is to be answered soon after the exchange has had its time.
const NODE_TRIES_MS: u64 = 1_000;

/// No moment.
const NEVER: u64 = u64::MAX;

/// What is known of a place. Times are in milliseconds.
#[derive(Clone, Copy)]
struct Slot {
    /// When its connection is looked at again.
    due: u64,
    /// When that is told to give memory back.
    rests: u64,
    /// It waits for a moment, and not for its line or its node.
    pauses: bool,
}

/// A place at which no connection stands.
const EMPTY: Slot = Slot {
    due: NEVER,
    rests: NEVER,
    pauses: false,
};

/// Of each place, when it is looked at again.
#[derive(Drop)]
pub(crate) struct Diary {
    slots: Vec<Slot>,
    /// No connection has stood at this place yet, nor at one behind it.
    reach: usize,
    /// Where the next look begins.
    next: usize,
    /// How many connections pause here, and how many of these the count of all loops has taken in.
    pausing: u64,
    counted: u64,
    /// How many connections of all loops paused when it was looked last.
    all: u64,
    /// Some connection may go on at once.
    soon: bool,
    /// When it was looked last.
    looked: u64,
    /// No connection is to be looked at before.
    nearest: u64,
}

/// Where the look goes on behind the place.
fn behind(place: usize, count: usize) -> usize {
    if place < count {
        place.saturating_add(1)
    } else {
        0
    }
}

impl Diary {
    /// Of so many places.
    pub(crate) fn new(alloc: Global, count: usize) -> Result<Diary, NoMemory> {
        let mut slots = Vec::with_capacity(alloc, count)?;
        for _ in 0..count {
            if slots.push(EMPTY).is_err() {
                return Err(NoMemory);
            }
        }
        Ok(Diary {
            slots,
            reach: 0,
            next: 0,
            pausing: 0,
            counted: 0,
            all: 0,
            soon: false,
            looked: 0,
            nearest: NEVER,
        })
    }

    fn put(&mut self, place: usize, due: u64, pauses: bool) {
        if let Some(slot) = self.slots.get_mut(place) {
            let paused = slot.pauses;
            slot.due = due;
            slot.pauses = pauses;
            self.nearest = self.nearest.min(due);
            self.count(paused, pauses);
            self.reach = self.reach.max(place.saturating_add(1));
        }
    }

    /// Counts a connection that has begun to pause, or does so no more.
    fn count(&mut self, paused: bool, pauses: bool) {
        if pauses && !paused {
            self.pausing = self.pausing.saturating_add(1);
        }
        if paused && !pauses {
            self.pausing = self.pausing.saturating_sub(1);
        }
    }

    /// The connection at the place may go on at once.
    pub(crate) fn goes_on(&mut self, place: usize) {
        self.soon = true;
        self.put(place, 0, false);
    }

    /// It waits for its line since the moment.
    pub(crate) fn waits(&mut self, place: usize, at: u64) {
        self.put(place, at.saturating_add(TRIES_MS), false);
    }

    /// It waits for its node since the moment.
    pub(crate) fn awaits_node(&mut self, place: usize, at: u64) {
        self.put(place, at.saturating_add(NODE_TRIES_MS), false);
    }

    /// It waits for the moment. The more of them wait, the less often each is asked: those of all loops together ask some 10,000
    /// times a second at most.
    pub(crate) fn pauses(&mut self, place: usize, due: u64) {
        let longer = (self.all / 10).saturating_sub(15);
        self.put(place, due.saturating_add(longer), true);
    }

    /// Its line or its node may have something for it.
    pub(crate) fn stirs(&mut self, place: usize, at: u64) {
        let rests_ms = if self.reach > MANY {
            RESTS_OF_MANY_MS
        } else {
            RESTS_MS
        };
        if let Some(slot) = self.slots.get_mut(place) {
            slot.rests = at.saturating_add(rests_ms);
        }
    }

    /// No connection stands there any more.
    pub(crate) fn clear(&mut self, place: usize) {
        if let Some(slot) = self.slots.get_mut(place) {
            let paused = slot.pauses;
            *slot = EMPTY;
            self.count(paused, false);
        }
    }

    /// Whether the connection at the place has rested long enough to give memory back. It is told once.
    pub(crate) fn has_rested(&mut self, place: usize, at: u64) -> bool {
        let Some(slot) = self.slots.get_mut(place) else {
            return false;
        };
        if slot.rests > at {
            return false;
        }
        slot.rests = NEVER;
        true
    }

    /// Whether the connection at the place is to be looked at. It is told once.
    fn is_due(&mut self, place: usize, at: u64) -> bool {
        let Some(slot) = self.slots.get_mut(place) else {
            return false;
        };
        if slot.due > at {
            self.nearest = self.nearest.min(slot.due);
            return false;
        }
        slot.due = NEVER;
        true
    }

    /// Tells the count of all loops how many pause here, and is told how many do in all.
    fn tell(&mut self, all: &AtomicU64) {
        let more = self.pausing.wrapping_sub(self.counted);
        self.all = all.fetch_add(more, Ordering::SeqCst).wrapping_add(more);
        self.counted = self.pausing;
    }

    /// Puts the places that are to be looked at behind `ready`: some of them, from where the last look ended. It looks once in a
    /// millisecond, unless some connection may go on at once. `all` is how many connections of all loops pause. Takes no memory.
    pub(crate) fn wake(&mut self, at: u64, all: &AtomicU64, ready: &mut Vec<usize>) {
        if !self.soon && at <= self.looked {
            return;
        }
        self.tell(all);
        self.looked = at;
        self.soon = false;
        self.nearest = NEVER;
        let mut woken = 0usize;
        for _ in 0..self.reach {
            if woken == WAKES || ready.len() == ready.capacity() {
                self.soon = true;
                return;
            }
            let place = self.next;
            self.next = behind(place, self.reach);
            if self.is_due(place, at) {
                woken = woken.saturating_add(1);
                let _ = ready.push(place);
            }
        }
    }

    /// How many places there are at which a connection may stand, or has stood.
    pub(crate) fn places(&self) -> usize {
        self.reach
    }

    /// For how many milliseconds no connection is to be looked at whose line and node have nothing, since it was looked last.
    pub(crate) fn leave(&self) -> u64 {
        if self.soon {
            0
        } else {
            self.nearest.saturating_sub(self.looked)
        }
    }
}
