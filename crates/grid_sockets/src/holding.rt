//! The last byte of an answer to a client that sends nothing more.
//!
//! A client that was ended and one that only shut its writing half down look the same, until something is written: then the system
//! of the former says that nobody is there. So of a slow answer the last byte is held back for a moment, in which that comes.
ghost use Rattle.std.specs.Prelude.{◌<◌, ◌≤◌, IfSome};

use std::alloc::{AllocError, Global};
use std::sync::{Arc, Mutex};

/// How long it is held back, in milliseconds.
const HELD_MS: u64 = 100;

/// Only an answer that comes so long after the client's last byte is slow, in milliseconds. Others don't pay for the look whether
/// the client still sends: no browser starts in that time.
const SLOW_MS: u64 = 5;

/// The most bytes that are held back at once. Further ones are written at once.
const ROOM: usize = 1_024;

/// A place whose line goes on at the moment, in milliseconds.
#[derive(Clone, Copy)]
pub(crate) struct Due {
    place: usize,
    at: u64,
}

/// The places whose lines hold a byte back.
pub(crate) type Dues = Arc<Mutex<Vec<Due>>>;

/// No place yet.
pub(crate) fn dues(alloc: Global) -> Result<Dues, AllocError> {
    let list = Mutex::new(Vec::with_capacity(alloc, ROOM)?);
    match Arc::new(alloc, list) {
        Ok(dues) => Ok(dues),
        Err(_) => Err(AllocError),
    }
}

/// Names the places whose moment has come, as far as there is room for them, and says whether any is left.
pub(crate) fn name_due(dues: &Dues, now: u64, named: &mut Vec<usize>) -> bool {
    let Some(mut list) = dues.try_lock() else {
        return true;
    };
    for index in (0..list.len()).rev() {
        if index < list.len() && list[index].at <= now && named.len() < named.capacity() {
            named.push_reserved(list[index].place);
            let _ = list.swap_remove(index);
        }
    }
    !list.is_empty()
}

/// Whether a line holds a byte back.
#[derive(Clone, Copy)]
enum Held {
    Not,
    /// Until this moment.
    Until(u64),
    /// It has done so, and does no more.
    Over,
}

/// What a line knows of the answers to its client. Moments are those of the machine's clock, in milliseconds.
#[derive(Drop)]
pub(crate) struct Holding {
    dues: Option<Dues>,
    place: usize,
    /// When the client's last byte came.
    heard: u64,
    held: Held,
}

impl Holding {
    /// Nothing is ever held back.
    pub(crate) fn none() -> Holding {
        Holding {
            dues: None,
            place: 0,
            heard: 0,
            held: Held::Over,
        }
    }

    /// Of a line at the place.
    pub(crate) fn at(place: usize, dues: Option<Dues>) -> Holding {
        Holding {
            dues,
            place,
            heard: 0,
            held: Held::Not,
        }
    }

    /// Something came of the client at this moment.
    pub(crate) fn hears(&mut self, now: u64) {
        self.heard = now;
    }

    /// Whether it matters now whether the client still sends.
    pub(crate) fn asks(&self, now: u64) -> bool {
        match self.held {
            Held::Not => self.heard.saturating_add(SLOW_MS) <= now,
            Held::Until(_) => true,
            Held::Over => false,
        }
    }

    /// Begins to hold a byte back. False: there is no room to be told of it.
    fn begin(&mut self, now: u64) -> bool {
        let Some(dues) = &self.dues else {
            return false;
        };
        let Some(mut list) = dues.try_lock() else {
            return false;
        };
        let at = now.saturating_add(HELD_MS);
        let place = self.place;
        if list.len() >= ROOM || list.push(Due { place, at }).is_err() {
            return false;
        }
        self.held = Held::Until(at);
        true
    }

    /// All bytes but the last, where there are others and that can be held back.
    fn first_room(&mut self, count: usize, now: u64) -> usize
        ensures { (result ≤ count) × (0 < count → 0 < result) }
    {
        if count > 1 && self.begin(now) {
            return count - 1;
        }
        self.held = Held::Over;
        count
    }

    /// How many of so many bytes may be written now to a client that sends nothing more; None: none yet.
    pub(crate) fn room(&mut self, count: usize, now: u64) -> Option<usize>
        ensures { IfSome result (λ room. (room ≤ count) × (0 < count → 0 < room)) }
    {
        match self.held {
            Held::Not => Some(self.first_room(count, now)),
            Held::Until(at) if now < at => None,
            _ => {
                self.held = Held::Over;
                Some(count)
            }
        }
    }
}
