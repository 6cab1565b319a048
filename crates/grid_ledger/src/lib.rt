//! The tables of the hub as they stand for a history: whether a change is permitted after it, and the history with it.
//!
//! Choices that concern this crate alone:
//!
//! - The history is not kept: the hub's tables stand for it, with the next numbers and the clock, so that a history of any
//!   length takes the memory of the hub at its fullest.
//! - Whether a change is permitted is asked first, and only then it is noted. Each kind of change has one function for
//!   each of the two, and `permits` is exact for whatever history the tables stand for.
//! - The search for the next assignment begins at the first request each time: it is made only where a journal has a
//!   reservation, and then mostly finds one soon.
//! - Without memory there is no more use for the tables: a note that finds none leaves them as it may.
#![tactic(auto)]

mod ledger;
mod listener;

pub use ledger::GridLedger;
pub use listener::{Listener, NoListener};
