//! The sessions' map of a journal: what its entries publish, in order; and which session was at each slot last.
//!
//! Choices that concern this crate alone:
//!
//! - All items are kept until the journal is read, and shown then: who reads a journal has no leave to wait for readers. They take
//!   a tenth of what the journal takes.
//! - Each stay of a session at a slot is noted, and the last one is looked for at an opening alone: so a journal of any length is
//!   read in time linear in it.
#![tactic(auto)]

mod replay;

pub use replay::Replay;
