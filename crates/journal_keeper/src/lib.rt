//! A file that keeps a journal as it grows.
//!
//! Choices that concern this crate alone:
//!
//! - A file only grows, so its length is the clock: what a kill leaves has all that stood there when the last call was
//!   answered, and is a front of what would stand there next. No list of past moments is wanted, unlike for rows that a
//!   database keeps.
//! - A piece has the entries of one turn, and a kill or a full disk may cut it anywhere, also between two entries: what is
//!   left is a front of entries, not of turns.
//! - An append that fails tells how much it took, so that a running hub may wait, as for room on a full disk, and go on
//!   just there: it holds up what it answers, and neither forgets nor ends.
//! - Who watches is told copies of what is kept, behind the appends and within the turns, so in the order of the journal. No turn
//!   waits for who is slow: what finds no room is counted, and the count is told once there is room.
//! - A keeper over a real file tells no bytes. Then the clauses say that each piece was handed on and each failure told; that
//!   the file has what a write took is the system's promise.
#![tactic(auto)]

mod file;
mod keeper;
mod keeping;
mod laws;
mod memory;
mod watching;
mod whole;

pub use file::{FileKeeper, Syncing};
pub use keeper::{Keeper, News, NoJournal, Short};
pub use keeping::{Keeping, Watched};
pub use laws::{
    cut_pieces_are_images, fronts_are_images, kills_leave_images, pieces_go_on, written_is_journal,
};
pub use memory::MemKeeper;
pub use watching::{Sight, Watch};
pub use whole::{keep_all, keep_told};
