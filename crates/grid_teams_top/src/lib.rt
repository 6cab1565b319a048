//! Teams apart from each other: blocks of bytes that are served for teams in memory.
//!
//! Choices that concern this crate alone:
//!
//! - The head is read by a reader of its own, and the bytes are served from their first one on, so that what a hub answers is the
//!   conversation about all of them.
//! - A connection without an accepted head is answered without any hub.
#![tactic(auto)]

mod block;
mod block_link;
mod blocks;
mod heads;
mod laws;
mod playing;

pub use blocks::{serve_block, serve_blocks};
pub use heads::feed_head;
pub use laws::teams_are_apart;
pub use playing::{MOST_BLOCK_BYTES, PlayingTeam, start};
pub use team_words::TeamPlay;
