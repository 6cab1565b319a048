//! Blocks of bytes one behind the other, each behind its length of four bytes, greatest byte first.
//!
//! Choices that concern this crate alone:
//!
//! - No memory is taken for a length: a block takes what it has, piece by piece.
//! - How many bytes are read in all is limited by the caller, who keeps what is left of it.
#![tactic(auto)]

mod laws;
mod parts;
mod reading;
mod writing;

pub use laws::blocks_are_read_one_way;
pub use parts::ReadFault;
pub use reading::{NextBlock, read_block};
pub use writing::{WriteFault, write_block};
