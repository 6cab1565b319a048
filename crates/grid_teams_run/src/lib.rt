//! Teams in memory from words: blocks of bytes from an input, each one connection, and what is written for each to an output.
//!
//! Choices that concern this crate alone:
//!
//! - Where memory is wanted before the teams are made, nothing is read or written.
//! - A block is read whole before it is served, and what goes out for it is made whole before it is written.
//! - That the input ended is told before a block that is too long only where no length was read.
#![tactic(auto)]

mod blocks;
mod laws;
mod limits;
mod run_end;
mod teams;
mod top;

pub use laws::blocks_are_apart;
pub use limits::MOST_INPUT_BYTES;
pub use run_end::RunEnd;
pub use top::teams_run;
