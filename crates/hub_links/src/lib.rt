//! What a driver of a connection does with its link, or with a line that never waits: it reads a piece and writes some bytes, and says
//! what came of it as an answer for the connection.
#![tactic(auto)]

mod lines;
mod pieces;

pub use lines::{read_now, write_now};
pub use pieces::{read_piece, write_some};
