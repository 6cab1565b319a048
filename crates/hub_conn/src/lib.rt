//! One connection to the hub, as a machine that does no input and output itself: it is fed what came, and says what it
//! wants next. In place of the end of a pause between two polls it may be told that its client has left: then it withdraws the
//! request, writes nothing more, and ends as after a failed read.
//!
//! Choices that concern this crate alone:
//!
//! - A response is built whole before it is written, and handed out in pieces of at most 65,536 bytes. `kept` counts
//!   the whole response until it was taken, and the whole of the last piece, since that memory is held.
//! - The limit on a relay's response is a clause on what `feed` leads to, and not a limit in `Talk`: the reply was
//!   within its limits when it came.
#![tactic(auto)]

mod inbox;
mod laws;
mod talk;

pub use conn_script::{
    Answer, ConnFault, End, HubAnswer, HubCall, LIMIT, PAUSE, PIECE, Served, Want,
};
pub use laws::{calls_are_rightful, conversations_find_spent_last, wants_come_in_order};
pub use talk::Talk;
