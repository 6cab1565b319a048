//! The grid in one thread: one connection over an input and an output, by a hub of its own with nodes in memory; or the
//! summary of a simulation.
//!
//! Choices that concern this crate alone:
//!
//! - Where memory is wanted before the hub and its nodes are made, nothing is read or written.
//! - Want of memory ends a connection only for bytes that no answered request holds, before a request or the end of input ends it. So a run that
//!   answered all that was asked and read the end of input is told as out of memory only where a step on the way was, after which it went on.
//! - A connection that ended at the most bytes that are read is told by its own status, also where memory was wanted on the way.
//! - That the arguments and the bytes fix the conversation is a law about the definitions: it says that there is at
//!   most one in which no step was out of memory. That there is one is what `run` says with status 0.
#![tactic(auto)]

mod crew;
mod joined;
mod laws;
mod top;

pub use crew::{Crew, crew_of, registration_of};
pub use joined::Joined;
pub use laws::{
    one_conversation, one_talk, said_nodes_fit, served_is_a_talk, sessions_are_bounded, talks_stand,
};
pub use top::{run, status_of};
