//! Starts of sessions at a node: a decision core that says what it wants, and is told what came of
//! that.
//!
//! Choices that concern this crate alone:
//!
//! - `CarryWant::Bind`, `Fail` and `Freed` have no payload; `take_bind`, `take_fail` and `take_closing` hand the call
//!   out. A want that lends from the core and owns memory besides gets no generated proof. `Carry::next` takes
//!   `&self`, since nothing changes in it.
//! - `short` of a start is told already while a failure out of memory is about to be asked for; at the end it is a
//!   function of the steps.
//! - The request that ends a session is written in place (137 bytes), so it takes no memory. An exchange that answers
//!   out of memory is a step though it was not made. Where reading a reply finds no memory, the start fails out of
//!   memory after the exchange with that reply.
#![tactic(auto)]

mod carry;
mod laws;
mod path;
mod quitting;
mod reply;
mod requests;
mod wants;

pub use carry::Carry;
pub use laws::{
    replies_say_one_thing, starts_are_short, starts_spend_all, starts_stand_by_their_wants,
};
pub use path::SessionPath;
pub use quitting::{ask_to_end, was_sent};
pub use reply::session_of;
pub use requests::{quit_request, start_request};
pub use wants::{CarryAnswer, CarryEnd, CarryWant};
