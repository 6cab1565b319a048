//! The driver of a connection over a shared hub: what the connection wants is done by a pass of the hub, a link, the link
//! to the nodes and a clock. Either it is served to its end, or step by step beside others that share its thread. Of the latter a
//! New Session that waits is given up where the line tells that its client has left.
//!
//! Choices that concern this crate alone:
//!
//! - The buffer for reads lies in the frame of the driver (65,536 bytes), so a connection needs no memory before its
//!   first request, and is never refused it.
#![tactic(auto)]

mod allowing;
mod calls;
mod seats;
mod serving;
mod stepping;

pub use hub_conn::{ConnFault, End, Served};
pub use seats::{Places, Seat, round, seats_stay_seated};
pub use serving::serve_shared;
pub use stepping::{Act, Rest};
