//! The driver of a connection in one thread, over a hub of one thread or another hub of one caller.
#![tactic(auto)]

mod before;
mod calls;
mod serving;

pub use before::begin;
pub use calls::make;
pub use hub_conn::{ConnFault, End, Served};
pub use serving::{serve_by, serve_local};
