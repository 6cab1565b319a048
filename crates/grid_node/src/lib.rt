//! A node in memory that registers at a hub, tells it that it is there, and serves the links that come in.
#![tactic(auto)]

mod beating;
mod node_end;
mod registering;
mod serving;
mod single;
mod top;

pub use top::node_main;
