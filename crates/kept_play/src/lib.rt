//! The grid in one thread over a keeper: what was kept is made again, and one connection is served over it.
//!
//! A bind that finds no memory closes a hub that keeps its calls, where a hub of one thread would answer so: its row is tried before
//! it is known whether the session is kept.
#![tactic(auto)]

mod places;
mod playing;
mod serving;
mod statuses;
mod top;

pub use serving::{KeptEnd, serve_kept};
pub use top::kept_run;
