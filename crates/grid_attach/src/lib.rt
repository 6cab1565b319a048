//! A driver that already runs, put behind the hub as a node: it is registered, and beats are sent for it while it answers.
#![tactic(auto)]

mod attaching;
mod build;
mod driver;
mod program;
mod registering;

pub use attaching::{BEAT_MS, RETRY_MS, attach, fixed_times};
pub use program::attach_main;
