//! A large run of a hub of one thread with eight nodes in memory, which a number determines.
#![tactic(auto)]

mod actions;
mod carrying;
mod crew;
mod draws;
mod lists;
mod simulation;
mod summary;
mod text;
mod top;
mod writing;

pub use crew::simulated_config;
pub use summary::Summary;
pub use text::summary_text;
pub use top::{Simulated, simulate};
pub use writing::write_simulation;
