//! The hub of one thread that keeps each call that made entries, and is made again from what was kept.
#![tactic(auto)]

mod again;
mod kept_hub;
mod large_rows;
mod laws;
mod left;
mod opening;
mod own;
mod settling;
mod sizes;
mod small_rows;

pub use kept_hub::{KeptFault, KeptHub};
pub use laws::{nothing_was_called, rows_tell_one_history, ways_join};
pub use left::Left;
pub use opening::OpenFault;
pub use settling::settle;
