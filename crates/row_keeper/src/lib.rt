//! What keeps rows of bytes over a crash: a trait whose objects may tell what each crash leaves, and one in memory.
#![tactic(auto)]

mod keeper;
mod mem_keeper;

pub use keeper::{KeepFault, Keeper};
pub use mem_keeper::{KeepCall, MemKeeper, Planned};
