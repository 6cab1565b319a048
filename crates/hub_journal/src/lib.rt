//! The journal of a hub's program: its file, the hub that goes on from it, and a thread that tells what it enters.
//!
//! Choices that concern this crate alone:
//!
//! - The file is opened to append and locked before anything of it is read, so a second hub finds it held and reads nothing. The
//!   system gives the lock back where a hub is killed.
//! - What is behind the last whole entry is cut off before the hub goes on, and nothing else of a file is ever changed: a file that is
//!   no journal, or the journal of a hub with other options, is left as it is.
//! - Where nobody is listed and nothing is under way, a journal that has entries is put aside under a name with a number, and a new
//!   one begins with the next numbers: then no number is given twice, and other options may begin.
//! - A session whose slot was closing is asked to end at its node, once, where that can be reached: one that ended, or that a start
//!   which failed left over there.
//! - Before it tells anything it reads the journal from which the hub goes on a second time, beside the hub, so that what it tells of
//!   a session or a node of before has its names. Where it can't read that, these are left out.
//! - The thread that tells also makes what was appended stay on the disk, so that no turn waits for a disk.
#![tactic(auto)]

mod aside;
mod asking;
mod beginning;
mod beside;
mod file_hub;
mod file_store;
mod sights;
mod telling;
mod trouble;

pub use beside::{HubSide, run_told};
pub use file_hub::FileHub;
pub use sights::Sights;
pub use telling::{StandardError, tell_all};
pub use trouble::Trouble;
