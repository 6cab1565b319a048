//! A hub goes on from its journal: what was under way when it ended is settled by entries of its own, before anybody has a pass.
//!
//! Choices that concern this crate alone:
//!
//! - Each entry is permitted by the ledger, told to the listener, put behind the journal and then noted, one after the other. So an
//!   opening may end anywhere, and the next one does the rest.
//! - What is open is found by a look at each number that a node or a request has had, which takes no longer than the reading of
//!   the journal did. An entry that is not permitted is not made, so most of these looks leave all as it is.
//! - A moment before the last one of the history is raised to that one.
//! - Nobody was told of a session whose outcome nobody took. It is ended, and its outcome taken after that: an opening that
//!   ends between the two finds the outcome again.
//! - Each step makes its entry under the caller that the history names, so that it is permitted: that nothing is open afterwards is
//!   proved, and not looked for.
#![tactic(auto)]

mod ender;
mod fault;
mod finishing;
mod opening;
mod settling;

pub use ender::{Ender, NoEnder};
pub use fault::{OpeningFault, Unsettled};
pub use finishing::Settled;
pub use opening::Opening;
