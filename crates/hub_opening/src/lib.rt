//! A hub that threads share goes on from its journal.
//!
//! Choices that concern this crate alone:
//!
//! - The sessions' map is made anew from what the entries published, item by item, since what it shows is an equation of lists:
//!   sessions that are live alone would not do.
//! - The first pass gets the number behind that of each caller in the journal, so no pass has a number of one from before, whose
//!   tokens are good for nobody then.
#![tactic(auto)]

mod beginning;
mod going;
mod settling;

pub use beginning::begin;
pub use going::go_on;
pub use settling::settle_and_go_on;
