//! A hub by what a store has of its journal: it goes on from there, or begins a journal.
//!
//! Choices that concern this crate alone:
//!
//! - A store is read from its beginning on, and what it gave is what the contract speaks of. What is behind the last whole entry is cut
//!   off before the hub goes on.
//! - Where nobody is listed and nothing is open, a journal that has entries is put aside, and a new one begins with the next numbers: then
//!   no number is given twice, and other options may begin.
//! - A journal begins by an opening too, of a history without an entry: so one call says what a hub goes on from.
//! - The first pass has the number behind the greatest of a caller, so no pass has a number of one from before.
#![tactic(auto)]

mod fault;
mod memory;
mod opening;
mod options;
mod over;
mod store;

pub use fault::{HubOption, StoreFault, Unopened};
pub use memory::MemStore;
pub use opening::open_store;
pub use store::{Outset, Store};
