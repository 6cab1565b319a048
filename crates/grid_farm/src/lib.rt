//! What a farm is like after the entries of a hub's journal: its nodes with their slots, what waits, what was counted, and what
//! the last hour was like.
//!
//! Choices that concern this crate alone:
//!
//! - Entries are not checked: what is known is told of any history.
//! - Besides what a log remembers only what goes on is kept, and sixty minutes, so that a journal of any length is read in the
//!   memory that the farm at its fullest takes.
//! - Counts stay at 2^64 - 1 once they are there.
#![tactic(auto)]

mod counts;
mod farm;
mod gauges;
mod hour;
mod kind;
mod laws;
mod reading;
mod rows;
mod uses;

pub use counts::{Counts, NodeCounts, RequestCounts, SessionCounts, WaitCounts};
pub use farm::KnownFarm;
pub use gauges::{NodeStates, SlotStates};
pub use hour::{LastHour, minute_of};
pub use laws::slots_stand_in_order;
pub use reading::{FarmRead, Unread, read_farm};
pub use rows::{MinuteRow, SlotUse, UseRow};
