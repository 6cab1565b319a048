//! A link in front of another that hands out again what was read of it.
//!
//! Choices that concern this crate alone:
//!
//! - It tells what the link inside tells, but for the bytes that it has still to hand out: they were not given yet.
#![tactic(auto)]

mod again;
mod laws;
mod link;

pub use again::AgainLink;
pub use laws::last_bytes_are_untold;
