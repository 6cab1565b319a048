//! The hub's status and its queue as JSON bodies, byte for byte.
//!
//! Choices that concern this crate alone:
//!
//! - A node's address and name are written as JSON strings, since an address may have `"` or `\`.
//! - A slot's number counts the slots shown before it, so that a view with fewer slots than its groups count has a
//!   meaning too.
#![tactic(auto)]

mod comma;
mod nodes;
mod queue;
mod slots;
mod status;

pub use queue::queue_body;
pub use status::status_body;
