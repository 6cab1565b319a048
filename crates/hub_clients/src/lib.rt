//! Clients of the shared hub: what one pass and what many may rely on, by the hub's clauses alone.
#![tactic(auto)]

mod alone;
mod finding;
mod many;

pub use alone::{beats, start_far_away};
pub use finding::find_published;
pub use many::many_beat;
