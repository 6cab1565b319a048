//! The routes of the hub: what a request's method and target ask for.
//!
//! Choices that concern this crate alone:
//!
//! - The id in a path is cut at its place in the target and not taken from `matchit`'s parameters, whose clause asks
//!   that each part be proved UTF-8.
//! - A `Router` is a struct around the table of `matchit`, with the fact that the table has its rows as a ghost
//!   field. It is out of memory only where it is made.
#![tactic(auto)]

mod place;
mod routed;
mod router;
mod table;
mod target;

pub use routed::{RouteFault, Routed};
pub use router::{Router, route};
