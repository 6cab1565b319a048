//! A WebDriver endpoint in memory, which stands in for a node with a browser.
//!
//! Choices that concern this crate alone:
//!
//! - A node that has created 2^64 - 1 sessions has no further id, and answers out of memory. It doesn't look at the
//!   headers of a request, so `serve_node` hands it none.
//! - After a fault `serve_node` states that the node answered some requests at the front of the bytes that came and
//!   that a front of what is due for them was written; how long that front is, is not said.
#![tactic(auto)]

mod incoming;
mod laws;
mod links;
mod node;
mod paths;
mod reading;
mod replies;
mod serving;

pub use laws::fixed_limits;
pub use links::{LoopList, LoopNodes};
pub use node::LoopNode;
pub use serving::{NodeFault, serve_node};

mod writing;
