//! Connections over a hub of one thread.

mod beginning;
pub(crate) mod failing;
mod grid;
pub(crate) mod plays;
