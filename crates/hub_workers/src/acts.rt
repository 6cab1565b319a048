//! What a worker or a ticker does that shares its thread with others.
use grid_types::Spent;

/// What it did.
#[derive(Clone, Copy, Debug, PartialEq, Eq)]
pub enum WorkAct {
    /// It did something, and may do more at once.
    GoesOn,
    /// It waits for its node, and has done nothing.
    AwaitsNode,
    /// It pauses until this moment, in milliseconds, and has done nothing.
    Until(u64),
    /// The hub has no ticket left, so nothing more is done.
    Over(Spent),
}
