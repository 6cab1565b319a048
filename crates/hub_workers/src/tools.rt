//! What workers work with, and why a crew stopped early.
use grid_types::Spent;

/// What one worker works with.
#[derive(Drop)]
pub struct Tool<N: Drop, C: Drop> {
    /// What reaches the nodes.
    pub nodes: N,
    /// What tells the time.
    pub clock: C,
}

/// Why a crew has not done all its turns.
#[derive(Clone, Copy, Debug)]
pub enum CrewFault {
    /// The hub has no ticket left.
    Spent(Spent),
    /// There was no memory for a pass of each worker, and none has worked.
    Memory,
}
