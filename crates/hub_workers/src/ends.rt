//! How workers and tickers end.
use grid_types::Spent;

/// How a worker or a ticker ended.
#[derive(Clone, Copy, Debug)]
pub enum WorkerEnd {
    /// It has made all its turns.
    TurnsDone,
    /// The hub has no ticket left.
    Spent(Spent),
}
