//! Why no hub goes on from a store.

use grid_opening::OpeningFault;
use journal_keeper::Keeping;
use journal_verdicts::Verdict;

/// What a hub is set up with, but for the first numbers that it gives.
#[derive(Clone, Copy, Debug, PartialEq, Eq)]
pub enum HubOption {
    /// How long a request waits.
    RequestTimeout,
    /// How long a session lives that is not used.
    SessionTimeout,
    /// How many requests may wait.
    QueueLimit,
    /// Whether a request is refused that no node could meet.
    Unsupported,
    /// How long a node may give no sign.
    Lapse,
}

/// Why no hub goes on from a store.
#[derive(Clone, Copy, Debug, PartialEq, Eq)]
pub enum StoreFault {
    /// There was no memory.
    Memory,
    /// The store failed.
    Failed,
    /// What it has is no journal of a legal history.
    Verdict(Verdict),
    /// It has the journal of a hub that was started with another value of this option.
    Option(HubOption),
    /// What was under way could not be settled.
    Opening(OpeningFault),
}

/// No hub goes on, and what keeps the journal comes back, where something does.
#[derive(Drop)]
pub struct Unopened {
    pub fault: StoreFault,
    pub keeping: Keeping,
}
