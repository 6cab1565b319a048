//! What a request asks for, and why it has no route.

/// What a request asks for. Its slices are slices of the target.
#[derive(Clone, Copy, Debug, PartialEq, Eq)]
pub enum Routed<'a> {
    /// A New Session (WebDriver §8.1).
    NewSession,
    /// A Delete Session (WebDriver §8.2): the session's id.
    DeleteSession(&'a [u8]),
    /// A command below a session: the session's id, and the target for the node, with its query.
    Relay { id: &'a [u8], target: &'a [u8] },
    /// The hub's status (WebDriver §8.3).
    Status,
    /// The waiting requests.
    Queue,
    /// To clear the queue.
    ClearQueue,
    /// A node's registration.
    Register,
    /// To remove a node: its id.
    Remove(&'a [u8]),
    /// To drain a node: its id.
    Drain(&'a [u8]),
    /// A sign of a node's life: its id.
    Beat(&'a [u8]),
}

/// Why a request has no route.
#[derive(Clone, Copy, Debug, PartialEq, Eq)]
pub enum RouteFault {
    /// No path of the table is the request's.
    UnknownCommand,
    /// The path is there, and not with this method.
    UnknownMethod,
    /// Memory was wanted and there was none.
    Memory,
}
