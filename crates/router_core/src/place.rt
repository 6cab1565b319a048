//! The rows and the methods of the table.

/// The rows of the table of paths.
#[derive(Clone, Copy, Debug, PartialEq, Eq)]
pub enum Place {
    /// `/session`
    Session,
    /// `/session/{id}`
    OneSession,
    /// `/session/{id}/` and more
    Commands,
    /// `/status`
    Status,
    /// `/se/grid/newsessionqueue/queue`
    Queue,
    /// `/se/grid/distributor/node`
    Nodes,
    /// `/se/grid/distributor/node/{id}`
    OneNode,
    /// `/se/grid/distributor/node/{id}/drain`
    Drain,
    /// `/se/grid/distributor/node/{id}/beat`
    Beat,
}

/// The methods that the table tells apart.
#[derive(Clone, Copy, Debug, PartialEq, Eq)]
pub enum Method {
    Get,
    Post,
    Delete,
    Other,
}
