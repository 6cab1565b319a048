//! What a log remembers of the past.

use grid_types::{Moment, NodeNo, ReqNo, SessionId, SlotId, Text};

/// A node that is registered.
#[derive(Drop)]
pub struct NodeRow {
    pub node: NodeNo,
    pub name: Text,
    /// How many slots it has.
    pub slots: u64,
}

/// A request that is not settled.
#[derive(Clone, Copy)]
pub struct WaitRow {
    pub request: ReqNo,
    /// When it was queued.
    pub at: Moment,
}

/// A session that runs.
#[derive(Clone, Copy)]
pub struct SessionRow {
    /// The number of its request.
    pub binding: ReqNo,
    pub session: SessionId,
    pub slot: SlotId,
    /// When it was created.
    pub at: Moment,
}

/// A clearing of a request.
#[derive(Clone, Copy)]
pub struct Clearing {
    /// The number of who cleared it.
    pub caller: u64,
    pub request: ReqNo,
}
