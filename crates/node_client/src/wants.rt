//! What a start wants, and what it is told.
use grid_outside::{ExchangeFault, Reply};
use grid_types::NodeAddress;
use http_frames::NodeRequest;
use hub_core::{Binding, Failing};

/// How a start ended.
#[derive(Clone, Copy, Debug, PartialEq, Eq)]
pub enum CarryEnd {
    /// The session is bound.
    Bound,
    NotBound,
}

/// What a start wants. A call of the hub is handed out by a call of its own: `take_bind`,
/// `take_fail`, `take_closing`.
#[derive(Clone, Copy, Debug)]
pub enum CarryWant<'a> {
    Node {
        address: NodeAddress,
        request: NodeRequest<'a>,
    },
    Bind,
    Fail,
    Freed,
    Done(CarryEnd),
}

/// What came of that.
#[derive(Debug, Drop)]
pub enum CarryAnswer {
    Node(Result<Reply, ExchangeFault>),
    Bound(Binding),
    Failed(Failing),
    Freed,
}
