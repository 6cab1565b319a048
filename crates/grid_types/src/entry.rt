//! Entries of a history: what changed, and the words in it.
use crate::capabilities::{Caps, Choices, Registration};
use crate::names::{Moment, NodeAddress, NodeNo, ReqNo, SessionId, SlotId, Words};

/// Why the start of a session failed.
///
/// Mismatch, NodeGone, Duplicate and Late are the hub's own: it did not keep a session that the node had already started.
#[derive(Clone, Copy, Debug, PartialEq, Eq)]
pub enum FailWhy {
    /// The node answered with an error, whose message this is.
    NodeRefused(Words),
    /// No exchange with the node came about.
    Unreachable,
    /// What the node answered is not HTTP.
    NotHttp,
    /// The node's answer names neither a session nor an error.
    BadReply,
    /// The capabilities that the node returned are not what was wanted.
    Mismatch,
    /// The node was removed or had lapsed in the meantime.
    NodeGone,
    /// A session with this id was live already.
    Duplicate,
    /// The request was settled in the meantime.
    Late,
    /// The hub found no memory for the start.
    NoMemory,
}

/// Why a session ended.
#[derive(Clone, Copy, Debug, PartialEq, Eq)]
pub enum EndCause {
    /// Its client asked for it.
    Quit,
    /// It had been idle for too long.
    Idle,
}

/// How a request was settled.
#[derive(Debug, Drop)]
pub enum Outcome {
    /// A session was created for it: its id, the capabilities that the node returned, the slot, the address of the slot's
    /// node, and the binding, which is the request's number.
    Created {
        session: SessionId,
        caps: Caps,
        slot: SlotId,
        address: NodeAddress,
        binding: ReqNo,
    },
    /// Its deadline came first.
    TimedOut {
        deadline: Moment,
    },
    /// Its last start failed for this cause: no other node was left to try.
    StartFailed(FailWhy),
    /// The queue was cleared while it waited.
    Cleared,
}

/// One change of the hub, each but `Freed` with its moment `at`. Which change may follow a history is said by `permitted`
/// in the definitions; nothing here checks it.
#[derive(Debug, Drop)]
pub enum Change {
    /// A node registered, under a new number.
    Registered {
        node: NodeNo,
        registration: Registration,
        at: Moment,
    },
    /// A node gave a sign of life.
    Beaten {
        node: NodeNo,
        at: Moment,
    },
    /// A node takes no new sessions from here on.
    Draining {
        node: NodeNo,
        at: Moment,
    },
    /// A node was removed. Its sessions go on.
    Removed {
        node: NodeNo,
        at: Moment,
    },
    /// A node was silent for too long. Its bound sessions end.
    Lapsed {
        node: NodeNo,
        at: Moment,
    },
    /// A request was accepted.
    Queued {
        request: ReqNo,
        choices: Choices,
        deadline: Moment,
        at: Moment,
    },
    /// A slot is held for a choice of a request, numbered from 0.
    Reserved {
        request: ReqNo,
        slot: SlotId,
        choice: u16,
        at: Moment,
    },
    /// A session that a node started on the held slot is kept; `caps` are what the node returned.
    Bound {
        request: ReqNo,
        slot: SlotId,
        session: SessionId,
        caps: Caps,
        at: Moment,
    },
    /// A start failed. `orphan` is the session that the node had started and the hub does not keep; `last` says that this
    /// failure settles the request.
    Failed {
        request: ReqNo,
        slot: SlotId,
        why: FailWhy,
        orphan: Option<SessionId>,
        last: bool,
        at: Moment,
    },
    /// A request was settled by its deadline.
    TimedOut {
        request: ReqNo,
        at: Moment,
    },
    /// A waiting request was settled by a clearing of the queue.
    Cleared {
        request: ReqNo,
        at: Moment,
    },
    /// A request's outcome was handed out.
    Taken {
        request: ReqNo,
        at: Moment,
    },
    /// A session was used.
    Touched {
        binding: ReqNo,
        at: Moment,
    },
    /// A session ended. Its slot is free only once the node was asked to end it too.
    Ended {
        binding: ReqNo,
        cause: EndCause,
        at: Moment,
    },
    /// A slot whose session has ended at its node is free again.
    Freed {
        slot: SlotId,
    },
    /// A node was silent for so long that it takes no new session until its next sign of life.
    Suspected {
        node: NodeNo,
        at: Moment,
    },
}

/// One entry of a history: a change, and the number of the caller that made it.
#[derive(Debug, Drop)]
pub struct Entry {
    /// The number of whoever made it: of the one caller of a hub of one thread 0, else of a pass to the shared hub.
    pub caller: u64,
    pub change: Change,
}

/// Where a session runs, as a lookup tells it.
#[derive(Clone, Copy, Debug, PartialEq, Eq)]
pub enum Found {
    /// Its slot, the address of the slot's node, and the number of the request that it was created for.
    At {
        slot: SlotId,
        address: NodeAddress,
        binding: ReqNo,
    },
    /// No session of this id is live.
    NoSession,
}
