//! Answers of all calls as one type, without the tokens.
use grid_types::{Moment, NoMemory, NodeAddress, NodeNo, Outcome, ReqNo, SessionId, SlotId, View};
use hub_core::{Closing, Reservation};

/// What a reservation tells, but for the capabilities that are wanted.
#[derive(Clone, Copy, Debug, PartialEq, Eq)]
pub struct Held {
    pub request: ReqNo,
    pub slot: SlotId,
    /// The number of the request's choice.
    pub choice: u16,
    pub address: NodeAddress,
}

impl Held {
    pub(crate) fn of(reservation: &Reservation) -> Held {
        Held {
            request: reservation.request(),
            slot: reservation.slot(),
            choice: reservation.choice(),
            address: reservation.address(),
        }
    }
}

/// What a closing tells.
#[derive(Clone, Copy, Debug, PartialEq, Eq)]
pub struct Closed {
    pub session: SessionId,
    pub slot: SlotId,
    pub address: NodeAddress,
    pub quit: bool,
}

impl Closed {
    pub(crate) fn of(closing: &Closing) -> Closed {
        Closed {
            session: closing.session(),
            slot: closing.slot(),
            address: closing.address(),
            quit: closing.quit(),
        }
    }
}

/// An answer of the hub, with what its tokens tell in their place.
#[derive(Debug, Drop)]
pub enum Answer {
    Registered(NodeNo),
    /// A registered node has the name: its number.
    NameTaken(NodeNo),
    NodesFull {
        listed: u32,
    },
    NumbersSpent,
    Beaten,
    Draining,
    Removed,
    NoNode,
    Queued {
        request: ReqNo,
        deadline: Moment,
    },
    Unsupported,
    QueueFull {
        count: u32,
        bytes: u64,
    },
    NotYet,
    Yours(Held),
    Settled(Outcome),
    Withdrawn,
    Assigned(Held),
    /// There is no assignment, or no idle session.
    Nothing,
    Bound(ReqNo),
    Late(Closed),
    NodeGone(Closed),
    Duplicate(Closed),
    Mismatch(Closed),
    Again,
    Refused,
    /// The start failed after the request was settled.
    FailedLate,
    At {
        slot: SlotId,
        address: NodeAddress,
        binding: ReqNo,
    },
    Touched,
    Ended(Closed),
    NoSession,
    Freed,
    Swept {
        lapsed: u32,
        suspected: u32,
        timed_out: u32,
        removed: u32,
    },
    Expired(Closed),
    Cleared(u32),
    Viewed(View),
}

/// Why a call has no answer.
#[derive(Clone, Copy, Debug, PartialEq, Eq)]
pub enum Fault {
    Memory,
    /// The desk has no such token.
    NoToken,
    /// The configuration, the size of a registration or the cause of a failed start is none that a hub takes.
    NotTaken,
}

impl From<NoMemory> for Fault {
    fn from(_: NoMemory) -> Fault {
        Fault::Memory
    }
}
