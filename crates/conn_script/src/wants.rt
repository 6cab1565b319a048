//! What is wanted of a driver, and what it answers.
use grid_outside::{ExchangeFault, PIECE_BYTES, Reply};
use grid_types::{
    Caps, Choices, FailWhy, Found, NoMemory, NodeAddress, NodeNo, Registration, ReqNo, SessionId,
    Spent, Text, View,
};
use http_frames::{FrameFault, NodeRequest};
use hub_core::{
    Beating, Binding, Closing, Draining, Ending, Enqueued, Failing, Polled, Registering, Removal,
    Reservation, Ticket, Touching, Withdrawing,
};

/// The longest piece that is read or written at once, in bytes.
pub const PIECE: u64 = PIECE_BYTES as u64;

/// How many bytes are read on a connection.
pub const LIMIT: u64 = 1 << 40;

/// Milliseconds between two polls of a request, or two withdrawals of it.
pub const PAUSE: u64 = 15;

/// How a connection was served to its end.
#[derive(Clone, Copy, Debug, PartialEq, Eq)]
pub struct Served {
    /// The whole requests that were answered.
    pub frames: u64,
    pub end: End,
    /// Whether it went on after it was out of memory.
    pub short: bool,
}

/// How a connection ended. A place is that in its bytes where the request begins.
#[derive(Clone, Copy, Debug, PartialEq, Eq)]
pub enum End {
    /// The input ended behind a whole request.
    Closed,
    /// A request asked for it.
    Asked,
    Refused { why: FrameFault, at: u64 },
    /// The input ended inside a request.
    Cut { at: u64 },
    /// As many bytes were read as are read on a connection.
    Limit,
    HubSpent,
}

/// Why a connection was not served to its end.
#[derive(Clone, Copy, Debug, PartialEq, Eq)]
pub enum ConnFault {
    Read,
    Write,
    Memory,
}

/// A call of the hub. The driver adds its caller and the moment.
#[derive(Debug, Drop)]
pub enum HubCall {
    Register(Registration),
    Beat(NodeNo),
    /// A beat that told the name of its node.
    BeatAs(NodeNo, Text),
    Drain(NodeNo),
    Remove(NodeNo),
    Enqueue(Choices),
    Poll(Ticket),
    /// The client of the request has left.
    Withdraw(Ticket),
    Bind(Reservation, SessionId, Caps),
    Fail(Reservation, FailWhy),
    Lookup(SessionId),
    Touch(SessionId, ReqNo),
    End(SessionId, ReqNo),
    Freed(Closing),
    Clear,
    View,
}

/// What the hub answered.
#[derive(Debug, Drop)]
pub enum HubAnswer {
    Register(Registering),
    Beat(Beating),
    Drain(Draining),
    Remove(Removal),
    Enqueue(Enqueued),
    Poll(Polled),
    Withdraw(Withdrawing),
    Bind(Binding),
    Fail(Failing),
    Lookup(Found),
    Touch(Touching),
    End(Ending),
    Freed,
    Clear(u32),
    View(Result<View, NoMemory>),
    /// The hub takes no more calls. Tokens that were handed in are void.
    Spent(Spent),
    /// There was no memory to make the call.
    NoRoom,
}

/// What is wanted. Slices lie in the connection's own memory.
#[derive(Clone, Copy, Debug)]
pub enum Want<'a> {
    /// To read a piece of at most so many bytes.
    Read(u32),
    /// To write some of these bytes, from the first on.
    Write(&'a [u8]),
    /// To do what goes before each request.
    Begin,
    /// To make the call that `hub_call` hands out.
    Hub,
    /// To ask the node at the address.
    Node(NodeAddress, NodeRequest<'a>),
    /// To wait for so many milliseconds.
    Pause(u64),
    /// Nothing: the connection is over.
    Done(Result<Served, ConnFault>),
}

/// What came of a want.
#[derive(Debug, Drop)]
pub enum Answer<'a> {
    /// A read gave these, one at least.
    Bytes(&'a [u8]),
    EndOfInput,
    ReadFailed,
    /// A write took so many, one at least.
    Wrote(usize),
    WriteFailed,
    /// What goes before a request was done.
    Begun,
    Hub(HubAnswer),
    Node(Result<Reply, ExchangeFault>),
    Paused,
    /// In place of the end of a pause in which a New Session waits: its client has left. The driver's count of failed reads
    /// rose.
    Gone,
}
