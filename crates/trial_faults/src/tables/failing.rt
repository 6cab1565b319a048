//! Five requests of which one call of the outside fails: a read, a write or an exchange.
use crate::tables::client::{Client, joined, nodes_of};
use crate::tables::told::{FAULT, NO_SESSION, NULL, OK, Told, text_of};
use grid_outside::MemNodes;
use hub_conn::{ConnFault, End, Served};
use std::alloc::Global;

/// A node registers.
pub(crate) const REGISTERS: &[u8] =
    b"POST /se/grid/distributor/node HTTP/1.1\r\nHost: h\r\nContent-Length: 82\r\n\r\n{\"name\":\"n\",\"address\":\"n:1\",\"maxSessions\":1,\"slots\":[{\"count\":1,\"stereotype\":{}}]}";

// Five requests of 120 bytes each: a session is created, used twice, the second time with a chunked body, and ended, and the
// status is looked at.
const SENDS: [&[u8]; 5] = [
    b"POST /session HTTP/1.1\r\nHost: h\r\nContent-Length: 19\r\nPad: xxxxxxxxxxxxxxxxxxxxxxxxxxxxxxxxxxxxxxx\r\n\r\n{\"capabilities\":{}}",
    b"GET /session/a/url HTTP/1.1\r\nHost: h\r\nPad: xxxxxxxxxxxxxxxxxxxxxxxxxxxxxxxxxxxxxxxxxxxxxxxxxxxxxxxxxxxxxxxxxxxxxxxxx\r\n\r\n",
    b"POST /session/a/url HTTP/1.1\r\nHost: h\r\nTransfer-Encoding: chunked\r\nPad: xxxxxxxxxxxxxxxxxxxx\r\n\r\n8\r\n{\"url\":1\r\n1\r\n}\r\n0\r\n\r\n",
    b"DELETE /session/a HTTP/1.1\r\nHost: h\r\nPad: xxxxxxxxxxxxxxxxxxxxxxxxxxxxxxxxxxxxxxxxxxxxxxxxxxxxxxxxxxxxxxxxxxxxxxxxxx\r\n\r\n",
    b"GET /status HTTP/1.1\r\nHost: h\r\nPad: xxxxxxxxxxxxxxxxxxxxxxxxxxxxxxxxxxxxxxxxxxxxxxxxxxxxxxxxxxxxxxxxxxxxxxxxxxxxxxxx\r\n\r\n",
];

// Bytes that a read gives and that a write takes: each request is read in two reads, the end of the input is the eleventh.
const GIVES: usize = 60;

const TAKES: usize = 100;

const REPLIES: [(u16, &str); 4] = [
    (200, "{\"value\":{\"sessionId\":\"a\",\"capabilities\":{}}}"),
    (200, "{\"value\":\"u\"}"),
    (200, "{\"value\":\"s\"}"),
    (200, "{\"value\":null}"),
];

const CREATED: Told = Told::Hub(OK, "{\"value\":{\"sessionId\":\"a\",\"capabilities\":{}}}");

const URL: Told = Told::Raw("HTTP/1.1 200 R\r\nContent-Length: 13\r\n\r\n{\"value\":\"u\"}");

const SET: Told = Told::Raw("HTTP/1.1 200 R\r\nContent-Length: 13\r\n\r\n{\"value\":\"s\"}");

const FREE: Told = Told::Hub(
    OK,
    "{\"value\":{\"ready\":true,\"message\":\"grid is ready\",\"nodes\":[{\"node\":1,\"name\":\"n\",\"address\":\"n:1\",\"availability\":\"UP\",\"maxSessions\":1,\"slots\":[{\"stereotype\":{},\"states\":[{\"slot\":0,\"state\":\"FREE\",\"session\":null}]}]}]}}",
);

const BUSY: Told = Told::Hub(
    OK,
    "{\"value\":{\"ready\":false,\"message\":\"grid has no free slot\",\"nodes\":[{\"node\":1,\"name\":\"n\",\"address\":\"n:1\",\"availability\":\"UP\",\"maxSessions\":1,\"slots\":[{\"stereotype\":{},\"states\":[{\"slot\":0,\"state\":\"BUSY\",\"session\":\"a\"}]}]}]}}",
);

const NO_REQUESTS: Told = Told::Hub(OK, "{\"value\":[]}");

const NOT_STARTED: Told = Told::Hub(
    FAULT,
    "{\"value\":{\"error\":\"session not created\",\"message\":\"start failed: node is unreachable\",\"stacktrace\":\"\"}}",
);

const UNREACHABLE: Told = Told::Hub(
    FAULT,
    "{\"value\":{\"error\":\"unknown error\",\"message\":\"node is unreachable\",\"stacktrace\":\"\"}}",
);

/// What is asked afterwards: the state of the slot, and which requests wait.
pub(crate) const AFTER: &[u8] =
    b"GET /status HTTP/1.1\r\nHost: h\r\n\r\nGET /se/grid/newsessionqueue/queue HTTP/1.1\r\nHost: h\r\n\r\n";

/// Which calls of a kind fail, from 0.
#[derive(Clone, Copy)]
pub(crate) enum Fails {
    Read(&'static [u64]),
    Write(&'static [u64]),
    Exchange(&'static [u64]),
    /// A write, and then an exchange.
    Both(&'static [u64], &'static [u64]),
    /// A write, where each takes ten bytes at most.
    Small(&'static [u64]),
}

/// What fails, and what comes of it.
#[derive(Clone, Copy)]
pub(crate) struct FailingRow {
    pub(crate) fails: Fails,
    /// What is told, if it is written whole.
    pub(crate) told: &'static [Told],
    /// How many bytes of it are written, the first ones.
    pub(crate) written: usize,
    /// How the connection ends.
    pub(crate) ended: Result<Served, ConnFault>,
    /// The slot's state afterwards.
    pub(crate) slot: Told,
    /// The exchanges.
    pub(crate) asks: &'static str,
    /// The entries that a hub of one thread makes, whose own node gives a sign of life before each request.
    pub(crate) entries: &'static str,
}

const ALL: &[Told] = &[CREATED, URL, SET, NULL, FREE];

const WHOLE: Result<Served, ConnFault> = Ok(Served {
    frames: 5,
    end: End::Closed,
    short: false,
});

const READ: Result<Served, ConnFault> = Err(ConnFault::Read);

const WRITE: Result<Served, ConnFault> = Err(ConnFault::Write);

const ASKS_1: &str = "POST n:1/session; ";

const ASKS_2: &str = "POST n:1/session; GET n:1/session/a/url; ";

const ASKS_3: &str = "POST n:1/session; GET n:1/session/a/url; POST n:1/session/a/url; ";

const ASKS_4: &str =
    "POST n:1/session; GET n:1/session/a/url; POST n:1/session/a/url; DELETE n:1/session/a; ";

const ENDED: &str = "POST n:1/session; DELETE n:1/session/a; ";

// What each request makes of entries.
const BEFORE_2: &str = "beat queue reserve bind take ";

const BEFORE_3: &str = "beat queue reserve bind take beat touch ";

const BEFORE_4: &str = "beat queue reserve bind take beat touch beat touch ";

const BEFORE_5: &str = "beat queue reserve bind take beat touch beat touch beat end free ";

const EVERY: &str = "beat queue reserve bind take beat touch beat touch beat end free beat ";

const UNDONE: &str = "beat queue reserve bind take end free ";

const FAILED: &str = "beat queue reserve fail take beat beat beat beat ";

/// Each call in turn. The five responses have 156, 51, 51, 125 and 326 bytes, so they take 2, 1, 1, 2 and 4 writes, and the first ones
/// have 156, 207, 258, 383 and 709 bytes together.
///
/// After a failed read the whole requests before were answered, and no more. After a failed write those before were answered, and
/// of the response under way come the pieces before; a session whose response was not taken whole is ended, and its node is told
/// so. A session that was told stays until it is ended. After a failed exchange the connection goes on: a start that did not reach
/// its only node fails, a relay is told so, and a session that is deleted ends also where its node is not reached. A failed exchange
/// uses up no reply, so the replies after it come one request later.
pub(crate) static FAILING: [FailingRow; 27] = [
    FailingRow {
        fails: Fails::Read(&[0]),
        told: ALL,
        written: 0,
        ended: READ,
        slot: FREE,
        asks: "",
        entries: "",
    },
    FailingRow {
        fails: Fails::Read(&[1]),
        told: ALL,
        written: 0,
        ended: READ,
        slot: FREE,
        asks: "",
        entries: "",
    },
    FailingRow {
        fails: Fails::Read(&[2]),
        told: ALL,
        written: 156,
        ended: READ,
        slot: BUSY,
        asks: ASKS_1,
        entries: BEFORE_2,
    },
    FailingRow {
        fails: Fails::Read(&[3]),
        told: ALL,
        written: 156,
        ended: READ,
        slot: BUSY,
        asks: ASKS_1,
        entries: BEFORE_2,
    },
    FailingRow {
        fails: Fails::Read(&[4]),
        told: ALL,
        written: 207,
        ended: READ,
        slot: BUSY,
        asks: ASKS_2,
        entries: BEFORE_3,
    },
    FailingRow {
        fails: Fails::Read(&[5]),
        told: ALL,
        written: 207,
        ended: READ,
        slot: BUSY,
        asks: ASKS_2,
        entries: BEFORE_3,
    },
    FailingRow {
        fails: Fails::Read(&[6]),
        told: ALL,
        written: 258,
        ended: READ,
        slot: BUSY,
        asks: ASKS_3,
        entries: BEFORE_4,
    },
    FailingRow {
        fails: Fails::Read(&[7]),
        told: ALL,
        written: 258,
        ended: READ,
        slot: BUSY,
        asks: ASKS_3,
        entries: BEFORE_4,
    },
    FailingRow {
        fails: Fails::Read(&[8]),
        told: ALL,
        written: 383,
        ended: READ,
        slot: FREE,
        asks: ASKS_4,
        entries: BEFORE_5,
    },
    FailingRow {
        fails: Fails::Read(&[9]),
        told: ALL,
        written: 383,
        ended: READ,
        slot: FREE,
        asks: ASKS_4,
        entries: BEFORE_5,
    },
    FailingRow {
        fails: Fails::Read(&[10]),
        told: ALL,
        written: 709,
        ended: READ,
        slot: FREE,
        asks: ASKS_4,
        entries: EVERY,
    },
    FailingRow {
        fails: Fails::Write(&[0]),
        told: ALL,
        written: 0,
        ended: WRITE,
        slot: FREE,
        asks: ENDED,
        entries: UNDONE,
    },
    FailingRow {
        fails: Fails::Write(&[1]),
        told: ALL,
        written: 100,
        ended: WRITE,
        slot: FREE,
        asks: ENDED,
        entries: UNDONE,
    },
    FailingRow {
        fails: Fails::Write(&[2]),
        told: ALL,
        written: 156,
        ended: WRITE,
        slot: BUSY,
        asks: ASKS_2,
        entries: BEFORE_3,
    },
    FailingRow {
        fails: Fails::Write(&[3]),
        told: ALL,
        written: 207,
        ended: WRITE,
        slot: BUSY,
        asks: ASKS_3,
        entries: BEFORE_4,
    },
    FailingRow {
        fails: Fails::Write(&[4]),
        told: ALL,
        written: 258,
        ended: WRITE,
        slot: FREE,
        asks: ASKS_4,
        entries: BEFORE_5,
    },
    FailingRow {
        fails: Fails::Write(&[5]),
        told: ALL,
        written: 358,
        ended: WRITE,
        slot: FREE,
        asks: ASKS_4,
        entries: BEFORE_5,
    },
    FailingRow {
        fails: Fails::Write(&[6]),
        told: ALL,
        written: 383,
        ended: WRITE,
        slot: FREE,
        asks: ASKS_4,
        entries: EVERY,
    },
    FailingRow {
        fails: Fails::Write(&[7]),
        told: ALL,
        written: 483,
        ended: WRITE,
        slot: FREE,
        asks: ASKS_4,
        entries: EVERY,
    },
    FailingRow {
        fails: Fails::Write(&[8]),
        told: ALL,
        written: 583,
        ended: WRITE,
        slot: FREE,
        asks: ASKS_4,
        entries: EVERY,
    },
    FailingRow {
        fails: Fails::Write(&[9]),
        told: ALL,
        written: 683,
        ended: WRITE,
        slot: FREE,
        asks: ASKS_4,
        entries: EVERY,
    },
    FailingRow {
        fails: Fails::Exchange(&[0]),
        told: &[NOT_STARTED, NO_SESSION, NO_SESSION, NO_SESSION, FREE],
        written: usize::MAX,
        ended: WHOLE,
        slot: FREE,
        asks: ASKS_1,
        entries: FAILED,
    },
    FailingRow {
        fails: Fails::Exchange(&[1]),
        told: &[CREATED, UNREACHABLE, URL, NULL, FREE],
        written: usize::MAX,
        ended: WHOLE,
        slot: FREE,
        asks: ASKS_4,
        entries: EVERY,
    },
    FailingRow {
        fails: Fails::Exchange(&[2]),
        told: &[CREATED, URL, UNREACHABLE, NULL, FREE],
        written: usize::MAX,
        ended: WHOLE,
        slot: FREE,
        asks: ASKS_4,
        entries: EVERY,
    },
    FailingRow {
        fails: Fails::Exchange(&[3]),
        told: &[CREATED, URL, SET, UNREACHABLE, FREE],
        written: usize::MAX,
        ended: WHOLE,
        slot: FREE,
        asks: ASKS_4,
        entries: EVERY,
    },
    FailingRow {
        fails: Fails::Both(&[0], &[1]),
        told: ALL,
        written: 0,
        ended: WRITE,
        slot: FREE,
        asks: ENDED,
        entries: UNDONE,
    },
    FailingRow {
        fails: Fails::Small(&[1]),
        told: ALL,
        written: 10,
        ended: WRITE,
        slot: FREE,
        asks: ENDED,
        entries: UNDONE,
    },
];

// The reads, the writes and the exchanges that fail.
fn calls_of(fails: Fails) -> (&'static [u64], &'static [u64], &'static [u64]) {
    match fails {
        Fails::Read(reads) => (reads, &[], &[]),
        Fails::Write(writes) => (&[], writes, &[]),
        Fails::Exchange(exchanges) => (&[], &[], exchanges),
        Fails::Both(writes, exchanges) => (&[], writes, exchanges),
        Fails::Small(writes) => (&[], writes, &[]),
    }
}

// The most bytes that a write takes.
fn takes_of(fails: Fails) -> usize {
    match fails {
        Fails::Small(_) => 10,
        _ => TAKES,
    }
}

/// The five requests.
pub(crate) fn five_requests(alloc: Global) -> Option<Vec<u8>> {
    joined(alloc, &SENDS)
}

/// The client whose reads or writes fail so.
pub(crate) fn client_of(sends: &[u8], fails: Fails) -> Client<'_> {
    let (reads_fail, writes_fail, _exchanges) = calls_of(fails);
    Client {
        sends,
        gives: GIVES,
        takes: takes_of(fails),
        reads_fail,
        writes_fail,
    }
}

/// The nodes with which exchanges fail so.
pub(crate) fn nodes_failing(alloc: Global, fails: Fails) -> Option<MemNodes> {
    let (_reads, _writes, exchanges) = calls_of(fails);
    nodes_of(alloc, &REPLIES, exchanges)
}

/// At most so many of the bytes, the first ones.
pub(crate) fn front(bytes: &[u8], most: usize) -> &[u8] {
    if most < bytes.len() {
        &bytes[..most]
    } else {
        bytes
    }
}

/// What is to be seen: the responses, and what the hub says afterwards.
pub(crate) fn foretold(alloc: Global, told: &[Told], slot: Told) -> Option<(String, String)> {
    let responses = text_of(alloc, told)?;
    let state = [slot, NO_REQUESTS];
    let says = text_of(alloc, state.as_slice())?;
    Some((responses, says))
}
