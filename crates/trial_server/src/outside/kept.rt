//! Connections to a node that are kept, by what the node sees of them.
use crate::outside::sockets::{Told, address_of, empty_address, listener};
use crate::outside::tcp_nodes::{Asking, Timed, are_given_up, begun, comes_so, rests};
use grid_outside::Gate;
use grid_sockets::TcpGate;
use grid_types::NodeAddress;
use std::alloc::Global;
use std::io::{Read, Write};
use std::net::{Net, Shutdown, TcpListener, TcpStream};
use std::process::Abort;
use std::sync::atomic::{AtomicU64, Ordering};
use std::time::Duration;

/// What a node does, or what it sees. A connection has the number in which it came.
#[derive(Clone, Copy)]
enum Act {
    /// A connection comes.
    Accepts,
    /// A request comes over the connection that begins so and may be followed by another.
    Hears(usize, &'static str),
    /// One that asks to close.
    HearsLast(usize, &'static str),
    Says(usize, &'static str),
    Closes(usize),
    /// The hub has closed the connection.
    Ends(usize),
    /// The clock shows so many seconds, and the gate is waited at.
    Waits(u64),
}

use Act::{Accepts, Closes, Ends, Hears, HearsLast, Says, Waits};

/// The place of a seat, its request, what the node does then, and what comes of it.
#[derive(Clone, Copy)]
struct Exchange(usize, &'static str, &'static str, &'static [Act], Told);

const GET: &str = "GET /session/1/url HTTP/1.1\r\n";

const POST: &str = "POST /session/1/url HTTP/1.1\r\n";

const DELETE: &str = "DELETE /session/1 HTTP/1.1\r\n";

const START: &str = "POST /session HTTP/1.1\r\n";

const URL: &str = "/session/1/url";

const HI: Told = Told::Http("hi");

const NOTHING: Told = Told::NotHttp("");

const OK: &str = "HTTP/1.1 200 OK\r\nContent-Length: 2\r\n\r\nhi";

const CHUNKS: &str = "HTTP/1.1 200 OK\r\nTransfer-Encoding: chunked\r\n\r\n2\r\nhi\r\n0\r\n\r\n";

const CLOSING: &str = "HTTP/1.1 200 OK\r\nContent-Length: 2\r\nConnection: close\r\n\r\nhi";

const OLD: &str = "HTTP/1.0 200 OK\r\nContent-Length: 2\r\n\r\nhi";

const MORE: &str = "HTTP/1.1 200 OK\r\nContent-Length: 2\r\n\r\nhi!";

/// What is kept is used again, by another seat too, and by nobody that starts a session.
const KEPT: &[Exchange] = &[
    Exchange(3, "GET", URL, &[Accepts, Hears(0, GET), Says(0, OK)], HI),
    Exchange(3, "POST", URL, &[Hears(0, POST), Says(0, CHUNKS)], HI),
    Exchange(
        4,
        "DELETE",
        "/session/1",
        &[Hears(0, DELETE), Says(0, OK)],
        HI,
    ),
    Exchange(
        4,
        "POST",
        "/session",
        &[Accepts, HearsLast(1, START), Says(1, OK), Ends(1)],
        HI,
    ),
    Exchange(3, "GET", URL, &[Hears(0, GET), Says(0, OK)], HI),
];

/// One that its node has closed, or over which it said more, is let go before a byte is sent.
const STALE: &[Exchange] = &[
    Exchange(3, "GET", URL, &[Accepts, Hears(0, GET), Says(0, OK)], HI),
    Exchange(3, "GET", URL, &[Hears(0, GET), Says(0, OK)], HI),
    Exchange(
        3,
        "POST",
        URL,
        &[Hears(0, POST), Says(0, OK), Closes(0)],
        HI,
    ),
    Exchange(3, "POST", URL, &[Accepts, Hears(1, POST), Says(1, OK)], HI),
    Exchange(
        3,
        "GET",
        URL,
        &[Hears(1, GET), Says(1, OK), Waits(0), Says(1, "!")],
        HI,
    ),
    Exchange(3, "POST", URL, &[Accepts, Hears(2, POST), Says(2, OK)], HI),
];

/// A connection that breaks before a reply: one that may change something is not sent again, others once.
const BROKEN: &[Exchange] = &[
    Exchange(3, "GET", URL, &[Accepts, Hears(0, GET), Says(0, OK)], HI),
    Exchange(3, "POST", URL, &[Hears(0, POST), Closes(0)], NOTHING),
    Exchange(3, "GET", URL, &[Accepts, Hears(1, GET), Says(1, OK)], HI),
    Exchange(
        3,
        "GET",
        URL,
        &[
            Hears(1, GET),
            Closes(1),
            Accepts,
            Hears(2, GET),
            Says(2, OK),
        ],
        HI,
    ),
    Exchange(
        3,
        "DELETE",
        "/session/1",
        &[
            Hears(2, DELETE),
            Closes(2),
            Accepts,
            Hears(3, DELETE),
            Closes(3),
        ],
        NOTHING,
    ),
    Exchange(3, "GET", URL, &[Accepts, Hears(4, GET), Closes(4)], NOTHING),
];

/// What is not kept, and what is not kept for longer.
const CLOSED: &[Exchange] = &[
    Exchange(
        3,
        "GET",
        URL,
        &[Accepts, Hears(0, GET), Says(0, CLOSING), Ends(0)],
        HI,
    ),
    Exchange(
        3,
        "GET",
        URL,
        &[Accepts, Hears(1, GET), Says(1, OLD), Ends(1)],
        HI,
    ),
    Exchange(
        3,
        "GET",
        URL,
        &[Accepts, Hears(2, GET), Says(2, MORE), Ends(2)],
        HI,
    ),
    Exchange(
        3,
        "GET",
        URL,
        &[Accepts, Hears(3, GET), Says(3, OK), Waits(0)],
        HI,
    ),
    Exchange(
        3,
        "GET",
        URL,
        &[Hears(3, GET), Says(3, OK), Waits(1), Ends(3)],
        HI,
    ),
    Exchange(3, "GET", URL, &[Accepts, Hears(4, GET), Says(4, OK)], HI),
];

/// What the node does for two seats that ask at once: first each has a connection, and then that again.
const BOTH: &[&[Act]] = &[
    &[
        Accepts,
        Accepts,
        Hears(0, GET),
        Hears(1, POST),
        Says(1, OK),
        Says(0, OK),
    ],
    &[Hears(0, GET), Hears(1, POST), Says(0, OK), Says(1, OK)],
];

/// What a gate is tried with.
#[derive(Clone, Copy)]
enum Table {
    /// Exchanges one after the other.
    Kept,
    Stale,
    Broken,
    Closed,
    /// Two seats that ask at once.
    Both,
    /// A node that says nothing, and none.
    Silent,
}

const TABLES: &[Table] = &[
    Table::Kept,
    Table::Stale,
    Table::Broken,
    Table::Closed,
    Table::Both,
    Table::Silent,
];

fn exchanges(table: Table) -> &'static [Exchange] {
    match table {
        Table::Kept => KEPT,
        Table::Stale => STALE,
        Table::Broken => BROKEN,
        Table::Closed => CLOSED,
        Table::Both | Table::Silent => &[],
    }
}

fn is_request(bytes: &[u8], wanted: &str, closes: bool) -> bool {
    match str::from_utf8(bytes) {
        Ok(text) => {
            text.starts_with(wanted) && text.contains("\r\nConnection: close\r\n") == closes
        }
        Err(_) => false,
    }
}

/// A node of which each connection is in the list.
#[derive(Drop)]
struct Node {
    listener: TcpListener,
    streams: Vec<TcpStream>,
}

/// How long the node waits for a request, in seconds.
const PATIENCE: u64 = 2;

impl Node {
    fn accepts(&mut self) -> Option<()> {
        let (stream, _) = self.listener.accept().ok()?;
        stream
            .set_read_timeout(Some(Duration::from_secs(PATIENCE)))
            .ok()?;
        self.streams.push(stream).ok()
    }

    /// Whether such a request comes over the connection.
    fn hears(&mut self, number: usize, wanted: &str, closes: bool) -> Option<()> {
        let mut piece = [0; 512];
        let count = self.streams.get_mut(number)?.read(&mut piece).ok()?;
        is_request(piece.get(..count)?, wanted, closes).then_some(())
    }

    fn says(&mut self, number: usize, text: &str) -> Option<()> {
        self.streams
            .get_mut(number)?
            .write_all(text.as_bytes())
            .ok()
    }

    fn closes(&mut self, number: usize) -> Option<()> {
        self.streams.get(number)?.shutdown(Shutdown::Both).ok()
    }

    /// Whether the hub has closed the connection.
    fn ends(&mut self, number: usize) -> Option<()> {
        let count = self.streams.get_mut(number)?.read(&mut [0; 8]).ok()?;
        (count == 0).then_some(())
    }
}

/// The exchange goes on as far as it can without the node.
fn go_on<G: Gate>(alloc: Global, gate: &mut G, asking: &mut Asking<G::N>, ready: &mut Vec<usize>) {
    for _ in 0..4 {
        asking.look(alloc);
        rests(gate, ready);
    }
}

/// The node does so, or sees it.
fn acts(node: &mut Node, at: &AtomicU64, act: Act) -> Option<()> {
    match act {
        Act::Accepts => node.accepts(),
        Act::Hears(number, wanted) => node.hears(number, wanted, false),
        Act::HearsLast(number, wanted) => node.hears(number, wanted, true),
        Act::Says(number, text) => node.says(number, text),
        Act::Closes(number) => node.closes(number),
        Act::Ends(number) => node.ends(number),
        Act::Waits(seconds) => {
            at.store(seconds, Ordering::SeqCst);
            Some(())
        }
    }
}

/// The node does all of that, and the exchange goes on.
fn acts_all<G: Gate>(
    alloc: Global,
    gate: &mut G,
    asking: &mut Asking<G::N>,
    ready: &mut Vec<usize>,
    node: &mut Node,
    at: &AtomicU64,
    all: &[Act],
) -> Option<()> {
    go_on(alloc, gate, asking, ready);
    for act in all {
        acts(node, at, *act)?;
        go_on(alloc, gate, asking, ready);
    }
    Some(())
}

/// Whether the exchange goes so.
fn goes_so<G: Gate>(
    alloc: Global,
    gate: &mut G,
    node: &mut Node,
    address: &NodeAddress,
    at: &AtomicU64,
    ready: &mut Vec<usize>,
    exchange: &Exchange,
) -> bool {
    let Exchange(place, method, target, all, told) = *exchange;
    let mut asking = begun(alloc, gate, place, address, method, target);
    let acts = acts_all(alloc, gate, &mut asking, ready, node, at, all);
    let so = acts.is_some() && asking.is_told(told);
    // Let go by a call: the check of a value that ends by itself writes out all its fields.
    drop(asking);
    so
}

/// Whether all of them go so, one after the other, and no more connections come.
fn all_go_so<G: Gate>(
    alloc: Global,
    gate: &mut G,
    node: &mut Node,
    address: &NodeAddress,
    at: &AtomicU64,
    ready: &mut Vec<usize>,
    table: Table,
) -> bool {
    for exchange in exchanges(table) {
        if !goes_so(alloc, gate, node, address, at, ready, exchange) {
            return false;
        }
    }
    node.listener.set_nonblocking(true).is_ok() && node.listener.accept().is_err()
}

/// The node does all of that, and both exchanges go on.
fn acts_beside<G: Gate>(
    alloc: Global,
    gate: &mut G,
    one: &mut Asking<G::N>,
    other: &mut Asking<G::N>,
    ready: &mut Vec<usize>,
    node: &mut Node,
    at: &AtomicU64,
    all: &[Act],
) -> Option<()> {
    go_on(alloc, gate, one, ready);
    go_on(alloc, gate, other, ready);
    for act in all {
        acts(node, at, *act)?;
        go_on(alloc, gate, one, ready);
        go_on(alloc, gate, other, ready);
    }
    Some(())
}

/// Whether the exchanges of two seats go so, beside each other.
fn both_go_so<G: Gate>(
    alloc: Global,
    gate: &mut G,
    node: &mut Node,
    address: &NodeAddress,
    at: &AtomicU64,
    ready: &mut Vec<usize>,
    all: &[Act],
) -> bool {
    let mut one = begun(alloc, gate, 3, address, "GET", URL);
    let mut other = begun(alloc, gate, 4, address, "POST", URL);
    let acts = acts_beside(alloc, gate, &mut one, &mut other, ready, node, at, all);
    let so = acts.is_some() && one.is_told(HI) && other.is_told(HI);
    drop(other);
    drop(one);
    so
}

fn go_beside<G: Gate>(
    alloc: Global,
    gate: &mut G,
    node: &mut Node,
    address: &NodeAddress,
    at: &AtomicU64,
    ready: &mut Vec<usize>,
) -> bool {
    for all in BOTH {
        if !both_go_so(alloc, gate, node, address, at, ready, all) {
            return false;
        }
    }
    true
}

/// Whether the gate goes so, with a node at this address and none at the other.
fn goes_at<G: Gate>(
    alloc: Global,
    gate: &mut G,
    node: &mut Node,
    address: &NodeAddress,
    nobody: &NodeAddress,
    at: &AtomicU64,
    table: Table,
) -> bool {
    let Ok(mut ready) = Vec::with_capacity(alloc, 4) else {
        return false;
    };
    match table {
        Table::Both => go_beside(alloc, gate, node, address, at, &mut ready),
        Table::Silent => {
            are_given_up(alloc, gate, address, &mut ready, at)
                && comes_so(alloc, gate, nobody, Told::Nothing)
        }
        _ => all_go_so(alloc, gate, node, address, at, &mut ready, table),
    }
}

fn goes<R: Net<Listener = TcpListener, Stream = TcpStream> + Copy + Send + Drop>(
    rt: R,
    alloc: Global,
    table: Table,
) -> Option<bool> {
    let at = AtomicU64::new(0);
    let nobody = empty_address(&rt, alloc)?;
    let (listener, port) = listener(&rt)?;
    let address = address_of(alloc, "127.0.0.1", port)?;
    let mut gate = TcpGate::new(Timed { rt, at: &at }, alloc).ok()?;
    let mut node = Node {
        listener,
        streams: Vec::new(alloc),
    };
    let so = goes_at(alloc, &mut gate, &mut node, &address, &nobody, &at, table);
    drop(node);
    drop(gate);
    Some(so)
}

#[test]
fn connections_to_nodes_are_kept(rt: HostRuntime) {
    for table in TABLES {
        let so = goes(rt, rt.alloc(), *table);
        assert!(rt; so == Some(true));
    }
}
