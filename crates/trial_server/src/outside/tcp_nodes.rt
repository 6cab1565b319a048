//! Exchanges over TCP of which no call waits.
ghost use Rattle.std.specs.Prelude.{None};

use crate::outside::parts::request;
use crate::outside::sockets::{ROWS, Told, address_of, answers_once, came_so, listener};
use grid_outside::{ExchangeFault, Gate, NodeLine, Reply};
use grid_sockets::TcpGate;
use grid_types::NodeAddress;
use std::alloc::Global;
use std::mem::replace;
use std::net::{Net, SocketAddr, TcpListener, TcpStream};
use std::process::Abort;
use std::sync::atomic::{AtomicU64, Ordering};
use std::thread::Threads;
use std::time::{Clock, Duration};
use std::{io, thread};

/// A seat that asks its node, and what came of that so far.
#[derive(Drop)]
pub(crate) struct Asking<N: Drop> {
    nodes: N,
    came: Option<Result<Reply, ExchangeFault>>,
}

impl<N: NodeLine + Drop> Asking<N> {
    pub(crate) fn begin(
        alloc: Global,
        nodes: N,
        address: &NodeAddress,
        method: &str,
        target: &str,
        body: &str,
    ) -> Self
        requires { N.asks nodes None }
    {
        let mut nodes = nodes;
        nodes.ask(
            alloc,
            address,
            &request(method.as_bytes(), target.as_bytes(), body.as_bytes()),
        );
        Asking { nodes, came: None }
    }

    pub(crate) fn goes_on(&self) -> bool {
        self.came.is_none()
    }

    // What came is let go by a call: the check of a value that ends by itself writes out all its fields.
    pub(crate) fn look(&mut self, alloc: Global) {
        if self.came.is_none() {
            let came = self.nodes.came(alloc);
            drop(replace(&mut self.came, came));
        }
    }

    pub(crate) fn is_told(&self, told: Told) -> bool {
        match &self.came {
            Some(came) => came_so(came, told),
            None => false,
        }
    }
}

/// A seat at this place that asks the node at the address.
pub(crate) fn begun<G: Gate>(
    alloc: Global,
    gate: &mut G,
    place: usize,
    address: &NodeAddress,
    method: &str,
    target: &str,
) -> Asking<G::N> {
    Asking::begin(alloc, gate.nodes(place), address, method, target, "")
}

/// Where the seats of one exchange stand.
const PLACE: usize = 3;

/// Looks for what comes each time that its place is named, at most 100 times.
fn waits<G: Gate>(alloc: Global, gate: &mut G, asking: &mut Asking<G::N>, ready: &mut Vec<usize>) {
    asking.look(alloc);
    for _ in 0..100 {
        if !asking.goes_on() {
            return;
        }
        ready.clear();
        gate.wait(1_000, ready);
        if ready.contains(&PLACE) {
            asking.look(alloc);
        }
    }
}

/// Whether this comes of a request to a node at the address.
pub(crate) fn comes_so<G: Gate>(
    alloc: Global,
    gate: &mut G,
    address: &NodeAddress,
    told: Told,
) -> bool {
    let Ok(mut ready) = Vec::with_capacity(alloc, 4) else {
        return false;
    };
    let mut asking = begun(alloc, gate, PLACE, address, "GET", "/status");
    waits(alloc, gate, &mut asking, &mut ready);
    let so = asking.is_told(told);
    drop(asking);
    so
}

/// Whether a node at the host is asked as it is to be, and this comes of it where it replies so.
fn goes_so<
    R: Threads + Net<Listener = TcpListener, Stream = TcpStream> + Clock + Copy + Send + Drop,
>(rt: R, alloc: Global, host: &str, reply: &[u8], told: Told) -> Option<bool> {
    let (listener, port) = listener(&rt)?;
    let address = address_of(alloc, host, port)?;
    let mut gate = TcpGate::new(rt, alloc).ok()?;
    let (is_asked, is_told) = thread::join(
        &rt,
        || answers_once(&listener, reply),
        || comes_so(alloc, &mut gate, &address, told),
    );
    drop(gate);
    Some(is_asked && is_told)
}

/// The body of a large reply, in pieces.
const PIECE: [u8; 65_536] = [97; 65_536];

const PIECES: usize = 32;

const LARGE_HEAD: &[u8] = b"HTTP/1.1 200 OK\r\nContent-Length: 2097152\r\n\r\n";

fn large_reply(alloc: Global) -> Option<Vec<u8>> {
    let mut bytes = Vec::from_slice(alloc, LARGE_HEAD).ok()?;
    for _ in 0..PIECES {
        bytes.extend_from_slice(&PIECE).ok()?;
    }
    Some(bytes)
}

/// It does not come in one go.
fn takes_large<
    R: Threads + Net<Listener = TcpListener, Stream = TcpStream> + Clock + Copy + Send + Drop,
>(rt: R, alloc: Global) -> Option<bool> {
    let reply = large_reply(alloc)?;
    goes_so(
        rt,
        alloc,
        "127.0.0.1",
        reply.as_slice(),
        Told::Long(2_097_152),
    )
}

#[test]
fn a_node_is_asked_without_waiting(rt: HostRuntime) {
    for (host, reply, told) in ROWS {
        let so = goes_so(rt, rt.alloc(), host, reply.as_bytes(), *told);
        assert!(rt; so == Some(true));
    }
    let so = takes_large(rt, rt.alloc());
    assert!(rt; so == Some(true));
}

/// A network with a clock that shows the seconds of a number.
#[derive(Clone, Copy, Drop)]
pub(crate) struct Timed<'a, R> {
    pub(crate) rt: R,
    /// In seconds.
    pub(crate) at: &'a AtomicU64,
}

impl<'a, R: Net> Net for Timed<'a, R> {
    type Stream = R::Stream;

    type Listener = R::Listener;

    fn bind(&self, addr: SocketAddr) -> io::Result<R::Listener> {
        self.rt.bind(addr)
    }

    fn connect(&self, addr: SocketAddr) -> io::Result<R::Stream> {
        self.rt.connect(addr)
    }
}

impl<'a, R> Clock for Timed<'a, R> {
    fn monotonic(&self) -> io::Result<Duration> {
        Ok(Duration::from_secs(self.at.load(Ordering::SeqCst)))
    }

    fn since_1970(&self) -> io::Result<Duration> {
        self.monotonic()
    }
}

/// Waits until something may go on. Without room for its place no wait would be one.
pub(crate) fn rests<G: Gate>(gate: &mut G, ready: &mut Vec<usize>) {
    ready.clear();
    gate.wait(50, ready);
}

/// Whether an exchange with a node that says nothing is given up after so many seconds and no sooner.
pub(crate) fn is_given_up<G: Gate>(
    alloc: Global,
    gate: &mut G,
    asking: &mut Asking<G::N>,
    ready: &mut Vec<usize>,
    at: &AtomicU64,
    seconds: u64,
) -> bool {
    for _ in 0..5 {
        asking.look(alloc);
        rests(gate, ready);
    }
    at.store(seconds.saturating_sub(1), Ordering::SeqCst);
    asking.look(alloc);
    let goes_on = asking.goes_on();
    at.store(seconds, Ordering::SeqCst);
    asking.look(alloc);
    goes_on && asking.is_told(Told::Nothing)
}

/// Whether a request is given up so.
fn gives_up<G: Gate>(
    alloc: Global,
    gate: &mut G,
    address: &NodeAddress,
    ready: &mut Vec<usize>,
    at: &AtomicU64,
    request: (&str, &str, u64),
) -> bool {
    let (method, target, seconds) = request;
    at.store(0, Ordering::SeqCst);
    let mut asking = begun(alloc, gate, PLACE, address, method, target);
    let so = is_given_up(alloc, gate, &mut asking, ready, at, seconds);
    drop(asking);
    so
}

/// A command gets 600 s, what ends a session for the hub 30 s.
pub(crate) fn are_given_up<G: Gate>(
    alloc: Global,
    gate: &mut G,
    address: &NodeAddress,
    ready: &mut Vec<usize>,
    at: &AtomicU64,
) -> bool {
    gives_up(alloc, gate, address, ready, at, ("GET", "/status", 600))
        && gives_up(
            alloc,
            gate,
            address,
            ready,
            at,
            ("DELETE", "/session/1", 30),
        )
}
