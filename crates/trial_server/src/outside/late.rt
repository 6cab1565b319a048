//! A start that takes longer than it may.
use crate::outside::sockets::{address_of, listener};
use crate::outside::tcp_nodes::{Asking, Timed, is_given_up, rests};
use grid_outside::{Gate, NodeLine};
use grid_sockets::TcpGate;
use grid_types::NodeAddress;
use std::alloc::Global;
use std::io::{Read, Write};
use std::net::{Ipv4Addr, Net, TcpListener, TcpStream};
use std::process::Abort;
use std::sync::atomic::{AtomicBool, AtomicU64, Ordering};
use std::thread;
use std::thread::Threads;
use std::time::{Clock, Duration};

/// What the node answers to the start, once that was given up.
const SESSION: &str = "HTTP/1.1 200 OK\r\nContent-Length: 48\r\n\r\n\
    {\"value\":{\"sessionId\":\"late\",\"capabilities\":{}}}";

const ENDED: &str = "HTTP/1.1 200 OK\r\nContent-Length: 14\r\n\r\n{\"value\":null}";

/// How often the node looks whether the start was given up.
const LOOKS: u32 = 1_000;

/// Whether the next request begins so.
fn is_asked(stream: &mut TcpStream, wanted: &[u8]) -> bool {
    let mut piece = [0; 512];
    match stream.read(&mut piece) {
        Ok(count) => count <= 512 && piece[..count].starts_with(wanted),
        Err(_) => false,
    }
}

/// Waits until the start was given up.
fn waits<R: Threads + Clock>(rt: &R, given_up: &AtomicBool) -> bool {
    for _ in 0..LOOKS {
        if given_up.load(Ordering::SeqCst) {
            return true;
        }
        thread::sleep(rt, Duration::from_millis(5));
    }
    false
}

/// A node that makes a session once its start was given up. Whether it is asked to end it then.
fn makes_late<R: Threads + Clock>(
    rt: &R,
    listener: &TcpListener,
    given_up: &AtomicBool,
) -> Option<bool> {
    let (mut stream, _) = listener.accept().ok()?;
    let starts = is_asked(&mut stream, b"POST /session HTTP/1.1\r\n");
    let late = waits(rt, given_up);
    let made = stream.write_all(SESSION.as_bytes()).ok();
    let (mut other, _) = listener.accept().ok()?;
    let ends = is_asked(&mut other, b"DELETE /session/late HTTP/1.1\r\n");
    let ended = other.write_all(ENDED.as_bytes()).ok();
    // Let go by a call: the check of a value that ends by itself writes out all its fields.
    drop(other);
    drop(stream);
    made?;
    ended?;
    Some(starts && late && ends)
}

/// A start that may take 30 s.
fn begun_within<G: Gate>(alloc: Global, gate: &mut G, address: &NodeAddress) -> Asking<G::N> {
    let mut nodes = gate.nodes(3);
    nodes.allow(30_000);
    Asking::begin(alloc, nodes, address, "POST", "/session", "{}")
}

/// Whether the session is ended while the time goes on.
fn ends<G: Gate>(gate: &mut G, ready: &mut Vec<usize>, at: &AtomicU64, ended: &AtomicBool) -> bool {
    for second in 31..231 {
        if ended.load(Ordering::SeqCst) {
            return true;
        }
        at.store(second, Ordering::SeqCst);
        rests(gate, ready);
    }
    false
}

/// Whether the start is given up after these and no sooner, and its session ended afterwards.
fn gives_up<G: Gate>(
    alloc: Global,
    gate: &mut G,
    ready: &mut Vec<usize>,
    address: &NodeAddress,
    at: &AtomicU64,
    given_up: &AtomicBool,
    ended: &AtomicBool,
) -> bool {
    let mut asking = begun_within(alloc, gate, address);
    let is_late = is_given_up(alloc, gate, &mut asking, ready, at, 30);
    given_up.store(true, Ordering::SeqCst);
    let so = ends(gate, ready, at, ended) && is_late;
    drop(asking);
    so
}

/// Comes to the node's door as often as it may still wait for somebody there.
fn comes<R: Net<Stream = TcpStream>>(rt: &R, port: u16) {
    for _ in 0..2 {
        let _ = TcpStream::connect(rt, (Ipv4Addr::LOCALHOST, port));
    }
}

fn is_ended<
    R: Threads
        + Net<Listener = TcpListener, Stream = TcpStream>
        + Clock
        + Copy
        + Send
        + Sync
        + Drop,
>(rt: R, alloc: Global) -> Option<bool> {
    let at = AtomicU64::new(0);
    let given_up = AtomicBool::new(false);
    let ended = AtomicBool::new(false);
    let mut ready = Vec::with_capacity(alloc, 4).ok()?;
    let (listener, port) = listener(&rt)?;
    let address = address_of(alloc, "127.0.0.1", port)?;
    let mut gate = TcpGate::new(Timed { rt, at: &at }, alloc).ok()?;
    let (made, gave_up) = thread::join(
        &rt,
        || {
            let made = makes_late(&rt, &listener, &given_up);
            ended.store(true, Ordering::SeqCst);
            made
        },
        || {
            let so = gives_up(
                alloc, &mut gate, &mut ready, &address, &at, &given_up, &ended,
            );
            comes(&rt, port);
            so
        },
    );
    drop(gate);
    match made {
        Some(made) => Some(made && gave_up),
        None => None,
    }
}

/// The session that comes after all is ended.
#[test]
fn a_late_start_is_ended(rt: HostRuntime) {
    let so = is_ended(rt, rt.alloc());
    assert!(rt; so == Some(true));
}
