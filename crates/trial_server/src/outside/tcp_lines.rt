//! Lines over TCP, and how they end.
use crate::outside::lines::line_reads_none;
use crate::outside::links::writes;
use crate::outside::sockets::{bound, connected, is_unbound, listener, next_link};
use crate::outside::tcp_nodes::Timed;
use grid_outside::{AwaitedLink, Door, Gate, Line, Reading};
use grid_sockets::{TcpDoor, TcpLine};
use mio::net;
use std::alloc::{AllocGlobal, Global};
use std::io::{Read, Write};
use std::net::{Net, OpenStream, TcpListener, TcpStream};
use std::process::Abort;
use std::sync::atomic::{AtomicU64, Ordering};
use std::time::{Clock, Duration};

// What ends is let go by a call: the check of a value that ends by itself writes out all its fields.

/// A line over the loopback whose clock shows the number's seconds, and its client.
fn line_and_client<'a, R: Net<Listener = TcpListener, Stream = TcpStream>>(
    rt: &R,
    at: &'a AtomicU64,
) -> Option<(TcpLine<Timed<'a, ()>>, TcpStream)> {
    let (listener, port) = listener(rt)?;
    let client = connected(rt, port)?;
    let (stream, _) = listener.accept().ok()?;
    let is_set = stream.set_nonblocking(true).ok();
    let line = TcpLine::new(Timed { rt: (), at }, net::TcpStream::from_std(stream));
    match is_set {
        Some(()) => Some((line, client)),
        None => {
            drop(client);
            drop(line);
            None
        }
    }
}

/// Whether nothing is there yet at this second, and the second behind it ends the line.
fn ends_behind<L: Line>(line: &mut L, at: &AtomicU64, second: u64) -> bool {
    at.store(second, Ordering::SeqCst);
    let waits = line_reads_none(line, Reading::NotNow);
    at.store(second.saturating_add(1), Ordering::SeqCst);
    waits && line_reads_none(line, Reading::Failed)
}

/// Reads until something is there, at most a million times.
fn soon_reads<L: Line>(line: &mut L, text: &str) -> bool {
    let mut piece = [0; 8];
    for _ in 0..1_000_000 {
        match line.read(&mut piece) {
            Reading::NotNow => {}
            Reading::Bytes(count) => return count <= 8 && &piece[..count] == text.as_bytes(),
            _ => return false,
        }
    }
    false
}

/// A client may send nothing for 30 s first.
fn ends_before_a_byte<R: Net<Listener = TcpListener, Stream = TcpStream>>(rt: &R) -> Option<bool> {
    let at = AtomicU64::new(7);
    let (mut line, client) = line_and_client(rt, &at)?;
    let so = line_reads_none(&mut line, Reading::NotNow) && ends_behind(&mut line, &at, 36);
    drop(client);
    drop(line);
    Some(so)
}

/// And for 300 s behind a byte.
fn ends_behind_a_byte<R: Net<Listener = TcpListener, Stream = TcpStream>>(rt: &R) -> Option<bool> {
    let at = AtomicU64::new(37);
    let (mut line, mut client) = line_and_client(rt, &at)?;
    let goes = client.write_all(b"abc").is_ok() && soon_reads(&mut line, "abc");
    let waits = line_reads_none(&mut line, Reading::NotNow);
    let so = goes && waits && ends_behind(&mut line, &at, 336);
    drop(client);
    drop(line);
    Some(so)
}

#[test]
fn a_silent_client_is_let_go(rt: HostRuntime) {
    assert!(rt; ends_before_a_byte(&rt) == Some(true));
    assert!(rt; ends_behind_a_byte(&rt) == Some(true));
}

/// Whether a read gives the text and the next the end.
fn hears_to_the_end(client: &mut TcpStream, text: &str) -> bool {
    let mut piece = [0; 8];
    let heard = match client.read(&mut piece) {
        Ok(count) => count <= 8 && &piece[..count] == text.as_bytes(),
        Err(_) => false,
    };
    heard && matches!(client.read(&mut piece), Ok(0))
}

/// Whether what is written on the link is read at its other end, though that was not read itself, and may go on to write.
fn is_heard_over<G: Gate + Drop>(
    alloc: Global,
    mut link: AwaitedLink<G>,
    client: &mut TcpStream,
) -> bool {
    let written = writes(&mut link, "de", 2);
    let mut gate = link.into_gate();
    let more = client.write_all(&[0; 4_096]).is_ok();
    gate.wait(0, &mut Vec::new(alloc));
    let so = written && more && hears_to_the_end(client, "de");
    drop(gate);
    so
}

fn is_heard_at<R: Net<Stream = TcpStream>, D: Door>(
    rt: &R,
    alloc: Global,
    door: &mut D,
) -> Option<bool> {
    let port = bound(door)?;
    let mut client = connected(rt, port)?;
    let sent = client.write_all(&[0; 4_096]).is_ok();
    let so = match next_link(alloc, door) {
        Some(link) => Some(is_heard_over(alloc, link, &mut client) && sent),
        None => None,
    };
    drop(client);
    so
}

fn is_heard_unread<
    R: Net<Listener = TcpListener, Stream = TcpStream> + Clock + Copy + Send + Drop + AllocGlobal,
>(rt: R, alloc: Global) -> Option<bool> {
    let mut door = TcpDoor::new(rt, None);
    let so = is_heard_at(&rt, alloc, &mut door);
    drop(door);
    so
}

/// Whether less than half a minute has gone by.
fn is_soon<C: Clock>(clock: &C, before: Duration) -> bool {
    match clock.monotonic() {
        Ok(now) => now.saturating_sub(before) < Duration::from_secs(30),
        Err(_) => false,
    }
}

/// Whether the wait ends, behind an accept that fails.
fn wait_ends<D: Door>(alloc: Global, door: &mut D) -> Option<bool> {
    let mut gate = door.gate().ok()?;
    let unbound = is_unbound(door);
    gate.wait(60_000, &mut Vec::new(alloc));
    drop(gate);
    Some(unbound)
}

/// Whether an accept, which fails where nothing is bound, ends a wait.
fn rings<
    R: Net<Listener = TcpListener, Stream = TcpStream> + Clock + Copy + Send + Drop + AllocGlobal,
>(rt: R, alloc: Global) -> Option<bool> {
    let before = rt.monotonic().ok()?;
    let mut door = TcpDoor::new(rt, None);
    let unbound = wait_ends(alloc, &mut door);
    let soon = is_soon(&rt, before);
    drop(door);
    Some(unbound? && soon)
}

#[test]
fn an_answer_is_heard_though_its_client_was_not(rt: HostRuntime) {
    let so = is_heard_unread(rt, rt.alloc());
    assert!(rt; so == Some(true));
}

#[test]
fn an_accept_ends_a_wait(rt: HostRuntime) {
    let so = rings(rt, rt.alloc());
    assert!(rt; so == Some(true));
}
