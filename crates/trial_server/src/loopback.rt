//! A hub, a node and a client over TCP in one process.
use crate::tests::{status_over, words};
use grid_node::node_main;
use grid_outside::Door;
use grid_sockets::TcpDoor;
use grid_types::Text;
use std::alloc::Global;
use std::io::{Read, Write};
use std::net::{Ipv4Addr, TcpListener, TcpStream};
use std::sync::Wait;
use std::thread::Threads;
use std::time::Duration;
use std::{io, thread};

const STATUS: &[u8] = b"GET /status HTTP/1.1\r\n\r\n";

const NEW_SESSION: &[u8] =
    b"POST /session HTTP/1.1\r\nContent-Length: 57\r\n\r\n{\"capabilities\":{\"alwaysMatch\":{\"browserName\":\"chrome\"}}}";

const URL: &[u8] = b"GET /session/00000000-0000-0001-0000-000000000001/url HTTP/1.1\r\n\r\n";

const DELETE: &[u8] = b"DELETE /session/00000000-0000-0001-0000-000000000001 HTTP/1.1\r\n\r\n";

fn contains(bytes: &[u8], part: &[u8]) -> bool {
    !part.is_empty() && bytes.windows(part.len()).any(|piece| piece == part)
}

/// Asks again and again, until the answer has this part, at most so many times.
fn is_told(
    rt: &HostRuntime,
    stream: &mut TcpStream,
    request: &[u8],
    part: &[u8],
    tries: u32,
) -> io::Result<bool> {
    let mut piece = [0; 1_024];
    for _ in 0..tries {
        stream.write_all(request)?;
        let count = stream.read(&mut piece)?;
        if contains(&piece[..count], part) {
            return Ok(true);
        }
        thread::sleep(rt, Duration::from_millis(10));
    }
    Ok(false)
}

/// A connection to the hub, once it listens.
fn connected(rt: &HostRuntime, port: u16) -> Option<TcpStream> {
    for _ in 0..1_000 {
        if let Ok(stream) = TcpStream::connect(rt, (Ipv4Addr::LOCALHOST, port)) {
            return Some(stream);
        }
        thread::sleep(rt, Duration::from_millis(10));
    }
    None
}

/// Goes through one session on one connection, and says whether each answer was as it should be.
fn one_session(rt: &HostRuntime, port: u16) -> Option<bool> {
    let mut stream = connected(rt, port)?;
    let is_ready = is_told(rt, &mut stream, STATUS, b"\"ready\":true", 1_000).ok()?;
    let created = b"\"sessionId\":\"00000000-0000-0001-0000-000000000001\"";
    let is_created = is_told(rt, &mut stream, NEW_SESSION, created, 1).ok()?;
    let is_relayed = is_told(rt, &mut stream, URL, b"{\"value\":\"about:blank\"}", 1).ok()?;
    let is_ended = is_told(rt, &mut stream, DELETE, b"{\"value\":null}", 1).ok()?;
    Some(is_ready && is_created && is_relayed && is_ended)
}

/// Two ports that are free now.
fn free_ports(rt: &HostRuntime) -> io::Result<(u16, u16)> {
    let one = TcpListener::bind(rt, (Ipv4Addr::LOCALHOST, 0))?;
    let other = TcpListener::bind(rt, (Ipv4Addr::LOCALHOST, 0))?;
    Ok((one.local_addr()?.port(), other.local_addr()?.port()))
}

/// Connections to the hub that say nothing.
fn silent(rt: &HostRuntime, port: u16, count: usize) -> Option<Vec<TcpStream>> {
    let mut streams = Vec::new(rt.alloc());
    for _ in 0..count {
        streams.push(connected(rt, port)?).ok()?;
    }
    Some(streams)
}

/// Whether a session goes its way while so many connections say nothing.
fn one_session_beside(rt: &HostRuntime, port: u16, count: usize) -> Option<bool> {
    let silent = silent(rt, port, count)?;
    let is_so = one_session(rt, port)?;
    Some(is_so && silent.len() == count)
}

/// The status over any door, of which a trial asks no clause.
fn node_status<R: Threads + Wait + Sync, D: Door>(
    rt: &R,
    alloc: Global,
    words: &[Text],
    door: &mut D,
) -> u8 {
    node_main(rt, alloc, words, door)
}

/// Two free ports, and the words of a hub at the first and of a node at the second.
fn words_of_both(runtime: &HostRuntime, more: &str) -> Option<(u16, Vec<Text>, Vec<Text>)> {
    let alloc = runtime.alloc();
    let (port, node_port) = free_ports(runtime).ok()?;
    let hub_port = format!(in alloc; "--port={port}").ok()?;
    let node_port = format!(in alloc; "--port={node_port}").ok()?;
    let hub = format!(in alloc; "--hub=127.0.0.1:{port}").ok()?;
    let hub_words = words(alloc, &[hub_port.as_str(), more])?;
    let node_words = words(alloc, &[hub.as_str(), node_port.as_str()])?;
    Some((port, hub_words, node_words))
}

/// Whether a session goes through a hub with these further words and a node, while so many connections say nothing. The hub takes
/// their links and those of the node and of the client, the node the three that the session needs.
fn goes_through<R: Threads + Wait + Sync>(
    rt: &R,
    runtime: HostRuntime,
    more: &str,
    count: usize,
) -> Option<bool> {
    let alloc = runtime.alloc();
    let (port, hub_words, node_words) = words_of_both(&runtime, more)?;
    let mut hub_door = TcpDoor::new(runtime, Some((count as u64).saturating_add(2)));
    let mut node_door = TcpDoor::new(runtime, Some(3));
    let (hub_status, (node_status, session)) = thread::join(
        rt,
        || status_over(rt, alloc, hub_words.as_slice(), &mut hub_door),
        || {
            thread::join(
                rt,
                || node_status(rt, alloc, node_words.as_slice(), &mut node_door),
                || one_session_beside(&runtime, port, count),
            )
        },
    );
    Some((hub_status, node_status, session) == (0, 0, Some(true)))
}

/// Behind it one thread drives all connections, and 200 of them hold it up in nothing.
#[test]
fn a_session_goes_through_hub_and_node(rt: HostRuntime) {
    assert!(rt; goes_through(&rt, rt, "--handlers=64", 0) == Some(true));
    assert!(rt; goes_through(&rt, rt, "--handlers=1", 200) == Some(true));
}
