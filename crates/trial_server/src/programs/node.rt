//! A node's program over TCP: it registers and serves a client.
use crate::programs::lists::list;
use grid_node::node_main;
use grid_outside::Door;
use grid_sockets::TcpDoor;
use grid_types::Text;
use std::alloc::Global;
use std::io::{Read, Write};
use std::net::{Ipv4Addr, Net, TcpListener, TcpStream};
use std::sync::Wait;
use std::thread::Threads;
use std::{io, thread};

/// Takes one registration.
fn register(hub: &TcpListener) -> io::Result<()> {
    let (mut stream, _) = hub.accept()?;
    let mut piece = [0; 1_024];
    let _ = stream.read(&mut piece)?;
    stream.write_all(b"HTTP/1.1 200 OK\r\nContent-Length: 20\r\n\r\n{\"value\":{\"node\":7}}")
}

/// Reads up to the end, or until the answer is full, and gives how many bytes came.
fn read_answer(client: &mut TcpStream, answer: &mut [u8]) -> io::Result<usize> {
    let mut read = 0;
    for _ in 0..64 {
        let at = read.min(answer.len());
        let count = client.read(&mut answer[at..])?;
        if count == 0 {
            break;
        }
        read = read.saturating_add(count);
    }
    Ok(read)
}

/// Asks, behind an empty line and in two pieces. The node closes the connection without being asked to.
fn ask(client: &mut TcpStream, answer: &mut [u8]) -> io::Result<usize> {
    client.write_all(b"\r\nPOST /session HT")?;
    client.write_all(b"TP/1.1\r\nContent-Length: 2\r\n\r\n{}")?;
    read_answer(client, answer)
}

/// A hub that takes one registration, and a client of the node; what the node answered to it.
fn hub_and_client<R: Net<Listener = TcpListener, Stream = TcpStream>>(
    rt: &R,
    hub: &TcpListener,
    port: u16,
    answer: &mut [u8],
) -> io::Result<usize> {
    register(hub)?;
    let mut client = TcpStream::connect(rt, (Ipv4Addr::LOCALHOST, port))?;
    ask(&mut client, answer)
}

fn words(alloc: Global, hub: u16, port: u16) -> Option<Vec<Text>> {
    let hub = format!(in alloc; "--hub=127.0.0.1:{hub}").ok()?;
    let port = format!(in alloc; "--port={port}").ok()?;
    list(alloc, &[hub.as_str(), port.as_str()])
}

/// A port that is free now.
fn free_port<R: Net<Listener = TcpListener, Stream = TcpStream>>(rt: &R) -> io::Result<u16> {
    Ok(
        TcpListener::bind(rt, (Ipv4Addr::LOCALHOST, 0))?
            .local_addr()?
            .port(),
    )
}

const ID: &[u8] = b"\"sessionId\":\"00000000-0000-0007-0000-000000000001\"";

fn has_id(answer: &[u8], read: usize) -> bool {
    answer[..read.min(answer.len())]
        .windows(ID.len())
        .any(|part| part == ID)
}

/// The status over any door, of which a trial asks no clause.
fn status_over<R: Threads + Wait + Sync, D: Door>(
    rt: &R,
    alloc: Global,
    words: &[Text],
    door: &mut D,
) -> u8 {
    node_main(rt, alloc, words, door)
}

/// Whether a node serves one link under the number that it got, and ends with its door.
fn serves<R: Threads + Wait + Sync>(rt: &R, runtime: HostRuntime) -> Option<bool> {
    let alloc = runtime.alloc();
    let hub = TcpListener::bind(&runtime, (Ipv4Addr::LOCALHOST, 0)).ok()?;
    let port = free_port(&runtime).ok()?;
    let words = words(alloc, hub.local_addr().ok()?.port(), port)?;
    let mut answer = [0; 1_024];
    let mut door = TcpDoor::new(runtime, Some(1));
    let (read, status) = thread::join(
        rt,
        || hub_and_client(&runtime, &hub, port, &mut answer).unwrap_or(0),
        || status_over(rt, alloc, words.as_slice(), &mut door),
    );
    Some(status == 0 && has_id(&answer, read))
}

#[test]
fn a_registered_node_serves_a_client(rt: HostRuntime) {
    assert!(rt; serves(&rt, rt) == Some(true));
}
