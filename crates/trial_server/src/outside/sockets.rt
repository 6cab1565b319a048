//! The outside over TCP.
use crate::outside::links::{reads, writes};
use crate::outside::parts::request;
use grid_outside::{AwaitedLink, Clock, Door, ExchangeFault, Link, NodeLink, Reply};
use grid_sockets::{TcpDoor, TcpNodes};
use grid_types::NodeAddress;
use std::alloc::Global;
use std::io::{Read, Write};
use std::net::{Ipv4Addr, Net, TcpListener, TcpStream};
use std::process::Abort;
use std::thread;
use std::thread::Threads;

/// The first of a hundred ports that is free.
pub(crate) fn bound<D: Door>(door: &mut D) -> Option<u16> {
    for port in 24_711..24_811_u16 {
        if door.bind(port).is_ok() {
            return Some(port);
        }
    }
    None
}

/// Whether the stream's other end wrote this.
fn is_sent(stream: &mut TcpStream, text: &str) -> bool {
    let mut piece = [0; 8];
    match stream.read(&mut piece) {
        Ok(count) => count <= 8 && &piece[..count] == text.as_bytes(),
        Err(_) => false,
    }
}

/// Whether what the one end writes is read at the other.
fn goes_both_ways<L: Link>(link: &mut L, client: &mut TcpStream) -> bool {
    client.write_all(b"abc").is_ok()
        && reads(link, "abc")
        && writes(link, "de", 2)
        && is_sent(client, "de")
}

/// Whether the link goes both ways, and ends where the client does.
fn goes_to_its_end<L: Link>(link: &mut L, mut client: TcpStream) -> bool {
    let goes = goes_both_ways(link, &mut client);
    drop(client);
    goes && reads(link, "")
}

/// The link of the client that comes in next, waited for by a gate of the door.
pub(crate) fn next_link<D: Door>(alloc: Global, door: &mut D) -> Option<AwaitedLink<D::G>> {
    let gate = door.gate().ok()?;
    let link = match door.accept() {
        Ok(link) => link,
        Err(_) => None,
    };
    match link {
        Some(link) => AwaitedLink::new(alloc, gate, link).ok(),
        None => {
            drop(gate);
            None
        }
    }
}

/// Whether it is closed.
fn closed<D: Door>(door: &mut D) -> bool {
    let came = door.accept();
    let so = matches!(came, Ok(None));
    // Let go by a call: the check of a value that ends by itself writes out all its fields.
    drop(came);
    so
}

/// Whether an accept fails.
pub(crate) fn is_unbound<D: Door>(door: &mut D) -> bool {
    let came = door.accept();
    let so = came.is_err();
    drop(came);
    so
}

/// Whether it hands the client's link out.
fn hands_out<D: Door>(alloc: Global, door: &mut D, client: TcpStream) -> bool {
    match next_link(alloc, door) {
        Some(mut link) => {
            let so = goes_to_its_end(&mut link, client);
            drop(link);
            so
        }
        None => false,
    }
}

pub(crate) fn connected<R: Net<Stream = TcpStream>>(rt: &R, port: u16) -> Option<TcpStream> {
    TcpStream::connect(rt, (Ipv4Addr::LOCALHOST, port)).ok()
}

/// Whether it opens, hands one link out, and is closed then.
fn opens_once<R: Net<Stream = TcpStream>, D: Door>(
    rt: &R,
    alloc: Global,
    door: &mut D,
) -> Option<bool> {
    let unbound = is_unbound(door);
    let port = bound(door)?;
    let client = connected(rt, port)?;
    let handed = hands_out(alloc, door, client);
    Some(unbound && handed && closed(door))
}

#[test]
fn a_door_closes_after_its_links(rt: HostRuntime) {
    let mut door = TcpDoor::new(rt, Some(1));
    let so = opens_once(&rt, rt.alloc(), &mut door);
    drop(door);
    assert!(rt; so == Some(true));
}

/// A listener at a port that is free.
pub(crate) fn listener<R: Net<Listener = TcpListener, Stream = TcpStream>>(
    rt: &R,
) -> Option<(TcpListener, u16)> {
    let listener = TcpListener::bind(rt, (Ipv4Addr::LOCALHOST, 0)).ok()?;
    match listener.local_addr().ok() {
        Some(at) => Some((listener, at.port())),
        None => {
            drop(listener);
            None
        }
    }
}

/// Reads a request, and answers with these bytes; whether the request begins as the one that was asked for.
pub(crate) fn answers_once(listener: &TcpListener, reply: &[u8]) -> bool {
    let Ok((mut stream, _)) = listener.accept() else {
        return false;
    };
    let mut piece = [0; 512];
    match stream.read(&mut piece) {
        Ok(count) => {
            count <= 512
                && piece[..count].starts_with(b"GET /status HTTP/1.1\r\nHost: ")
                && stream.write_all(reply).is_ok()
        }
        Err(_) => false,
    }
}

/// What a node replies, and what that is.
pub(crate) type Row = (&'static str, &'static str, Told);

#[derive(Clone, Copy)]
pub(crate) enum Told {
    /// A reply with this body.
    Http(&'static str),
    /// A reply whose body has so many bytes.
    Long(usize),
    /// These bytes.
    NotHttp(&'static str),
    /// None: no node was reached.
    Nothing,
}

/// A reply, by a name too, and what is none, also since it is cut off.
pub(crate) const ROWS: &[Row] = &[
    (
        "localhost",
        "HTTP/1.1 200 OK\r\nContent-Length: 2\r\n\r\nhi",
        Told::Http("hi"),
    ),
    (
        "127.0.0.1",
        "SSH-2.0-OpenSSH_9.6\r\n",
        Told::NotHttp("SSH-2.0-OpenSSH_9.6\r\n"),
    ),
    (
        "127.0.0.1",
        "HTTP/1.1 200 OK\r\nContent-Length: 3\r\n\r\nhi",
        Told::NotHttp("HTTP/1.1 200 OK\r\nContent-Length: 3\r\n\r\nhi"),
    ),
];

fn is_told(reply: &Reply, told: Told) -> bool {
    match (reply, told) {
        (Reply::Http(reply), Told::Http(body)) => reply.body.as_bytes() == body.as_bytes(),
        (Reply::Http(reply), Told::Long(count)) => reply.body.as_bytes().len() == count,
        (Reply::NotHttp(bytes), Told::NotHttp(text)) => bytes.as_bytes() == text.as_bytes(),
        _ => false,
    }
}

pub(crate) fn came_so(came: &Result<Reply, ExchangeFault>, told: Told) -> bool {
    match came {
        Ok(reply) => is_told(reply, told),
        Err(ExchangeFault::Unreachable) => matches!(told, Told::Nothing),
        Err(ExchangeFault::Memory) => false,
    }
}

pub(crate) fn address_of(alloc: Global, host: &str, port: u16) -> Option<NodeAddress> {
    let address = format!(in alloc; "{host}:{port}").ok()?;
    NodeAddress::from_bytes(address.as_bytes())
}

/// Whether this comes of a request to a node at the address.
fn comes_so<N: NodeLink>(alloc: Global, nodes: &mut N, address: &NodeAddress, told: Told) -> bool {
    let came = nodes.exchange(alloc, address, &request(b"GET", b"/status", b""));
    let so = came_so(&came, told);
    drop(came);
    so
}

/// Whether it is asked as it is to be, and this comes of it where it replies so.
fn goes_so<R: Threads + Net<Listener = TcpListener, Stream = TcpStream> + Copy + Drop>(
    rt: R,
    alloc: Global,
    row: &Row,
) -> Option<bool> {
    let (host, reply, told) = *row;
    let (listener, port) = listener(&rt)?;
    let address = address_of(alloc, host, port)?;
    let mut nodes = TcpNodes::new(rt);
    let (is_asked, is_told) = thread::join(
        &rt,
        || answers_once(&listener, reply.as_bytes()),
        || comes_so(alloc, &mut nodes, &address, told),
    );
    drop(nodes);
    Some(is_asked && is_told)
}

/// An address at which none listens any more.
pub(crate) fn empty_address<R: Net<Listener = TcpListener, Stream = TcpStream>>(
    rt: &R,
    alloc: Global,
) -> Option<NodeAddress> {
    let (listener, port) = listener(rt)?;
    drop(listener);
    address_of(alloc, "127.0.0.1", port)
}

fn reaches_none<R: Net<Listener = TcpListener, Stream = TcpStream> + Copy + Drop>(
    rt: R,
    alloc: Global,
) -> Option<bool> {
    let address = empty_address(&rt, alloc)?;
    let mut nodes = TcpNodes::new(rt);
    let so = comes_so(alloc, &mut nodes, &address, Told::Nothing);
    drop(nodes);
    Some(so)
}

#[test]
fn a_node_is_asked_over_its_own_connection(rt: HostRuntime) {
    for row in ROWS {
        let so = goes_so(rt, rt.alloc(), row);
        assert!(rt; so == Some(true));
    }
    let so = reaches_none(rt, rt.alloc());
    assert!(rt; so == Some(true));
}
