//! Clients that come all at once.
use crate::outside::sockets::bound;
use grid_sockets::TcpDoor;
use std::alloc::{AllocGlobal, Global};
use std::net::{Ipv4Addr, Net, SocketAddr, TcpListener, TcpStream};
use std::process::Abort;
use std::time::{Clock, Duration};

/// So many clients.
const CLIENTS: usize = 400;

/// A client that finds no room at the door is tried again by its system, after a second.
const LIMIT_MS: u64 = 800;

/// Whether so many clients are connected at once.
fn connect<R: Net<Stream = TcpStream>>(
    rt: &R,
    at: &SocketAddr,
    clients: &mut Vec<TcpStream>,
) -> bool {
    for _ in 0..CLIENTS {
        match TcpStream::connect_timeout(rt, at, Duration::from_millis(LIMIT_MS)) {
            Ok(client) => {
                if clients.push(client).is_err() {
                    return false;
                }
            }
            Err(_) => return false,
        }
    }
    true
}

/// Whether all of them are, to a door that accepts none of them yet.
fn are_connected<
    R: Net<Listener = TcpListener, Stream = TcpStream> + Clock + Copy + Send + Drop + AllocGlobal,
>(rt: R, alloc: Global) -> bool {
    let mut door = TcpDoor::new(rt, None);
    let so = match bound(&mut door) {
        Some(port) => {
            let at = SocketAddr::from((Ipv4Addr::LOCALHOST, port));
            connect(&rt, &at, &mut Vec::new(alloc))
        }
        None => false,
    };
    // Let go by a call: the check of a value that ends by itself writes out all its fields.
    drop(door);
    so
}

#[test]
fn a_burst_of_clients_finds_room_at_a_door(rt: HostRuntime) {
    let so = are_connected(rt, rt.alloc());
    assert!(rt; so);
}
