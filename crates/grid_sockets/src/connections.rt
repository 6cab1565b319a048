//! Nodes over TCP.
ghost use Rattle.std.specs.Prelude.{◌≡◌, ℕ, ◌<◌, ◌≤◌, ◌+◌, IfOk, IsErrOf, IsTrue, length, vec_len};
ghost use Rattle.grid_outside.specs.Counts.{Rose};
ghost use Rattle.grid_outside.specs.Exchanges.{is_within};

use grid_outside::{ExchangeFault, KEPT_BYTES, NodeLink, PIECE_BYTES, Reply};
use grid_types::{Bytes, NoMemory, NodeAddress};
use http_frames::{LIMITS, NodeRequest, RStep, next_response, write_request};
use std::alloc::{AllocError, Global};
use std::io;
use std::io::{Read, Write};
use std::net::{Net, OpenStream, TcpStream, ToSocketAddrs};
use std::time::Duration;

/// How long a node may take to be connected, in seconds.
const SECONDS_TO_CONNECT: u64 = 10;

/// How long one read from a node, or one write to it, may take, in seconds. It is long, since of a
/// start that is given up while the node still makes it nobody knows.
const SECONDS_FOR_NODES: u64 = 600;

/// Reaches nodes at `host:port`, with one connection for each exchange. The host may be a name.
#[derive(Drop)]
pub struct TcpNodes<R: Net + Drop> {
    runtime: R,
    faults: u64,
}

impl<R: Net + Drop> TcpNodes<R> {
    /// Connects by this runtime. Nothing is connected before the first exchange.
    pub fn new(runtime: R) -> Self
        ensures { result.faults ≡ 0 }
    {
        TcpNodes { runtime, faults: 0 }
    }
}

/// Why there is no reply.
#[derive(Clone, Copy)]
pub(crate) enum Stop {
    Failed,
    Memory,
}

impl From<NoMemory> for Stop {
    fn from(_: NoMemory) -> Self {
        Stop::Memory
    }
}

impl From<AllocError> for Stop {
    fn from(_: AllocError) -> Self {
        Stop::Memory
    }
}

impl From<io::Error> for Stop {
    fn from(_: io::Error) -> Self {
        Stop::Failed
    }
}

/// What an exchange tells of it. A node that was not reached is counted.
pub(crate) fn fault_of(stop: Stop, faults: &mut u64) -> ExchangeFault
    ensures later { faults.old ≤ faults.new }
    ensures unreachable { result ≡ ExchangeFault.Unreachable → Rose faults.old faults.new }
{
    match stop {
        Stop::Memory => ExchangeFault::Memory,
        Stop::Failed => {
            *faults = faults.saturating_add(1);
            ExchangeFault::Unreachable
        }
    }
}

/// A stream to the first place of the address that can be connected.
fn connect<R: Net>(net: &R, address: &NodeAddress) -> Result<R::Stream, Stop> {
    let Ok(text) = str::from_utf8(address.as_bytes()) else {
        return Err(Stop::Failed);
    };
    let limit = Duration::from_secs(SECONDS_TO_CONNECT);
    for place in text.to_socket_addrs(net)? {
        if let Ok(stream) = TcpStream::connect_timeout(net, &place, limit) {
            let limit = Duration::from_secs(SECONDS_FOR_NODES);
            stream.set_nodelay(true)?;
            stream.set_read_timeout(Some(limit))?;
            stream.set_write_timeout(Some(limit))?;
            return Ok(stream);
        }
    }
    Err(Stop::Failed)
}

fn send<S: Write>(stream: &mut S, bytes: &[u8]) -> Result<(), Stop> {
    let mut done = 0;
    'pieces: while done < bytes.len() {
        let count = stream.write(&bytes[done..])?;
        if count == 0 {
            return Err(Stop::Failed);
        }
        done += count;
    }
    Ok(())
}

pub(crate) fn not_http(alloc: Global, bytes: &[u8]) -> Result<Reply, NoMemory>
    ensures { IfOk result (λ reply. IsTrue (is_within reply)) }
{
    let kept = bytes.len().min(KEPT_BYTES);
    Ok(Reply::NotHttp(Bytes::of(alloc, &bytes[..kept])?))
}

/// The reply, or the first bytes of what is none: also one that is cut off by the end of input.
fn receive<S: Read>(alloc: Global, stream: &mut S) -> Result<Reply, Stop>
    ensures { IfOk result (λ reply. IsTrue (is_within reply)) }
{
    let mut bytes = Vec::new(alloc);
    let mut piece = [0; PIECE_BYTES];
    for _ in 0..u64::MAX {
        let count = stream.read(&mut piece)?;
        bytes.extend_from_slice(&piece[..count])?;
        match next_response(alloc, bytes.as_slice(), count == 0, LIMITS)? {
            RStep::Whole(reply, _) => return Ok(Reply::Http(reply)),
            RStep::NotHttp => return Ok(not_http(alloc, bytes.as_slice())?),
            RStep::More => {}
        }
    }
    Err(Stop::Failed)
}

fn ask<R: Net>(
    net: &R,
    alloc: Global,
    address: &NodeAddress,
    request: &NodeRequest<'_>,
) -> Result<Reply, Stop>
    ensures { IfOk result (λ reply. IsTrue (is_within reply)) }
{
    let bytes = write_request(alloc, address.as_bytes(), request)?;
    let mut stream = connect(net, address)?;
    send(&mut stream, bytes.as_bytes())?;
    receive(alloc, &mut stream)
}

impl<R: Net + Drop> NodeLink for TcpNodes<R> {
    ghost faults = { λ n. n.faults };

    ghost gives = { λ old address ask came new. Unit {0} };

    fn exchange(
        &mut self,
        alloc: Global,
        address: &NodeAddress,
        request: &NodeRequest<'_>,
    ) -> Result<Reply, ExchangeFault> {
        match ask(&self.runtime, alloc, address, request) {
            Ok(reply) => Ok(reply),
            Err(stop) => Err(fault_of(stop, &mut self.faults)),
        }
    }
}
