//! Connections to nodes that lie there for the next request.
//!
//! A connection goes here behind a whole reply after which both sides keep it open. Its node may close it at any time, so it is
//! looked at before it is used. What the system tells of it while it lies here names a place at which nothing may go on, and that
//! is harmless.

use crate::ways::{Seen, both};
use grid_types::NodeAddress;
use mio::Token;
use mio::net::TcpStream;
use std::alloc::{AllocError, Global};
use std::io::{ErrorKind, Read};
use std::sync::{Arc, Mutex};

/// How long one lies here, in milliseconds, up to the sweep that finds it. Drivers keep theirs for longer.
const LIES_MS: u64 = 900;

/// The most that lie here at once. Further ones are closed.
const ROOM: usize = 256;

/// The most to one node.
const ROOM_OF_NODE: usize = 64;

/// A connection over which nothing is under way.
#[derive(Drop)]
pub(crate) struct Spare {
    address: NodeAddress,
    stream: TcpStream,
    /// Under which its readiness was told last.
    token: Token,
    /// Since when it lies here, in milliseconds of the machine's clock.
    since: u64,
}

/// The connections that lie here.
pub(crate) type Spares = Arc<Mutex<Vec<Spare>>>;

/// No connection yet.
pub(crate) fn spares(alloc: Global) -> Result<Spares, AllocError> {
    let list = Mutex::new(Vec::new(alloc));
    match Arc::new(alloc, list) {
        Ok(spares) => Ok(spares),
        Err(_) => Err(AllocError),
    }
}

impl Spare {
    /// From this moment on.
    pub(crate) fn of(address: NodeAddress, stream: TcpStream, token: Token, since: u64) -> Spare {
        Spare {
            address,
            stream,
            token,
            since,
        }
    }

    /// Whether its time is over.
    fn is_over(&self, now: u64) -> bool {
        now.saturating_sub(self.since) >= LIES_MS
    }

    /// Whether it is open, with nothing to be read. Where there is the end, an error or a byte that nobody asked for, its node
    /// has let it go.
    fn is_silent(&mut self) -> bool {
        match self.stream.read(&mut [0]) {
            Ok(_) => false,
            Err(error) => error.kind() == ErrorKind::WouldBlock,
        }
    }

    /// The stream, told of under this token from now on. None: the system refuses that.
    fn told_under(self, seen: Seen<'_>) -> Option<TcpStream> {
        let Spare {
            address: _,
            mut stream,
            token,
            since: _,
        } = self;
        if token.0 != seen.token.0 {
            seen.registry
                .reregister(&mut stream, seen.token, both())
                .ok()?;
        }
        Some(stream)
    }
}

/// The place in the list of a connection to the node: the last one, but rather one that is told of under the token already.
fn place_of(list: &[Spare], address: &NodeAddress, token: Token) -> Option<usize> {
    let mut last = None;
    for (at, spare) in list.iter().enumerate() {
        if spare.address == *address {
            last = Some(at);
            if spare.token.0 == token.0 {
                return last;
            }
        }
    }
    last
}

/// How many of them are to the node.
fn count_of(list: &[Spare], address: &NodeAddress) -> usize {
    list.iter()
        .filter(|spare| spare.address == *address)
        .count()
}

/// Takes a connection to the node out that is open and silent. Those that are not are closed.
pub(crate) fn take(
    spares: &Spares,
    seen: Seen<'_>,
    address: &NodeAddress,
    now: u64,
) -> Option<TcpStream> {
    let mut list = spares.try_lock()?;
    for _ in 0..ROOM {
        let at = place_of(&list, address, seen.token)?;
        if at >= list.len() {
            return None;
        }
        let mut spare = list.swap_remove(at);
        if !spare.is_over(now) && spare.is_silent() {
            return spare.told_under(seen);
        }
    }
    None
}

/// Keeps a connection. Where there is no room for it, it is closed.
pub(crate) fn keep(spares: &Spares, spare: Spare) {
    if let Some(mut list) = spares.try_lock() {
        if list.len() < ROOM && count_of(&list, &spare.address) < ROOM_OF_NODE {
            let _ = list.push(spare);
        }
    }
}

/// Closes those whose time is over.
fn close_old(list: &mut Vec<Spare>, now: u64) {
    for at in (0..list.len()).rev() {
        if at < list.len() && list[at].is_over(now) {
            drop(list.swap_remove(at));
        }
    }
}

/// Closes those whose time is over, and says whether any is left.
pub(crate) fn sweep_spares(spares: &Spares, now: u64) -> bool {
    let Some(mut list) = spares.try_lock() else {
        return true;
    };
    if list.is_empty() {
        return false;
    }
    close_old(&mut list, now);
    !list.is_empty()
}
