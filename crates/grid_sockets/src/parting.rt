//! The end of a client's connection.
//!
//! Where a socket is closed while bytes of its client are unread, the system tells the client at once that the connection is
//! reset, and an answer that is still on its way is lost. So the writing half is shut down first, and what the client still
//! sends is read for a while.

use crate::machine::shown;
use grid_outside::PIECE_BYTES;
use mio::net::TcpStream;
use std::alloc::{AllocError, Global};
use std::io::{ErrorKind, Read};
use std::net::Shutdown;
use std::sync::{Arc, Mutex};
use std::time::Duration;
use std::{net, time};

/// How long a client is read on, in milliseconds.
const READ_ON_MS: u64 = 2_000;

/// The most bytes of a client that are read on.
const READ_ON_BYTES: usize = 67_108_864;

/// How long one call waits for bytes of a client that is read on by the thread that served it, in milliseconds.
const CALL_MS: u64 = 200;

/// The most such calls.
const CALLS: u32 = 1_000_000;

/// The most pieces that are read in a row.
const PIECES: u32 = 16;

/// The most connections that are read on at once. Further ones are closed without.
const ROOM: usize = 1_024;

/// A connection of which nothing more is written.
#[derive(Drop)]
pub(crate) struct Parting {
    stream: TcpStream,
    since: u64,
    left: usize,
}

/// The connections that are read on.
pub(crate) type Partings = Arc<Mutex<Vec<Parting>>>;

/// No connection yet.
pub(crate) fn partings(alloc: Global) -> Result<Partings, AllocError> {
    let list = Mutex::new(Vec::with_capacity(alloc, ROOM)?);
    match Arc::new(alloc, list) {
        Ok(partings) => Ok(partings),
        Err(_) => Err(AllocError),
    }
}

impl Parting {
    /// Reads what is there, and says whether the connection is to be closed.
    fn is_over(&mut self, now: u64, piece: &mut [u8]) -> bool {
        if now.saturating_sub(self.since) >= READ_ON_MS {
            return true;
        }
        for _ in 0..PIECES {
            match self.stream.read(piece) {
                Ok(0) => return true,
                Ok(count) => self.left = self.left.saturating_sub(count),
                Err(error) => return error.kind() != ErrorKind::WouldBlock,
            }
            if self.left == 0 {
                return true;
            }
        }
        false
    }
}

/// Ends a connection at this moment of the machine's clock. Where its client may still send, the list has it afterwards.
pub(crate) fn part(stream: TcpStream, partings: &Partings, now: u64) {
    let _ = stream.shutdown(Shutdown::Write);
    let mut parting = Parting {
        stream,
        since: now,
        left: READ_ON_BYTES,
    };
    let mut piece = [0; PIECE_BYTES];
    if parting.is_over(now, &mut piece) {
        return;
    }
    if let Some(mut list) = partings.try_lock() {
        if list.len() < ROOM {
            let _ = list.push(parting);
        }
    }
}

/// Ends a connection whose calls wait, and waits for as long as it is read on.
pub(crate) fn part_waiting<R: time::Clock>(mut stream: net::TcpStream, runtime: &R) {
    let _ = stream.shutdown(Shutdown::Write);
    let limit = Some(Duration::from_millis(CALL_MS));
    if stream.set_read_timeout(limit).is_err() {
        return;
    }
    let since = shown(runtime);
    let mut left = READ_ON_BYTES;
    let mut piece = [0; PIECE_BYTES];
    for _ in 0..CALLS {
        match stream.read(&mut piece) {
            Ok(0) => return,
            Ok(count) => left = left.saturating_sub(count),
            Err(error) if error.kind() == ErrorKind::WouldBlock => {}
            Err(_) => return,
        }
        if left == 0 || shown(runtime).saturating_sub(since) >= READ_ON_MS {
            return;
        }
    }
}

/// Reads on, and closes what is over at this moment of the machine's clock.
fn read_on(list: &mut Vec<Parting>, now: u64) {
    let mut piece = [0; PIECE_BYTES];
    for at in (0..list.len()).rev() {
        if at < list.len() && list[at].is_over(now, &mut piece) {
            drop(list.swap_remove(at));
        }
    }
}

/// Reads on where anything is left, and says whether anything still is.
pub(crate) fn sweep(partings: &Partings, now: u64) -> bool {
    let Some(mut list) = partings.try_lock() else {
        return true;
    };
    if list.is_empty() {
        return false;
    }
    read_on(&mut list, now);
    !list.is_empty()
}
