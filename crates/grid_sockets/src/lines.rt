//! A client's connection over TCP.
ghost use Rattle.std.specs.Prelude.{◌≡◌, ℕ, ◌<◌, ◌≤◌, length, IfOk, IfSome};
ghost use Rattle.grid_outside.specs.Lines.{WritesSo};
ghost use Rattle.grid_outside.specs.Told.{counting};

use crate::holding::{Dues, Holding};
use crate::machine::shown;
use crate::parting::{Partings, part, part_waiting};
use crate::silence::Silence;
use grid_outside::{Line, Reading, Writing};
use mio::{Interest, Registry, Token};
use std::io::{ErrorKind, Read, Write};
use std::{io, net, time};

/// How long a client may send nothing on a new connection, in milliseconds.
const FIRST_BYTE_MS: u64 = 30_000;

/// How long a client may later send nothing, or take nothing, in milliseconds.
const NEXT_BYTE_MS: u64 = 300_000;

/// A stream of a client, by whether its calls wait.
#[derive(Drop)]
enum Stream {
    /// Its calls wait, as long as its time limits say.
    Waiting(net::TcpStream),
    /// None of its calls waits.
    Ready(mio::net::TcpStream),
}

/// What is known of a client.
#[derive(Clone, Copy, PartialEq, Eq)]
enum Side {
    /// It may still send.
    Open,
    /// It sends nothing more; it was ended, or shut its writing half down.
    Shut,
    /// Nobody is there.
    Gone,
}

impl Stream {
    fn read(&mut self, into: &mut [u8]) -> io::Result<usize>
        ensures count { IfOk result (λ count. count ≤ length into.new) }
        ensures room { length into.new ≡ length into.old }
    {
        match self {
            Stream::Waiting(stream) => stream.read(into),
            Stream::Ready(stream) => stream.read(into),
        }
    }

    fn write(&mut self, from: &[u8]) -> io::Result<usize>
        ensures { IfOk result (λ count. count ≤ length from.now) }
    {
        match self {
            Stream::Waiting(stream) => stream.write(from),
            Stream::Ready(stream) => stream.write(from),
        }
    }

    /// What is known of the other side. One whose calls wait is not looked at.
    fn side(&self) -> Side {
        let Stream::Ready(stream) = self else {
            return Side::Open;
        };
        match stream.peek(&mut [0]) {
            Ok(0) => Side::Shut,
            Ok(_) => Side::Open,
            Err(error) if error.kind() == ErrorKind::WouldBlock => Side::Open,
            Err(_) => Side::Gone,
        }
    }

    /// The stream, whose calls don't wait afterwards. Err: the system refuses that, and the stream is closed.
    fn ready(self) -> io::Result<mio::net::TcpStream> {
        match self {
            Stream::Waiting(stream) => {
                stream.set_nonblocking(true)?;
                Ok(mio::net::TcpStream::from_std(stream))
            }
            Stream::Ready(stream) => Ok(stream),
        }
    }
}

/// Both ways of a client's stream. A line from a door waits in each call, until a gate takes it in: up to then a thread
/// serves it alone. From then on no call waits. A call that finds nothing there for too long fails.
pub struct TcpLine<R: time::Clock + Drop> {
    runtime: R,
    stream: Stream,
    partings: Option<Partings>,
    read_faults: u64,
    write_faults: u64,
    ends: u64,
    has_read: bool,
    silence: Silence,
    holding: Holding,
}

impl<R: time::Clock + Drop> TcpLine<R> {
    /// Around a stream whose calls don't wait. No fault and no end is counted yet.
    pub fn new(runtime: R, stream: mio::net::TcpStream) -> Self
        ensures read_faults { result.read_faults ≡ 0 }
        ensures write_faults { result.write_faults ≡ 0 }
        ensures ends { result.ends ≡ 0 }
    {
        TcpLine::around(runtime, Stream::Ready(stream))
    }

    /// The same around a stream whose calls wait, as long as its time limits say: one that runs out of its time has found
    /// nothing there, and whoever calls again waits again. So does the line, until a gate takes it in.
    pub fn waiting(runtime: R, stream: net::TcpStream) -> Self
        ensures read_faults { result.read_faults ≡ 0 }
        ensures write_faults { result.write_faults ≡ 0 }
        ensures ends { result.ends ≡ 0 }
    {
        TcpLine::around(runtime, Stream::Waiting(stream))
    }

    fn around(runtime: R, stream: Stream) -> Self
        ensures read_faults { result.read_faults ≡ 0 }
        ensures write_faults { result.write_faults ≡ 0 }
        ensures ends { result.ends ≡ 0 }
    {
        TcpLine {
            runtime,
            stream,
            partings: None,
            read_faults: 0,
            write_faults: 0,
            ends: 0,
            has_read: false,
            silence: Silence::NONE,
            holding: Holding::none(),
        }
    }

    /// The line, of which no call waits and whose stream stands in the queue of the system. Err: the system refuses that,
    /// and the stream is closed.
    pub(crate) fn taken_in(
        self,
        registry: &Registry,
        place: Token,
        partings: Option<Partings>,
        dues: Option<Dues>,
    ) -> io::Result<Self>
        ensures read_faults { IfOk result (λ l. l.read_faults ≡ self.read_faults) }
        ensures write_faults { IfOk result (λ l. l.write_faults ≡ self.write_faults) }
        ensures ends { IfOk result (λ l. l.ends ≡ self.ends) }
    {
        let Self {
            runtime,
            stream,
            partings: _,
            read_faults,
            write_faults,
            ends,
            has_read,
            silence,
            holding: _,
        } = self;
        let mut stream = stream.ready()?;
        registry.register(&mut stream, place, Interest::READABLE | Interest::WRITABLE)?;
        Ok(TcpLine {
            runtime,
            stream: Stream::Ready(stream),
            partings,
            read_faults,
            write_faults,
            ends,
            has_read,
            silence,
            holding: Holding::at(place.0, dues),
        })
    }

    /// How many of so many bytes may be written now; None: none yet. Err: nobody is there to take any.
    fn room(&mut self, count: usize) -> Result<Option<usize>, ()>
        ensures room { IfOk result (λ told. IfSome told (λ room. (room ≤ count)
            × (0 < count → 0 < room))) }
        ensures read_faults { self.new.read_faults ≡ self.old.read_faults }
        ensures write_faults { self.new.write_faults ≡ self.old.write_faults }
        ensures ends { self.new.ends ≡ self.old.ends }
    {
        let now = shown(&self.runtime);
        if !self.holding.asks(now) {
            return Ok(Some(count));
        }
        match self.stream.side() {
            Side::Open => Ok(Some(count)),
            Side::Shut => Ok(self.holding.room(count, now)),
            Side::Gone => Err(()),
        }
    }

    /// Writes some of these bytes, where some may be written.
    fn write_some(&mut self, from: &[u8]) -> Writing
        ensures { WritesSo result from.now
            (counting self.old.read_faults self.old.write_faults self.old.ends)
            (counting self.new.read_faults self.new.write_faults self.new.ends) }
    {
        match self.stream.write(from) {
            Ok(count) if count > 0 || from.is_empty() => {
                self.silence.end();
                Writing::Bytes(count)
            }
            Err(error)
                if error.kind() == ErrorKind::WouldBlock
                    && !self.silence.has_lasted(shown(&self.runtime), NEXT_BYTE_MS) => {
                Writing::NotNow
            }
            _ => {
                self.write_faults = self.write_faults.saturating_add(1);
                Writing::Failed
            }
        }
    }
}

/// By hand, so that what was written reaches a client that still sends.
impl<R: time::Clock + Drop> Drop for TcpLine<R> {
    fn drop(self) {
        let Self {
            runtime,
            stream,
            partings,
            read_faults,
            write_faults,
            ends,
            has_read: _,
            silence: _,
            holding: _,
        } = self;
        let is_open = read_faults == 0 && write_faults == 0 && ends == 0;
        match (stream, partings) {
            (Stream::Waiting(stream), _) if is_open => part_waiting(stream, &runtime),
            (Stream::Ready(stream), Some(partings)) if is_open => {
                part(stream, &partings, shown(&runtime));
            }
            (stream, _) => drop(stream),
        }
    }
}

impl<R: time::Clock + Drop> Line for TcpLine<R> {
    ghost view = { λ l. counting l.read_faults l.write_faults l.ends };

    fn read(&mut self, into: &mut [u8]) -> Reading {
        match self.stream.read(into) {
            Ok(0) if !into.is_empty() => {
                self.ends = self.ends.saturating_add(1);
                Reading::End
            }
            Ok(count) => {
                self.has_read = true;
                self.silence.end();
                self.holding.hears(shown(&self.runtime));
                Reading::Bytes(count)
            }
            Err(error) => {
                let limit = if self.has_read {
                    NEXT_BYTE_MS
                } else {
                    FIRST_BYTE_MS
                };
                let waits = error.kind() == ErrorKind::WouldBlock;
                if waits && !self.silence.has_lasted(shown(&self.runtime), limit) {
                    return Reading::NotNow;
                }
                self.read_faults = self.read_faults.saturating_add(1);
                Reading::Failed
            }
        }
    }

    /// A write that takes nothing of a piece that is not empty has failed.
    fn write(&mut self, from: &[u8]) -> Writing {
        match self.room(from.len()) {
            Ok(Some(room)) => self.write_some(&from[..room]),
            Ok(None) => Writing::NotNow,
            Err(()) => {
                self.write_faults = self.write_faults.saturating_add(1);
                Writing::Failed
            }
        }
    }

    /// A client that only shuts its writing half down has gone too. One whose next request is there already is not looked
    /// behind.
    fn gone(&mut self) -> bool {
        if self.stream.side() == Side::Open {
            return false;
        }
        self.read_faults = self.read_faults.saturating_add(1);
        true
    }
}
