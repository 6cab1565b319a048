//! A door over TCP.
ghost use Rattle.std.specs.Prelude.{◌≡◌, ℕ, ◌≤◌, None, Some, IfOk, OnOk, OnErr, IsSome};
ghost use Rattle.grid_outside.specs.Counts.{Rose, HasCause};
ghost use Rattle.grid_sockets.specs.Limits.{IsCounted};

use crate::connections::TcpNodes;
use crate::gate::TcpGate;
use crate::lines::TcpLine;
use crate::machine::MachineClock;
use grid_outside::{Door, Failed};
use mio::Waker;
use std::alloc::{AllocGlobal, Global};
use std::io::ErrorKind;
use std::net::{
    IpAddr, Ipv4Addr, Net, OpenListener, OpenStream, SocketAddr, TcpListener, TcpStream,
};
use std::os::fd::AsFd;
use std::sync::Arc;
use std::sync::atomic::AtomicU64;
use std::time::Duration;
use std::{io, time};

/// How long the door waits, in milliseconds, where the system can't take a connection for a while.
const PAUSE_MS: u64 = 15;

/// How long one call of a client's line waits until a gate takes the line in, in seconds.
const SECONDS_FOR_CLIENTS: u64 = 30;

/// Linux's number of the error that a descriptor is not open, or is none of the listener's kind.
const BAD_DESCRIPTOR: i32 = 9;

const NOT_A_SOCKET: i32 = 88;

/// A listener at an address of the machine, or at all, that closes after so many accepted links, or never.
#[derive(Drop)]
pub struct TcpDoor<R: Net<Listener = TcpListener, Stream = TcpStream> + Drop> {
    runtime: R,
    host: IpAddr,
    left: Option<u64>,
    /// By how much its clocks are ahead of the machine's.
    ahead: Option<Arc<AtomicU64>>,
    listener: Option<TcpListener>,
    /// What ends the waits of the gates that it has made.
    bells: Vec<Arc<Waker>>,
    bound: Option<u16>,
    faults: u64,
    ends: u64,
}

impl<R: Net<Listener = TcpListener, Stream = TcpStream> + AllocGlobal + Drop> TcpDoor<R> {
    /// A door at all IPv4 addresses of the machine that is not bound yet. With a limit it closes after so many accepted
    /// links.
    pub fn new(runtime: R, limit: Option<u64>) -> Self
        ensures limit { result.left ≡ limit }
        ensures unbound { (result.listener ≡ None) × (result.bound ≡ None) }
        ensures faults { result.faults ≡ 0 }
        ensures ends { result.ends ≡ 0 }
    {
        let bells = Vec::new(runtime.alloc());
        TcpDoor {
            runtime,
            host: IpAddr::V4(Ipv4Addr::UNSPECIFIED),
            left: limit,
            ahead: None,
            listener: None,
            bells,
            bound: None,
            faults: 0,
            ends: 0,
        }
    }

    /// The same door, whose clocks are ahead of the machine's by as much as this is at each look: a hub that goes on from a journal
    /// of before the machine's start begins no earlier than that ended.
    pub fn with_clocks_ahead(self, ahead: Arc<AtomicU64>) -> Self
        ensures { result ≡ record self { ahead = Some ahead } }
    {
        TcpDoor {
            ahead: Some(ahead),
            ..self
        }
    }
}

/// One more that shares this, where there is one. None: there is none, or there was no memory.
fn shared(ahead: &Option<Arc<AtomicU64>>) -> Option<Arc<AtomicU64>> {
    match ahead {
        Some(ahead) => ahead.clone().ok(),
        None => None,
    }
}

/// A listener at the address of the machine, whose calls wait. As many connections as the system allows may wait to be accepted: one
/// that finds no room there is tried again by its client's system after a second.
fn listening<R: Net>(net: &R, at: SocketAddr) -> io::Result<TcpListener> {
    let ready = mio::net::TcpListener::bind(net, at)?;
    let listener = TcpListener::from(ready.as_fd().try_clone_to_owned()?);
    listener.set_nonblocking(false)?;
    Ok(listener)
}

/// What an error of accepting concerns.
#[derive(Clone, Copy)]
enum Concern {
    /// One client, whose connection ended before it was taken.
    Client,
    /// The listener, which takes none any more.
    Listener,
    /// The system, which lacks descriptors or memory now.
    System,
}

fn concern_of(error: &io::Error) -> Concern {
    match error.kind() {
        ErrorKind::ConnectionAborted
        | ErrorKind::ConnectionReset
        | ErrorKind::TimedOut
        | ErrorKind::HostUnreachable
        | ErrorKind::NetworkUnreachable => Concern::Client,
        ErrorKind::InvalidInput | ErrorKind::Unsupported => Concern::Listener,
        _ => match error.raw_os_error() {
            Some(BAD_DESCRIPTOR | NOT_A_SOCKET) => Concern::Listener,
            _ => Concern::System,
        },
    }
}

/// The next connection. It goes on after what concerns one client, and after a pause where the system
/// can't take one for a while, so no client ends it.
fn next_stream<R: time::Clock>(runtime: &R, listener: &TcpListener) -> Option<TcpStream> {
    for _ in 0..u64::MAX {
        match listener.accept() {
            Ok((stream, _)) => return Some(stream),
            Err(error) => match concern_of(&error) {
                Concern::Client => {}
                Concern::System => runtime.sleep(Duration::from_millis(PAUSE_MS)),
                Concern::Listener => return None,
            },
        }
    }
    None
}

/// The line of a client that was accepted: its calls wait, and what is written goes out at once.
fn client_line<R: time::Clock + Drop>(runtime: R, stream: TcpStream) -> TcpLine<R> {
    let limit = Duration::from_secs(SECONDS_FOR_CLIENTS);
    let _ = stream.set_nodelay(true);
    let _ = stream.set_read_timeout(Some(limit));
    let _ = stream.set_write_timeout(Some(limit));
    TcpLine::waiting(runtime, stream)
}

/// A gate and what ends its waits.
fn gate_and_bell<R: Net + time::Clock + Copy + Drop>(
    runtime: R,
    alloc: Global,
) -> io::Result<(TcpGate<R>, Arc<Waker>)> {
    let gate = TcpGate::new(runtime, alloc)?;
    let bell = gate.bell()?;
    Ok((gate, bell))
}

impl<
    R: Net<Listener = TcpListener, Stream = TcpStream>
        + time::Clock
        + AllocGlobal
        + Copy
        + Send
        + Drop,
> Door for TcpDoor<R> {
    type L = TcpLine<R>;

    type N = TcpNodes<R>;

    type C = MachineClock<R>;

    type G = TcpGate<R>;

    ghost view = { λ d. record {
      faults = d.faults;
      ends = d.ends;
      host = Some d.host;
      bound = d.bound;
    } };

    fn listen_at(&mut self, host: IpAddr)
        ensures rest { self.new ≡ record self.old { host = host } }
    {
        self.host = host;
    }

    fn bind(&mut self, port: u16) -> Result<(), Failed>
        ensures cause { HasCause self.old.faults self.new.faults result }
        ensures ends { self.old.ends ≤ self.new.ends }
        ensures bound { OnOk result (self.new.bound ≡ Some port) }
        ensures unbound { OnErr result (self.new.bound ≡ self.old.bound) }
        ensures listens { OnOk result (IsSome self.new.listener) }
        ensures err { OnErr result (self.new.listener ≡ self.old.listener) }
        ensures limit { self.new.left ≡ self.old.left }
        ensures host { Some self.new.host ≡ Some self.old.host }
    {
        match listening(&self.runtime, SocketAddr::new(self.host, port)) {
            Ok(listener) => {
                self.listener = Some(listener);
                self.bound = Some(port);
                Ok(())
            }
            Err(_) => {
                self.faults = self.faults.saturating_add(1);
                Err(Failed)
            }
        }
    }

    /// The link's calls wait until a gate takes it in, each for at most 30 s, so a thread may serve it alone.
    fn accept(&mut self) -> Result<Option<TcpLine<R>>, Failed>
        ensures cause { HasCause self.old.faults self.new.faults result }
        ensures closed { IfOk result (λ link. link ≡ None → Rose self.old.ends self.new.ends) }
        ensures ends { self.old.ends ≤ self.new.ends }
        // It closes exactly after its limit.
        ensures limit { IfOk result (IsCounted self.old.left self.new.left) }
        ensures failed { OnErr result (self.new.left ≡ self.old.left) }
        ensures bound { self.new.bound ≡ self.old.bound }
        ensures host { Some self.new.host ≡ Some self.old.host }
        ensures listens { self.new.listener ≡ self.old.listener }
    {
        // Who waits at a gate may have been handed the link before.
        for bell in &self.bells {
            let _ = bell.wake();
        }
        if self.left == Some(0) {
            self.ends = self.ends.saturating_add(1);
            return Ok(None);
        }
        let taken = match &self.listener {
            Some(listener) => next_stream(&self.runtime, listener),
            None => None,
        };
        match taken {
            Some(stream) => {
                self.left = self.left.map(|left| left.saturating_sub(1));
                Ok(Some(client_line(self.runtime, stream)))
            }
            None => {
                self.faults = self.faults.saturating_add(1);
                Err(Failed)
            }
        }
    }

    fn gate(&mut self) -> Result<TcpGate<R>, Failed>
        ensures cause { HasCause self.old.faults self.new.faults result }
        ensures ends { self.old.ends ≤ self.new.ends }
        ensures bound { self.new.bound ≡ self.old.bound }
        ensures host { Some self.new.host ≡ Some self.old.host }
        ensures limit { self.new.left ≡ self.old.left }
        ensures listens { self.new.listener ≡ self.old.listener }
    {
        if let Ok((gate, bell)) = gate_and_bell(self.runtime, self.runtime.alloc()) {
            if self.bells.push(bell).is_ok() {
                return Ok(gate);
            }
        }
        self.faults = self.faults.saturating_add(1);
        Err(Failed)
    }

    fn nodes(&mut self) -> TcpNodes<R>
        ensures faults { self.old.faults ≤ self.new.faults }
        ensures ends { self.old.ends ≤ self.new.ends }
        ensures bound { self.new.bound ≡ self.old.bound }
        ensures host { Some self.new.host ≡ Some self.old.host }
        ensures limit { self.new.left ≡ self.old.left }
        ensures rest { self.new ≡ self.old }
        ensures fresh { result.faults ≡ 0 }
    {
        TcpNodes::new(self.runtime)
    }

    fn clock(&mut self) -> MachineClock<R>
        ensures faults { self.old.faults ≤ self.new.faults }
        ensures ends { self.old.ends ≤ self.new.ends }
        ensures bound { self.new.bound ≡ self.old.bound }
        ensures host { Some self.new.host ≡ Some self.old.host }
        ensures limit { self.new.left ≡ self.old.left }
        ensures rest { self.new ≡ self.old }
        ensures fresh { result.last ≡ 0 }
    {
        MachineClock::ahead(self.runtime, shared(&self.ahead))
    }
}
