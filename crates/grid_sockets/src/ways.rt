//! What an exchange with a node goes over.
use crate::connections::Stop;
use crate::spares::{Spares, take};
use grid_types::NodeAddress;
use mio::net::TcpStream;
use mio::{Interest, Registry, Token};
use std::alloc::Global;
use std::net::{Net, SocketAddr, ToSocketAddrs};

/// Where the readiness of a node's stream is told.
#[derive(Clone, Copy)]
pub(crate) struct Seen<'a> {
    pub(crate) registry: &'a Registry,
    pub(crate) token: Token,
}

/// The interest of a stream that is read and written.
pub(crate) fn both() -> Interest {
    Interest::READABLE | Interest::WRITABLE
}

/// Where a node is tried, in order, and how many of these were.
#[derive(Drop)]
struct Places {
    all: Vec<SocketAddr>,
    tried: usize,
}

impl Places {
    /// None yet.
    fn none(alloc: Global) -> Places {
        Places {
            all: Vec::new(alloc),
            tried: 0,
        }
    }

    /// All places of the address. One of digits is at hand; a name is looked up, and that may wait.
    fn of<R: Net>(net: &R, alloc: Global, address: &NodeAddress) -> Result<Places, Stop> {
        let Ok(text) = str::from_utf8(address.as_bytes()) else {
            return Err(Stop::Failed);
        };
        let mut all = Vec::new(alloc);
        for place in text.to_socket_addrs(net)? {
            if all.push(place).is_err() {
                return Err(Stop::Memory);
            }
        }
        Ok(Places { all, tried: 0 })
    }

    /// A stream to the next place that can be tried.
    fn next_stream<R: Net>(&mut self, net: &R, seen: Seen<'_>) -> Result<TcpStream, Stop> {
        for _ in 0..self.all.len() {
            let Some(place) = self.all.get(self.tried) else {
                return Err(Stop::Failed);
            };
            let connected = TcpStream::connect(net, *place);
            self.tried = self.tried.saturating_add(1);
            if let Ok(mut stream) = connected {
                let _ = stream.set_nodelay(true);
                seen.registry.register(&mut stream, seen.token, both())?;
                return Ok(stream);
            }
        }
        Err(Stop::Failed)
    }
}

/// A stream to a node, and where else the node may be reached.
#[derive(Drop)]
pub(crate) struct Way {
    pub(crate) stream: TcpStream,
    /// Whether other requests went over it before.
    is_spare: bool,
    places: Places,
}

impl Way {
    /// A connection of its own, which is on its way.
    pub(crate) fn own<R: Net>(
        net: &R,
        seen: Seen<'_>,
        alloc: Global,
        address: &NodeAddress,
    ) -> Result<Way, Stop> {
        let mut places = Places::of(net, alloc, address)?;
        let stream = places.next_stream(net, seen)?;
        Ok(Way {
            stream,
            is_spare: false,
            places,
        })
    }

    /// A connection that lies there for the node, or else one of its own.
    pub(crate) fn spare_or_own<R: Net>(
        net: &R,
        seen: Seen<'_>,
        alloc: Global,
        address: &NodeAddress,
        spares: &Spares,
        now: u64,
    ) -> Result<Way, Stop> {
        match take(spares, seen, address, now) {
            Some(stream) => Ok(Way {
                stream,
                is_spare: true,
                places: Places::none(alloc),
            }),
            None => Way::own(net, seen, alloc, address),
        }
    }

    /// Whether other requests went over it before.
    pub(crate) fn is_spare(&self) -> bool {
        self.is_spare
    }

    /// The next way: behind a spare connection one of its own, else one to the next place.
    pub(crate) fn next<R: Net>(
        &mut self,
        net: &R,
        seen: Seen<'_>,
        alloc: Global,
        address: &NodeAddress,
    ) -> Result<(), Stop> {
        if self.is_spare {
            self.places = Places::of(net, alloc, address)?;
            self.is_spare = false;
        }
        self.stream = self.places.next_stream(net, seen)?;
        Ok(())
    }

    /// The stream alone.
    pub(crate) fn into_stream(self) -> TcpStream {
        let Way {
            stream,
            is_spare: _,
            places: _,
        } = self;
        stream
    }
}
