//! Nodes over TCP, of which no call waits.
ghost use Rattle.std.specs.Prelude.{◌≡◌, ℕ, ◌≤◌, IfOk, IfSome, IsTrue};
ghost use Rattle.grid_outside.specs.Exchanges.{is_within};

use crate::connections::{Stop, fault_of};
use crate::late::{Lates, keep_late};
use crate::machine::shown;
use crate::spares::{Spares, keep};
use crate::under_way::UnderWay;
use crate::ways::Seen;
use grid_outside::{ExchangeFault, NodeLine, Reply};
use grid_types::NodeAddress;
use http_frames::NodeRequest;
use mio::{Registry, Token};
use std::alloc::Global;
use std::net::Net;
use std::sync::Arc;
use std::time;

/// Reaches nodes at `host:port`, and no call waits. A start has a connection of its own; any other exchange may go over one that an
/// exchange left open, and else has its own. The host may be a name: such an address is looked up where a connection is begun, and
/// that call may wait, while one of digits never does.
#[derive(Drop)]
pub struct TcpNodeLine<R: Net + time::Clock + Drop> {
    runtime: R,
    registry: Option<Arc<Registry>>,
    token: Token,
    under: Option<Result<UnderWay, Stop>>,
    /// How long the next exchange may take, in milliseconds.
    allowed: u64,
    /// Starts that were given up; None where there is no memory for their list.
    lates: Option<Lates>,
    /// Connections that exchanges left open; None where there is no memory for their list.
    spares: Option<Spares>,
    faults: u64,
}

impl<R: Net + time::Clock + Drop> TcpNodeLine<R> {
    /// No exchange is under way. The streams of its exchanges are told of under the token; without a registry there is no
    /// memory for any. Starts that it gives up go to the one list, connections that it leaves open to the other.
    pub(crate) fn new(
        runtime: R,
        registry: Option<Arc<Registry>>,
        token: Token,
        lates: Option<Lates>,
        spares: Option<Spares>,
    ) -> Self
        ensures idle { result.under ≡ None }
        ensures faults { result.faults ≡ 0 }
    {
        TcpNodeLine {
            runtime,
            registry,
            token,
            under: None,
            allowed: u64::MAX,
            lates,
            spares,
            faults: 0,
        }
    }

    /// Goes on with the exchange: what came of it, or how it stands.
    fn go_on(&self, alloc: Global, mut under: UnderWay) -> Result<Result<Reply, UnderWay>, Stop>
        ensures { IfOk result (λ came. IfOk came (λ reply. IsTrue (is_within reply))) }
    {
        let Some(registry) = &self.registry else {
            return Err(Stop::Memory);
        };
        let seen = Seen {
            registry,
            token: self.token,
        };
        match under.advance(&self.runtime, seen, alloc) {
            Ok(Some(reply)) => {
                self.let_go(seen, under);
                Ok(Ok(reply))
            }
            Ok(None) => Ok(Err(under)),
            Err(stop) => {
                self.give_up(registry, under);
                Err(stop)
            }
        }
    }

    /// Lets go of an exchange that is over, and keeps its connection where it left it open.
    fn let_go(&self, seen: Seen<'_>, under: UnderWay) {
        if let Some(spares) = &self.spares {
            if let Some(spare) = under.into_spare(seen, shown(&self.runtime)) {
                keep(spares, spare);
            }
        }
    }

    /// Lets go of the exchange, or of a start that its node may still make puts it into the list.
    fn give_up(&self, registry: &Registry, under: UnderWay) {
        if let Some(lates) = &self.lates {
            if under.is_late_start(shown(&self.runtime)) {
                keep_late(registry, lates, under);
            }
        }
    }
}

impl<R: Net + time::Clock + Drop> NodeLine for TcpNodeLine<R> {
    ghost use Rattle.std.specs.Prelude.{List, Option, None, Some};
    ghost use Rattle.grid_outside.specs.declared.exchange.Ask.{Ask};
    ghost use Rattle.grid_sockets.specs.Asking.{Asks, one_at_most};

    ghost State = { ℕ };

    ghost state = { λ n. n.faults };

    ghost faults = { λ count. count };

    ghost gives = { λ old address ask came new. Unit {0} };

    ghost asks = { λ n. Asks n.under };

    ghost one = { λ n. one_at_most n.under };

    fn allow(&mut self, ms: u64) {
        self.allowed = ms;
    }

    fn ask(&mut self, alloc: Global, address: &NodeAddress, request: &NodeRequest<'_>) {
        let allowed = self.allowed;
        self.allowed = u64::MAX;
        self.under = Some(match &self.registry {
            Some(registry) => {
                let seen = Seen {
                    registry,
                    token: self.token,
                };
                UnderWay::begin(
                    &self.runtime,
                    seen,
                    alloc,
                    address,
                    request,
                    allowed,
                    self.spares.as_ref(),
                )
            }
            None => Err(Stop::Memory),
        });
    }

    fn came(&mut self, alloc: Global) -> Option<Result<Reply, ExchangeFault>> {
        let went = match self.under.take()? {
            Ok(under) => self.go_on(alloc, under),
            Err(stop) => Err(stop),
        };
        match went {
            Ok(Ok(reply)) => Some(Ok(reply)),
            Ok(Err(under)) => {
                self.under = Some(Ok(under));
                None
            }
            Err(stop) => Some(Err(fault_of(stop, &mut self.faults))),
        }
    }
}
