//! What many connections over TCP are waited for by.
ghost use Rattle.std.specs.Prelude.{◌≡◌, ℕ, List, ◌++◌, None, IfOk, vec_capacity};

use crate::exchanges::TcpNodeLine;
use crate::holding::{Dues, dues, name_due};
use crate::late::{LATE, Lates, lates, sweep_late};
use crate::lines::TcpLine;
use crate::machine::{MachineClock, shown};
use crate::parting::{Partings, partings, sweep};
use crate::spares::{Spares, spares, sweep_spares};
use grid_outside::{Failed, Gate};
use mio::{Events, Poll, Registry, Token, Waker};
use std::alloc::Global;
use std::net::Net;
use std::sync::Arc;
use std::time::Duration;
use std::{io, time};

/// The most places that one question to the system gives.
const EVENTS: usize = 1_024;

/// The longest wait, in milliseconds.
const LONGEST_WAIT_MS: u64 = 3_600_000;

/// How often connections that part are read on, in milliseconds.
const SWEEP_MS: u64 = 10;

/// How often starts that were given up are read on, in milliseconds.
const SWEEP_LATE_MS: u64 = 200;

/// How often it is seen which kept connections are to be closed, in milliseconds.
const SWEEP_SPARES_MS: u64 = 100;

/// The place of the bell, at which no seat stands.
const BELL: usize = usize::MAX;

/// The queue of the system in which each connection is once something can be read from it or written to it.
#[derive(Drop)]
pub struct TcpGate<R: Net + time::Clock + Copy + Drop> {
    runtime: R,
    alloc: Global,
    poll: Poll,
    registry: Arc<Registry>,
    bell: Arc<Waker>,
    events: Events,
    named: Vec<usize>,
    partings: Partings,
    swept: u64,
    lates: Lates,
    swept_late: u64,
    spares: Spares,
    swept_spares: u64,
    dues: Dues,
}

impl<R: Net + time::Clock + Copy + Drop> TcpGate<R> {
    /// Without a connection. Err: the system has no room for it, or out of memory.
    pub fn new(runtime: R, alloc: Global) -> io::Result<Self> {
        let poll = Poll::new(&runtime)?;
        let registry = poll.registry().try_clone()?;
        let bell = Waker::new(&registry, Token(BELL))?;
        Ok(TcpGate {
            runtime,
            alloc,
            poll,
            registry: Arc::new(alloc, registry)?,
            bell: Arc::new(alloc, bell)?,
            events: Events::with_capacity(alloc, EVENTS)?,
            named: Vec::with_capacity(alloc, EVENTS)?,
            partings: partings(alloc)?,
            swept: 0,
            lates: lates(alloc)?,
            swept_late: 0,
            spares: spares(alloc)?,
            swept_spares: 0,
            dues: dues(alloc)?,
        })
    }

    /// What ends a wait, from another thread.
    pub(crate) fn bell(&self) -> io::Result<Arc<Waker>> {
        Ok(self.bell.clone()?)
    }

    /// Reads connections on that part, and says whether any is left.
    fn parts(&mut self, now: u64) -> bool {
        if now < self.swept.saturating_add(SWEEP_MS) {
            return true;
        }
        self.swept = now;
        sweep(&self.partings, now)
    }

    /// Reads starts on that were given up, and says whether any is left.
    fn is_late(&mut self, now: u64) -> bool {
        if now < self.swept_late.saturating_add(SWEEP_LATE_MS) {
            return true;
        }
        self.swept_late = now;
        sweep_late(&self.lates, &self.runtime, &self.registry, self.alloc)
    }

    /// Closes kept connections whose time is over, and says whether any is left.
    fn keeps(&mut self, now: u64) -> bool {
        if now < self.swept_spares.saturating_add(SWEEP_SPARES_MS) {
            return true;
        }
        self.swept_spares = now;
        sweep_spares(&self.spares, now)
    }

    /// How long the system may be asked, in milliseconds: until something is to be seen to.
    fn longest_wait(&mut self) -> u64 {
        let now = shown(&self.runtime);
        let parts = self.parts(now);
        let is_late = self.is_late(now);
        let keeps = self.keeps(now);
        let holds = name_due(&self.dues, now, &mut self.named);
        if parts || holds {
            SWEEP_MS
        } else if keeps {
            SWEEP_SPARES_MS
        } else if is_late {
            SWEEP_LATE_MS
        } else {
            LONGEST_WAIT_MS
        }
    }

    /// Asks the system which places may go on, for so long.
    fn ask_system(&mut self, ms: u64) {
        let _ = self
            .poll
            .poll(&mut self.events, Some(Duration::from_millis(ms)));
        name_all(&self.events, &mut self.named);
    }
}

/// Names the places of the events, but for those at which no seat stands.
fn name_all(events: &Events, named: &mut Vec<usize>) {
    for event in events.iter() {
        let place = event.token().0;
        if place != BELL && place != LATE && named.len() < named.capacity() {
            named.push_reserved(place);
        }
    }
}

/// Hands over as many places as there is room for.
fn hand_over(named: &mut Vec<usize>, ready: &mut Vec<usize>)
    ensures behind { (places : List ℕ) × (ready.new.items ≡ ready.old.items ++ places) }
    ensures room { vec_capacity ready.new ≡ vec_capacity ready.old }
{
    for _ in 0..named.len() {
        if ready.len() == ready.capacity() {
            return;
        }
        if let Some(place) = named.pop() {
            ready.push_reserved(place);
        }
    }
}

impl<R: Net + time::Clock + Copy + Send + Drop> Gate for TcpGate<R> {
    type L = TcpLine<R>;

    type N = TcpNodeLine<R>;

    type C = MachineClock<R>;

    fn wait(&mut self, ms: u64, ready: &mut Vec<usize>) {
        let longest = self.longest_wait();
        if self.named.is_empty() {
            self.ask_system(ms.min(longest));
        }
        hand_over(&mut self.named, ready);
    }

    fn admit(
        &mut self,
        place: usize,
        link: TcpLine<R>,
    ) -> Result<(TcpLine<R>, TcpNodeLine<R>), Failed> {
        match link.taken_in(
            &self.registry,
            Token(place),
            self.partings.clone().ok(),
            self.dues.clone().ok(),
        ) {
            Ok(link) => Ok((link, self.nodes(place))),
            Err(_) => Err(Failed),
        }
    }

    fn nodes(&mut self, place: usize) -> TcpNodeLine<R> {
        TcpNodeLine::new(
            self.runtime,
            self.registry.clone().ok(),
            Token(place),
            self.lates.clone().ok(),
            self.spares.clone().ok(),
        )
    }
}
