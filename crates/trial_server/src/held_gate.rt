//! A door whose links and nodes wait for one another, so that a hub that does one thing after the other does not end
//! well with it.
ghost use Rattle.std.specs.Prelude.{◌≡◌, ℕ, ◌<◌, ◌≤◌, List, ◌++◌, None, Some, IfOk, length, vec_capacity};
ghost use Rattle.grid_outside.specs.Told.{counting};

use crate::gates::{HeldNodeLine, SharedClock, name_places, pass_time};
use crate::held::{HeldNodes, NEW_SESSION, REGISTRATION, Role, Shared, give};
use grid_outside::{Door, Failed, Gate, Line, Reading, Writing};
use std::net::IpAddr;
use std::sync::atomic::Ordering;
use std::thread;
use std::time::Duration;

const STATUS: &[u8] = b"GET /status HTTP/1.1\r\n\r\n";

const NO_NODE: &[u8] = b"\"nodes\":[]";

/// More than any asker asks for.
const MOST: u32 = 10_000;

/// What a link does next.
enum Next {
    Gives(&'static [u8]),
    Waits,
    Ends,
}

/// Gives one request and ends; an asker's gives more.
#[derive(Drop)]
pub(crate) struct HeldLine<'a> {
    rt: HostRuntime,
    shared: &'a Shared,
    role: Role,
    /// How many requests it gave.
    given: u32,
    /// The last response told of no node.
    is_empty: bool,
    ends: u64,
}

impl<'a> HeldLine<'a> {
    fn next(&self) -> Next {
        match self.role {
            Role::Asker if self.given == 0 => Next::Gives(REGISTRATION),
            Role::Asker if self.is_empty || self.given > MOST => Next::Ends,
            Role::Asker => {
                pass_time(&self.rt, &self.shared.time, 100);
                Next::Gives(STATUS)
            }
            _ if self.given > 0 => Next::Ends,
            Role::Client => Next::Gives(NEW_SESSION),
            Role::Node if self.shared.paused.load(Ordering::SeqCst) < 2 => Next::Waits,
            Role::Node => Next::Gives(REGISTRATION),
        }
    }
}

impl<'a> Line for HeldLine<'a> {
    ghost view = { λ l. counting 0 0 l.ends };

    fn read(&mut self, into: &mut [u8]) -> Reading {
        let count = match self.next() {
            Next::Gives(request) => give(request, into),
            Next::Waits => {
                thread::sleep(&self.rt, Duration::from_millis(1));
                return Reading::NotNow;
            }
            Next::Ends => 0,
        };
        if count > 0 {
            self.given = self.given.saturating_add(1);
            self.shared.given.fetch_add(1, Ordering::SeqCst);
            return Reading::Bytes(count);
        }
        self.ends = self.ends.saturating_add(1);
        Reading::End
    }

    fn write(&mut self, from: &[u8]) -> Writing {
        if from.starts_with(b"HTTP/1.1 200") {
            let taken = match self.role {
                Role::Client => &self.shared.created,
                _ => &self.shared.registered,
            };
            taken.fetch_add(1, Ordering::SeqCst);
        }
        self.is_empty = from.windows(NO_NODE.len()).any(|part| part == NO_NODE);
        Writing::Bytes(from.len())
    }

    fn gone(&mut self) -> bool {
        false
    }
}

/// A wait takes 1 ms. Each request that was given before counts as one of a client that waits.
#[derive(Drop)]
pub(crate) struct HeldGate<'a> {
    rt: HostRuntime,
    shared: &'a Shared,
    places: usize,
}

impl<'a> Gate for HeldGate<'a> {
    type L = HeldLine<'a>;

    type N = HeldNodeLine<'a>;

    type C = SharedClock<'a>;

    fn wait(&mut self, ms: u64, ready: &mut Vec<usize>) {
        let given = self.shared.given.load(Ordering::SeqCst);
        pass_time(&self.rt, &self.shared.time, ms);
        self.shared.paused.fetch_max(given, Ordering::SeqCst);
        name_places(self.places, ready);
    }

    fn admit(
        &mut self,
        place: usize,
        link: HeldLine<'a>,
    ) -> Result<(HeldLine<'a>, HeldNodeLine<'a>), Failed> {
        self.places = self.places.max(place.saturating_add(1));
        Ok((link, HeldNodeLine::new(self.shared)))
    }

    fn nodes(&mut self, place: usize) -> HeldNodeLine<'a> {
        self.places = self.places.max(place.saturating_add(1));
        HeldNodeLine::new(self.shared)
    }
}

/// Hands out the links of these, and is closed then. The time of its clocks goes on by waits alone.
#[derive(Drop)]
pub(crate) struct HeldDoor<'a> {
    rt: HostRuntime,
    shared: &'a Shared,
    roles: &'static [Role],
    links: usize,
    host: Option<IpAddr>,
    bound: Option<u16>,
    ends: u64,
}

impl<'a> HeldDoor<'a> {
    pub(crate) fn new(rt: HostRuntime, shared: &'a Shared, roles: &'static [Role]) -> HeldDoor<'a> {
        HeldDoor {
            rt,
            shared,
            roles,
            links: 0,
            host: None,
            bound: None,
            ends: 0,
        }
    }
}

impl<'a> Door for HeldDoor<'a> {
    type L = HeldLine<'a>;

    type N = HeldNodes<'a>;

    type C = SharedClock<'a>;

    type G = HeldGate<'a>;

    ghost view = { λ d. record { faults = 0; ends = d.ends; host = d.host; bound = d.bound } };

    fn listen_at(&mut self, host: IpAddr) {
        self.host = Some(host);
    }

    fn bind(&mut self, port: u16) -> Result<(), Failed> {
        self.bound = Some(port);
        Ok(())
    }

    fn accept(&mut self) -> Result<Option<HeldLine<'a>>, Failed> {
        let Some(role) = self.roles.get(self.links) else {
            self.ends = self.ends.saturating_add(1);
            return Ok(None);
        };
        self.links = self.links.saturating_add(1);
        Ok(Some(HeldLine {
            rt: self.rt,
            shared: self.shared,
            role: *role,
            given: 0,
            is_empty: false,
            ends: 0,
        }))
    }

    fn gate(&mut self) -> Result<HeldGate<'a>, Failed> {
        Ok(HeldGate {
            rt: self.rt,
            shared: self.shared,
            places: 0,
        })
    }

    fn nodes(&mut self) -> HeldNodes<'a> {
        HeldNodes::new(self.rt, self.shared)
    }

    fn clock(&mut self) -> SharedClock<'a> {
        SharedClock::new(self.rt, self.shared)
    }
}
