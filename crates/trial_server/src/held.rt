//! Nodes that wait until two starts were asked for. Each wait gives up after ten seconds.
ghost use Rattle.std.specs.Prelude.{◌≡◌, ℕ, ◌-◌, ◌^◌, ◌<◌, ◌≤◌, IfSome, IsTrue, None, length};
ghost use Rattle.grid_outside.specs.Exchanges.{is_within};
ghost use Rattle.grid_outside.specs.Told.{untold};

use grid_outside::{Clock, ExchangeFault, NodeLink, Reply};
use grid_types::{LAST_MOMENT, Moment, NodeAddress};
use http_frames::{LIMITS, NodeRequest, RStep, next_response};
use std::alloc::Global;
use std::sync::atomic::{AtomicU64, Ordering};
use std::thread;
use std::time::Duration;

pub(crate) const NEW_SESSION: &[u8] =
    b"POST /session HTTP/1.1\r\nContent-Length: 57\r\n\r\n{\"capabilities\":{\"alwaysMatch\":{\"browserName\":\"chrome\"}}}";

/// A registration of a node with two slots.
pub(crate) const REGISTRATION: &[u8] =
    b"POST /se/grid/distributor/node HTTP/1.1\r\nContent-Length: 104\r\n\r\n{\"name\":\"n\",\"address\":\"n:1\",\"maxSessions\":2,\"slots\":[{\"stereotype\":{\"browserName\":\"chrome\"},\"count\":2}]}";

pub(crate) const FIRST_SESSION: &[u8] =
    b"HTTP/1.1 200 OK\r\nContent-Length: 102\r\n\r\n{\"value\":{\"sessionId\":\"00000000-0000-0000-0000-000000000001\",\"capabilities\":{\"browserName\":\"chrome\"}}}";

pub(crate) const SECOND_SESSION: &[u8] =
    b"HTTP/1.1 200 OK\r\nContent-Length: 102\r\n\r\n{\"value\":{\"sessionId\":\"00000000-0000-0000-0000-000000000002\",\"capabilities\":{\"browserName\":\"chrome\"}}}";

/// What the parts tell one another.
#[derive(Drop)]
pub(crate) struct Shared {
    /// The time of gates and clocks, in milliseconds.
    pub(crate) time: AtomicU64,
    /// How many requests links have given.
    pub(crate) given: AtomicU64,
    /// How many of these before a wait began.
    pub(crate) paused: AtomicU64,
    /// How many workers and lines to nodes have asked for starts.
    pub(crate) starters: AtomicU64,
    /// How many responses with status 200 a node's or an asker's link has taken.
    pub(crate) registered: AtomicU64,
    /// And those of clients.
    pub(crate) created: AtomicU64,
    /// How many starts each of the first two of them has asked a node for.
    pub(crate) first_starts: AtomicU64,
    pub(crate) second_starts: AtomicU64,
    /// And all.
    pub(crate) starts: AtomicU64,
}

impl Shared {
    pub(crate) fn new() -> Shared {
        Shared {
            time: AtomicU64::new(0),
            given: AtomicU64::new(0),
            paused: AtomicU64::new(0),
            starters: AtomicU64::new(0),
            registered: AtomicU64::new(0),
            created: AtomicU64::new(0),
            first_starts: AtomicU64::new(0),
            second_starts: AtomicU64::new(0),
            starts: AtomicU64::new(0),
        }
    }
}

/// Whether the number is reached within 10,000 looks of 1 ms.
fn reaches(rt: &HostRuntime, number: &AtomicU64, wanted: u64) -> bool {
    for _ in 0..10_000 {
        if number.load(Ordering::SeqCst) >= wanted {
            return true;
        }
        thread::sleep(rt, Duration::from_millis(1));
    }
    false
}

/// Whose link it is.
#[derive(Clone, Copy, Debug, PartialEq, Eq)]
pub(crate) enum Role {
    /// It asks for a session.
    Client,
    /// It registers a node with two slots, once two clients wait.
    Node,
    /// It registers such a node, which is silent then, and asks for the status, each time 100 ms later, until that tells of no node.
    Asker,
}

/// A clock whose moment rises by its pauses alone, each of which takes 1 ms.
#[derive(Drop)]
pub(crate) struct HeldClock {
    rt: HostRuntime,
    last: u64,
    ghost bound: { last < 2 ^ 62 },
}

impl HeldClock {
    pub(crate) fn new(rt: HostRuntime) -> HeldClock {
        HeldClock { rt, last: 0 }
    }
}

impl Clock for HeldClock {
    ghost view = { λ c. untold c.last };

    ghost gives = { λ old tick at new. Unit {0} };

    fn now(&mut self) -> Moment {
        Moment(self.last)
    }

    fn pause(&mut self, ms: u64) -> Moment {
        thread::sleep(&self.rt, Duration::from_millis(1));
        self.last = self.last.saturating_add(ms).min(LAST_MOMENT);
        Moment(self.last)
    }
}

/// Whether the request asks for a session.
pub(crate) fn is_start(request: &NodeRequest<'_>) -> bool {
    request.method == b"POST".as_slice() && request.target == b"/session".as_slice()
}

/// The session for the starts of one that has not asked for one before, which counts.
fn next_session(shared: &Shared) -> &'static [u8] {
    if shared.starters.fetch_add(1, Ordering::SeqCst) == 0 {
        FIRST_SESSION
    } else {
        SECOND_SESSION
    }
}

/// Counts a start, of one that got this session at an earlier one, if any. The session that it gets.
pub(crate) fn count_start(shared: &Shared, earlier: Option<&'static [u8]>) -> &'static [u8] {
    let session = match earlier {
        Some(session) => session,
        None => next_session(shared),
    };
    let asked = if session == FIRST_SESSION {
        &shared.first_starts
    } else {
        &shared.second_starts
    };
    asked.fetch_add(1, Ordering::SeqCst);
    shared.starts.fetch_add(1, Ordering::SeqCst);
    session
}

/// Answers a start once two were asked for, by whomever; all else is unreachable.
#[derive(Drop)]
pub(crate) struct HeldNodes<'a> {
    rt: HostRuntime,
    shared: &'a Shared,
    /// The session that its starts get, once it was asked for one.
    session: Option<&'static [u8]>,
    faults: u64,
}

impl<'a> HeldNodes<'a> {
    pub(crate) fn new(rt: HostRuntime, shared: &'a Shared) -> HeldNodes<'a> {
        HeldNodes {
            rt,
            shared,
            session: None,
            faults: 0,
        }
    }
}

pub(crate) fn reply_of(alloc: Global, bytes: &[u8]) -> Option<Reply>
    ensures { IfSome result (λ reply. IsTrue (is_within reply)) }
{
    match next_response(alloc, bytes, true, LIMITS) {
        Ok(RStep::Whole(reply, _)) => Some(Reply::Http(reply)),
        _ => None,
    }
}

impl<'a> NodeLink for HeldNodes<'a> {
    ghost faults = { λ n. n.faults };

    ghost gives = { λ old address ask came new. Unit {0} };

    fn exchange(
        &mut self,
        alloc: Global,
        _address: &NodeAddress,
        request: &NodeRequest<'_>,
    ) -> Result<Reply, ExchangeFault> {
        if is_start(request) {
            let session = count_start(self.shared, self.session);
            self.session = Some(session);
            if reaches(&self.rt, &self.shared.starts, 2) {
                return match reply_of(alloc, session) {
                    Some(reply) => Ok(reply),
                    None => Err(ExchangeFault::Memory),
                };
            }
        }
        self.faults = self.faults.saturating_add(1);
        Err(ExchangeFault::Unreachable)
    }
}

/// Puts the bytes at the front, and answers how many; 0 where they have no room.
pub(crate) fn give(bytes: &[u8], into: &mut [u8]) -> usize
    ensures { result ≤ length into.old }
{
    if into.len() < bytes.len() {
        return 0;
    }
    into[..bytes.len()].copy_from_slice(bytes);
    bytes.len()
}
