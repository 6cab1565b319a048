//! What the doors of these trials wait by: gates and clocks that share one time, which goes on by their waits alone.
ghost use Rattle.std.specs.Prelude.{◌≡◌, ℕ, ◌^◌, ◌<◌, ◌≤◌, IfSome, IsTrue, List, ◌++◌, None, vec_capacity};
ghost use Rattle.grid_outside.specs.Told.{untold};

use crate::held::{Shared, count_start, is_start, reply_of};
use grid_outside::{Clock, ExchangeFault, NodeLine, Reply};
use grid_types::{LAST_MOMENT, Moment, NodeAddress};
use http_frames::NodeRequest;
use std::alloc::Global;
use std::sync::atomic::{AtomicU64, Ordering};
use std::thread;
use std::time::Duration;

/// How often a start looks for another before it gives up.
const LOOKS: u32 = 10_000;

/// Lets 1 ms pass, and as many as these of the shared time.
pub(crate) fn pass_time(rt: &HostRuntime, time: &AtomicU64, ms: u64) {
    thread::sleep(rt, Duration::from_millis(1));
    time.fetch_add(ms.min(1_000), Ordering::SeqCst);
}

/// Names the places up to a number, as far as there is room.
pub(crate) fn name_places(places: usize, ready: &mut Vec<usize>)
    ensures behind { (named : List ℕ) × (ready.new.items ≡ ready.old.items ++ named) }
    ensures room { vec_capacity ready.new ≡ vec_capacity ready.old }
{
    for place in 0..places {
        if ready.len() == ready.capacity() {
            return;
        }
        ready.push_reserved(place);
    }
}

/// A clock that shows the shared time. Each request that was given before a pause counts as one of a client that waits.
#[derive(Drop)]
pub(crate) struct SharedClock<'a> {
    rt: HostRuntime,
    shared: &'a Shared,
    last: u64,
    ghost bound: { last < 2 ^ 62 },
}

impl<'a> SharedClock<'a> {
    pub(crate) fn new(rt: HostRuntime, shared: &'a Shared) -> SharedClock<'a> {
        SharedClock {
            rt,
            shared,
            last: 0,
        }
    }
}

impl<'a> Clock for SharedClock<'a> {
    ghost view = { λ c. untold c.last };

    ghost gives = { λ old tick at new. Unit {0} };

    fn now(&mut self) -> Moment {
        let shown = self.shared.time.load(Ordering::SeqCst).min(LAST_MOMENT);
        self.last = shown.max(self.last);
        Moment(self.last)
    }

    fn pause(&mut self, ms: u64) -> Moment {
        let given = self.shared.given.load(Ordering::SeqCst);
        pass_time(&self.rt, &self.shared.time, ms);
        self.shared.paused.fetch_max(given, Ordering::SeqCst);
        self.last = self.last.saturating_add(ms).min(LAST_MOMENT);
        Moment(self.last)
    }
}

/// Answers a start once two were asked for, by whatever lines; all else is unreachable. No call waits.
#[derive(Drop)]
pub(crate) struct HeldNodeLine<'a> {
    shared: &'a Shared,
    /// Whether what is under way is a start.
    under: Option<bool>,
    /// The session that its starts get, once it was asked for one.
    session: Option<&'static [u8]>,
    looks: u32,
    faults: u64,
}

impl<'a> HeldNodeLine<'a> {
    pub(crate) fn new(shared: &'a Shared) -> HeldNodeLine<'a>
        ensures idle { result.under ≡ None }
    {
        HeldNodeLine {
            shared,
            under: None,
            session: None,
            looks: 0,
            faults: 0,
        }
    }
}

impl<'a> NodeLine for HeldNodeLine<'a> {
    ghost use Rattle.grid_sockets.specs.Asking.{Asks, one_at_most};

    ghost State = { ℕ };

    ghost state = { λ n. n.faults };

    ghost faults = { λ count. count };

    ghost gives = { λ old address ask came new. Unit {0} };

    ghost asks = { λ n. Asks n.under };

    ghost one = { λ n. one_at_most n.under };

    fn allow(&mut self, _ms: u64) {}

    fn ask(&mut self, _alloc: Global, _address: &NodeAddress, request: &NodeRequest<'_>) {
        let starts = is_start(request);
        if starts {
            self.session = Some(count_start(self.shared, self.session));
        }
        self.looks = 0;
        self.under = Some(starts);
    }

    fn came(&mut self, alloc: Global) -> Option<Result<Reply, ExchangeFault>> {
        let starts = self.under?;
        let both = self.shared.starts.load(Ordering::SeqCst) >= 2;
        if starts && !both && self.looks < LOOKS {
            self.looks = self.looks.saturating_add(1);
            return None;
        }
        self.under = None;
        if let (true, true, Some(session)) = (starts, both, self.session) {
            return match reply_of(alloc, session) {
                Some(reply) => Some(Ok(reply)),
                None => Some(Err(ExchangeFault::Memory)),
            };
        }
        self.faults = self.faults.saturating_add(1);
        Some(Err(ExchangeFault::Unreachable))
    }
}
