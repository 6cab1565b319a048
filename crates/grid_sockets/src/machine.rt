//! The clock of the machine.
ghost use Rattle.std.specs.Prelude.{◌≡◌, ℕ, ◌-◌, ◌^◌, ◌<◌, ◌≤◌, min};
ghost use Rattle.grid_outside.specs.Told.{later_by, untold};

use grid_outside::Clock;
use grid_types::{LAST_MOMENT, Moment};
use std::sync::Arc;
use std::sync::atomic::{AtomicU64, Ordering};
use std::time;
use std::time::Duration;

/// The machine's clock, in milliseconds since its start, so all such clocks of one machine agree. It
/// tells no pauses. One may be ahead of that, by milliseconds that others share with it.
#[derive(Drop)]
pub struct MachineClock<R: time::Clock + Drop> {
    runtime: R,
    last: u64,
    ahead: Option<Arc<AtomicU64>>,
    ghost bound: { last < 2 ^ 62 },
}

/// What the machine's clock shows, in milliseconds, or 0 where it can't be read.
pub(crate) fn shown<R: time::Clock>(runtime: &R) -> u64
    ensures { result < 2 ^ 62 }
{
    match runtime.monotonic() {
        Ok(since) => u64::try_from(since.as_millis())
            .unwrap_or(LAST_MOMENT)
            .min(LAST_MOMENT),
        Err(_) => 0,
    }
}

impl<R: time::Clock + Drop> MachineClock<R> {
    /// A clock that asks this runtime, and has shown nothing yet.
    pub fn new(runtime: R) -> Self
        ensures { result.last ≡ 0 }
    {
        MachineClock {
            runtime,
            last: 0,
            ahead: None,
        }
    }

    /// The same, ahead of the machine's clock by as much as this is at each look.
    pub fn ahead(runtime: R, ahead: Option<Arc<AtomicU64>>) -> Self
        ensures { result.last ≡ 0 }
    {
        MachineClock {
            runtime,
            last: 0,
            ahead,
        }
    }

    /// By how much it is ahead.
    fn by(&self) -> u64 {
        match &self.ahead {
            Some(ahead) => ahead.load(Ordering::SeqCst),
            None => 0,
        }
    }

    /// What it shows now, which the machine's clock that can't be read shows as 0.
    fn shown(&self) -> u64
        ensures { result < 2 ^ 62 }
    {
        shown(&self.runtime)
            .saturating_add(self.by())
            .min(LAST_MOMENT)
    }
}

impl<R: time::Clock + Drop> Clock for MachineClock<R> {
    ghost view = { λ c. untold c.last };

    ghost gives = { λ old tick at new. Unit {0} };

    fn now(&mut self) -> Moment {
        self.last = self.shown().max(self.last);
        Moment(self.last)
    }

    fn pause(&mut self, ms: u64) -> Moment {
        let least = self.last.saturating_add(ms).min(LAST_MOMENT);
        self.runtime.sleep(Duration::from_millis(ms));
        self.last = self.shown().max(least);
        Moment(self.last)
    }
}
