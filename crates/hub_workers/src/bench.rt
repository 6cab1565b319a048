//! What a worker or a ticker works with that shares its thread with others.
ghost use Rattle.std.specs.Prelude.{◌≡◌, ◌<◌, IfNone, IfSome};
ghost use Rattle.grid_outside.specs.Told.{later_by, untold};
ghost use Rattle.hub_workers.specs.SharedClock.{Asked, Remembers, SharedTells};
ghost use Rattle.node_client.specs.ClockSteps.{PausesFor, Ticks};

use grid_outside::Clock;
use grid_types::{LAST_MOMENT, Moment};
use hub_cell::Pass;
use std::snapshot::Snapshot;

/// A pass, what reaches its nodes, and the moment that it was told last by a clock that others ask too.
#[derive(Drop)]
pub struct Bench<N: Drop, C> {
    pub pass: Pass,
    pub nodes: N,
    pub moment: u64,
    /// The clock as it was when it told that moment, which no code can read.
    pub last: Snapshot<C>,
}

/// When a pause is over that began at the moment.
fn due_of(moment: u64, ms: u64) -> u64
    ensures { result ≡ later_by moment ms }
{
    moment.saturating_add(ms).min(LAST_MOMENT)
}

impl<N: Drop, C: Clock> Bench<N, C> {
    pub fn new(pass: Pass, nodes: N, clock: &mut C) -> Bench<N, C>
        ensures pass { result.pass ≡ pass }
        ensures nodes { result.nodes ≡ nodes }
        ensures last { result.last.value ≡ clock.new }
        ensures remembers { Remembers C.gives C.view clock.new result.moment result.last.value }
        ensures asked { Asked C.gives C.view clock.old clock.new }
    {
        let now = clock.now();
        let last = Snapshot::of(&*clock);
        Bench {
            pass,
            nodes,
            moment: now.0,
            last,
        }
    }
}

/// The moment of a call, which is then the one that was told last.
pub fn tell<C: Clock>(clock: &mut C, moment: &mut u64, last: &mut Snapshot<C>) -> Moment
    requires { Remembers C.gives C.view clock.old moment.old last.old.value }
    ensures ticks { Ticks (SharedTells C.gives C.view) last.old.value result.0 last.new.value
        (untold (C.view last.old.value).moment) (untold (C.view last.new.value).moment) }
    ensures remembers { Remembers C.gives C.view clock.new moment.new last.new.value }
    ensures asked { Asked C.gives C.view clock.old clock.new }
{
    let at = clock.now();
    let told = Snapshot::of(&*clock);
    *moment = at.0;
    *last = told;
    at
}

/// Whether a pause of so many milliseconds is over that began at the moment that was told last. Some is when it will be.
pub fn wait<C: Clock>(
    clock: &mut C,
    moment: &mut u64,
    last: &mut Snapshot<C>,
    ms: u64,
) -> Option<u64>
    requires { Remembers C.gives C.view clock.old moment.old last.old.value }
    ensures rests { IfSome result (λ due. (last.new.value ≡ last.old.value)
        × (due ≡ later_by moment.old ms) × ((C.view clock.new).moment < due)) }
    ensures paused { IfNone result (PausesFor (SharedTells C.gives C.view) ms
        last.old.value last.new.value
        (untold (C.view last.old.value).moment) (untold (C.view last.new.value).moment)) }
    ensures remembers { Remembers C.gives C.view clock.new moment.new last.new.value }
    ensures asked { Asked C.gives C.view clock.old clock.new }
{
    let due = due_of(*moment, ms);
    let now = clock.now();
    if now.0 < due {
        return Some(due);
    }
    let rested = Snapshot::of(&*clock);
    *moment = now.0;
    *last = rested;
    None
}
