//! What runs beside the links: workers and tickers, on one thread.
ghost use Rattle.std.specs.Prelude.{◌≡◌, ◌≤◌, ◌⊎◌, All, IfSome};
ghost use Rattle.std.specs.Thread.{IsSync};
ghost use Rattle.hub_cell.specs.Passes.{IsOf};
ghost use Rattle.grid_outside.specs.Counts.{Rose};
ghost use Rattle.hub_server.specs.Hands.{IsHand};
ghost use Rattle.hub_server.specs.Statuses.{HasRun};

use crate::accepting::Accepts;
use crate::handling::{serve_links, take_back};
use crate::hands::{Hand, go_on_all, keep_hand};
use crate::looping::Post;
use crate::passes::next_pass;
use grid_outside::Gate;
use hub_cell::{Pass, SharedHub};
use std::alloc::Global;
use std::sync::Wait;
use std::sync::atomic::{AtomicBool, Ordering};
use std::thread::{Threads, join};

/// The milliseconds after which a worker looks again whether there is something to start.
const PAUSE_MS: u64 = 15;

/// At most so many places are told of at once.
const READY: usize = 128;

/// What the workers and the tickers work with: what they wait by, and a clock for each of them.
#[derive(Drop)]
pub(crate) struct House<G: Drop, C: Drop> {
    pub(crate) gate: G,
    pub(crate) workers: Vec<C>,
    pub(crate) tickers: Vec<C>,
    /// How long an exchange of a start may take, in milliseconds.
    pub(crate) start_ms: u64,
}

/// One more hand with this clock, where there is a pass for it: a worker where it is told how long an exchange of a start may take, else
/// a ticker.
fn hire_one<G: Gate>(
    hub: &SharedHub,
    gate: &mut G,
    passes: &mut Vec<Pass>,
    clock: G::C,
    start_ms: Option<u64>,
    hands: &mut Vec<Hand<G::N, G::C>>,
)
    requires passes { All (IsOf hub.now) passes.old.items }
    requires hands { All (IsHand hub.now G.N.NodeLine.state G.N.NodeLine.gives G.N.NodeLine.asks
        G.C.Clock.gives G.C.Clock.view) hands.old.items }
    ensures passes { All (IsOf hub.now) passes.new.items }
    ensures hands { All (IsHand hub.now G.N.NodeLine.state G.N.NodeLine.gives G.N.NodeLine.asks
        G.C.Clock.gives G.C.Clock.view) hands.new.items }
{
    if let Some(pass) = next_pass(hub, passes) {
        let nodes = gate.nodes(hands.len());
        keep_hand(hub, hands, Hand::hired(start_ms, pass, nodes, clock));
    }
}

/// A hand for each clock, as far as there are passes.
fn hire<G: Gate>(
    hub: &SharedHub,
    gate: &mut G,
    passes: &mut Vec<Pass>,
    clocks: Vec<G::C>,
    start_ms: Option<u64>,
    hands: &mut Vec<Hand<G::N, G::C>>,
)
    requires passes { All (IsOf hub.now) passes.old.items }
    requires hands { All (IsHand hub.now G.N.NodeLine.state G.N.NodeLine.gives G.N.NodeLine.asks
        G.C.Clock.gives G.C.Clock.view) hands.old.items }
    ensures passes { All (IsOf hub.now) passes.new.items }
    ensures hands { All (IsHand hub.now G.N.NodeLine.state G.N.NodeLine.gives G.N.NodeLine.asks
        G.C.Clock.gives G.C.Clock.view) hands.new.items }
{
    for clock in clocks {
        hire_one(hub, gate, passes, clock, start_ms, hands);
    }
}

/// How long to wait where nobody may go on at once: so long that each of so many hands that begin one behind the other looks in a part
/// of the pause of its own.
fn share_of_pause(count: usize) -> u64 {
    (PAUSE_MS / (count as u64).max(1)).max(1)
}

/// Lets the hands do what they can do, again and again, until all else is done. They begin one behind the other, since what is to be
/// started soon is found soonest where they don't all look at the same time.
fn keep_going<R: Wait, G: Gate>(
    rt: &R,
    alloc: Global,
    hub: &SharedHub,
    gate: &mut G,
    hands: &mut Vec<Hand<G::N, G::C>>,
    ready: &mut Vec<usize>,
    done: &AtomicBool,
)
    requires { All (IsHand hub.now G.N.NodeLine.state G.N.NodeLine.gives G.N.NodeLine.asks
        G.C.Clock.gives G.C.Clock.view) hands.old.items }
{
    let pause = share_of_pause(hands.len());
    let mut begun = 0usize;
    for _ in rt.forever() {
        if done.load(Ordering::SeqCst) {
            return;
        }
        begun = begun.saturating_add(1);
        let soon = go_on_all(rt, alloc, hub, hands, begun);
        ready.clear();
        gate.wait(if soon { 0 } else { pause }, ready);
    }
}

/// The thread of the workers and the tickers.
fn keep_house<R: Wait, G: Gate + Drop>(
    rt: &R,
    alloc: Global,
    hub: &SharedHub,
    mut passes: Vec<Pass>,
    house: House<G, G::C>,
    done: &AtomicBool,
)
    requires own { All (IsOf hub.now) passes.items }
{
    let House {
        mut gate,
        workers,
        tickers,
        start_ms,
    } = house;
    let Ok(mut ready) = Vec::with_capacity(alloc, READY) else {
        return;
    };
    let mut hands = Vec::new(alloc);
    hire(hub, &mut gate, &mut passes, tickers, None, &mut hands);
    hire(
        hub,
        &mut gate,
        &mut passes,
        workers,
        Some(start_ms),
        &mut hands,
    );
    keep_going(rt, alloc, hub, &mut gate, &mut hands, &mut ready, done);
}

/// Serves the links until the door is closed or fails, and says when that is done.
fn serve_to_the_end<R: Threads + Wait + Sync, G: Gate + Send + Drop, A: Accepts<G::L>>(
    rt: &R,
    alloc: Global,
    hub: &SharedHub,
    passes: Vec<Pass>,
    posts: Vec<Post<G, G::C>>,
    done: &AtomicBool,
    door: &mut A,
) -> u8
    requires own { All (IsOf hub.now) passes.items }
    ensures { HasRun (A.view door.old) (A.view door.new) result }
{
    let status = serve_links(rt, alloc, hub, passes, posts, door);
    done.store(true, Ordering::SeqCst);
    status
}

/// Serves the links beside workers and tickers, and ends once all have ended.
pub(crate) fn serve_beside_house<R: Threads + Wait + Sync, G: Gate + Send + Drop, A: Accepts<G::L>>(
    rt: &R,
    alloc: Global,
    hub: &SharedHub,
    house_passes: Vec<Pass>,
    house: House<G, G::C>,
    passes: Vec<Pass>,
    posts: Vec<Post<G, G::C>>,
    door: &mut A,
) -> u8
    requires own { All (IsOf hub.now) house_passes.items × All (IsOf hub.now) passes.items }
    ensures { HasRun (A.view door.old) (A.view door.new) result }
{
    let flag = AtomicBool::new(false);
    let done = &flag;
    let lent = &mut *door;
    let (_, (lent, status)) = join(
        rt,
        move ||
            requires { IsSync R.row × All (IsOf hub.now) house_passes.items }
        { keep_house(rt, alloc, hub, house_passes, house, done) },
        move || -> (&mut A, u8)
            requires { IsSync R.row × All (IsOf hub.now) passes.items }
            ensures { (result.0.ghost_name ≡ lent.entry.ghost_name)
                × HasRun (A.view lent.entry.now) (A.view result.0.now) result.1 }
        {
            let status = serve_to_the_end(rt, alloc, hub, passes, posts, done, lent);
            (lent, status)
        },
    );
    // For the proof alone: the loan of the door ends here.
    take_back(lent);
    status
}
