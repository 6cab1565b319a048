//! Workers and tickers that share a thread, each with a clock of its own.
ghost use Rattle.std.specs.Prelude.{◌≡◌, None, All, IfSome};
ghost use Rattle.hub_cell.specs.declared.hub.SharedHub.{SharedHub};
ghost use Rattle.hub_cell.specs.Passes.{IsOf};
ghost use Rattle.hub_server.specs.Hands.{IsHand};

use grid_outside::{Clock, NodeLine};
use hub_cell::{Pass, SharedHub};
use hub_workers::{TickSeat, WorkAct, WorkSeat};
use std::alloc::Global;
use std::sync::Wait;

/// So many steps of one hand, and then the others have theirs.
const STEPS: u32 = 64;

/// What a hand is there for.
#[derive(Drop)]
enum Duty<N: Drop, C> {
    /// It starts sessions.
    Work(WorkSeat<N, C>),
    /// It lets go what is over by its time.
    Tick(TickSeat<N, C>),
}

/// A worker or a ticker.
#[derive(Drop)]
pub(crate) struct Hand<N: Drop, C: Drop> {
    duty: Duty<N, C>,
    clock: C,
}

impl<N: NodeLine + Drop, C: Clock + Drop> Hand<N, C> {
    /// A worker that begins now. An exchange of its starts may take so long.
    fn worker(pass: Pass, nodes: N, mut clock: C, start_ms: u64) -> Hand<N, C>
        requires idle { N.asks nodes None }
        ensures { (hub : SharedHub) → IsOf hub pass →
            IsHand hub N.state N.gives N.asks C.gives C.view result }
    {
        let seat = WorkSeat::new(pass, nodes, &mut clock, start_ms);
        Hand {
            duty: Duty::Work(seat),
            clock,
        }
    }

    /// A ticker that begins now.
    fn ticker(pass: Pass, nodes: N, mut clock: C) -> Hand<N, C>
        requires idle { N.asks nodes None }
        ensures { (hub : SharedHub) → IsOf hub pass →
            IsHand hub N.state N.gives N.asks C.gives C.view result }
    {
        let seat = TickSeat::new(pass, nodes, &mut clock);
        Hand {
            duty: Duty::Tick(seat),
            clock,
        }
    }

    /// A worker that begins now, where it is told how long an exchange of its starts may take; else a ticker.
    pub(crate) fn hired(start_ms: Option<u64>, pass: Pass, nodes: N, clock: C) -> Hand<N, C>
        requires idle { N.asks nodes None }
        ensures { (hub : SharedHub) → IsOf hub pass →
            IsHand hub N.state N.gives N.asks C.gives C.view result }
    {
        match start_ms {
            Some(start_ms) => Hand::worker(pass, nodes, clock, start_ms),
            None => Hand::ticker(pass, nodes, clock),
        }
    }

    /// Does what it is at, where that can be done now. It waits for nothing.
    fn step<R: Wait>(&mut self, rt: &R, alloc: Global, hub: &SharedHub) -> WorkAct
        requires { IsHand hub.now N.state N.gives N.asks C.gives C.view self.old }
        ensures { IsHand hub.now N.state N.gives N.asks C.gives C.view self.new }
    {
        match &mut self.duty {
            Duty::Work(seat) => seat.step(rt, alloc, hub, &mut self.clock),
            Duty::Tick(seat) => seat.step(rt, alloc, hub, &mut self.clock),
        }
    }

    /// Steps until it rests or is over, but not for too long. True: it may go on at once.
    fn go_on<R: Wait>(&mut self, rt: &R, alloc: Global, hub: &SharedHub) -> bool
        requires { IsHand hub.now N.state N.gives N.asks C.gives C.view self.old }
        ensures { IsHand hub.now N.state N.gives N.asks C.gives C.view self.new }
    {
        for _ in 0..STEPS {
            if self.step(rt, alloc, hub) != WorkAct::GoesOn {
                return false;
            }
        }
        true
    }
}

/// Puts one behind the others. One that finds no room is let go.
pub(crate) fn keep_hand<N: NodeLine + Drop, C: Clock + Drop>(
    hub: &SharedHub,
    hands: &mut Vec<Hand<N, C>>,
    hand: Hand<N, C>,
)
    requires all { All (IsHand hub.now N.state N.gives N.asks C.gives C.view) hands.old.items }
    requires own { IsHand hub.now N.state N.gives N.asks C.gives C.view hand }
    ensures { All (IsHand hub.now N.state N.gives N.asks C.gives C.view) hands.new.items }
{
    drop(hands.push(hand));
}

/// Each of the first `count` of them does what it can do now. True: some may go on at once.
pub(crate) fn go_on_all<R: Wait, N: NodeLine + Drop, C: Clock + Drop>(
    rt: &R,
    alloc: Global,
    hub: &SharedHub,
    hands: &mut Vec<Hand<N, C>>,
    count: usize,
) -> bool
    requires { All (IsHand hub.now N.state N.gives N.asks C.gives C.view) hands.old.items }
    ensures { All (IsHand hub.now N.state N.gives N.asks C.gives C.view) hands.new.items }
{
    let mut soon = false;
    let mut left = count;
    for hand in hands.iter_mut() {
        if left > 0 {
            left -= 1;
            if hand.go_on(rt, alloc, hub) {
                soon = true;
            }
        }
    }
    soon
}
