//! Connections that one thread serves beside each other, as a table has them, and who acts when.
ghost use Rattle.std.specs.Prelude.{None, All, IfSome};
ghost use Rattle.hub_cell.specs.Passes.{IsOf};
ghost use Rattle.hub_serving.specs.Tables.{IsSeated};
ghost use Rattle.hub_workers.specs.SharedClock.{Asked};

use crate::seats::{BUFFER_BYTES, WAITS_MS};
use grid_outside::{Clock, Line, NodeLine};
use hub_cell::{Pass, SharedHub};
use hub_serving::{Seat, round, seats_stay_seated};
use std::alloc::Global;
use std::sync::Wait;

/// What has both ends of a connection.
pub(crate) trait Ends {
    type L: Line + Drop;

    type N: NodeLine + Drop;

    /// What it reads and writes by, and what reaches its nodes, of which no exchange is under way.
    fn both(self) -> (Self::L, Self::N)
        ensures { Self.N.NodeLine.asks result.1 None };
}

/// The connections at these places act in turn so many times, and behind each time so many milliseconds pass.
#[derive(Clone, Copy)]
pub(crate) struct Scene {
    pub(crate) places: &'static [usize],
    pub(crate) times: u64,
    pub(crate) pause_ms: u64,
}

/// Puts a connection that begins now behind the others.
fn sit<L: Line + Drop, N: NodeLine + Drop, C: Clock>(
    alloc: Global,
    hub: &SharedHub,
    seats: &mut Vec<Seat<L, N, C>>,
    pass: Pass,
    line: L,
    nodes: N,
    clock: &mut C,
) -> Option<()>
    requires own { IsOf hub.now pass }
    requires idle { N.asks nodes None }
    requires seated { All (IsSeated hub.now L.view N.state N.gives N.asks C.gives C.view clock.old)
        seats.old.items }
    ensures { All (IsSeated hub.now L.view N.state N.gives N.asks C.gives C.view clock.new)
        seats.new.items }
{
    // For the proof alone: the others stay seated while the clock is asked for this one.
    seats_stay_seated::<L, N, C>();
    let seat = Seat::new(alloc, pass, line, nodes, clock, WAITS_MS);
    seats.push(seat).ok()
}

/// Puts a connection with a pass of its own behind the others.
fn come<R: Wait, C: Clock, E: Ends + Drop>(
    rt: &R,
    alloc: Global,
    hub: &SharedHub,
    first: &mut Pass,
    ends: E,
    seats: &mut Vec<Seat<E::L, E::N, C>>,
    clock: &mut C,
) -> Option<()>
    requires own { IsOf hub.now first.old }
    requires seated { All (IsSeated hub.now E.L.Line.view E.N.NodeLine.state E.N.NodeLine.gives
        E.N.NodeLine.asks C.gives C.view clock.old) seats.old.items }
    ensures own { IsOf hub.now first.new }
    ensures seated { All (IsSeated hub.now E.L.Line.view E.N.NodeLine.state E.N.NodeLine.gives
        E.N.NodeLine.asks C.gives C.view clock.new) seats.new.items }
{
    let pass = hub.split_bare(rt, first).ok()?;
    let (line, nodes) = ends.both();
    sit(alloc, hub, seats, pass, line, nodes, clock)
}

/// A connection for each.
fn seated<R: Wait, C: Clock, E: Ends + Drop>(
    rt: &R,
    alloc: Global,
    hub: &SharedHub,
    first: &mut Pass,
    all: Vec<E>,
    clock: &mut C,
) -> Option<Vec<Seat<E::L, E::N, C>>>
    requires { IsOf hub.now first.old }
    ensures own { IsOf hub.now first.new }
    ensures seated { IfSome result (λ seats. All (IsSeated hub.now E.L.Line.view E.N.NodeLine.state
        E.N.NodeLine.gives E.N.NodeLine.asks C.gives C.view clock.new) seats.items) }
{
    let mut seats = Vec::new(alloc);
    for ends in all {
        come(rt, alloc, hub, first, ends, &mut seats, clock)?;
    }
    Some(seats)
}

/// Lets time pass.
pub(crate) fn let_pass<C: Clock>(clock: &mut C, ms: u64)
    ensures { Asked C.gives C.view clock.old clock.new }
{
    let _now = clock.pause(ms);
}

/// The connections of the scene act once.
fn act_once<R: Wait, L: Line + Drop, N: NodeLine + Drop, C: Clock>(
    rt: &R,
    alloc: Global,
    hub: &SharedHub,
    seats: &mut Vec<Seat<L, N, C>>,
    scene: &Scene,
    clock: &mut C,
)
    requires { All (IsSeated hub.now L.view N.state N.gives N.asks C.gives C.view clock.old)
        seats.old.items }
    ensures { All (IsSeated hub.now L.view N.state N.gives N.asks C.gives C.view clock.new)
        seats.new.items }
{
    // For the proof alone: they stay seated while time passes.
    seats_stay_seated::<L, N, C>();
    let mut buffer = [0; BUFFER_BYTES];
    round(rt, alloc, hub, seats, scene.places, &mut buffer, clock);
    let_pass(clock, scene.pause_ms);
}

fn act<R: Wait, L: Line + Drop, N: NodeLine + Drop, C: Clock>(
    rt: &R,
    alloc: Global,
    hub: &SharedHub,
    seats: &mut Vec<Seat<L, N, C>>,
    scene: &Scene,
    clock: &mut C,
)
    requires { All (IsSeated hub.now L.view N.state N.gives N.asks C.gives C.view clock.old)
        seats.old.items }
    ensures { All (IsSeated hub.now L.view N.state N.gives N.asks C.gives C.view clock.new)
        seats.new.items }
{
    for _ in 0..scene.times {
        act_once(rt, alloc, hub, seats, scene, clock);
    }
}

/// One scene behind the other, each connection by a pass of its own.
pub(crate) fn play<R: Wait, C: Clock, E: Ends + Drop>(
    rt: &R,
    alloc: Global,
    hub: &SharedHub,
    first: &mut Pass,
    all: Vec<E>,
    scenes: &[Scene],
    clock: &mut C,
) -> Option<Vec<Seat<E::L, E::N, C>>>
    requires { IsOf hub.now first.old }
    ensures { IsOf hub.now first.new }
{
    let mut seats = seated(rt, alloc, hub, first, all, clock)?;
    for scene in scenes {
        act(rt, alloc, hub, &mut seats, scene, clock);
    }
    Some(seats)
}
