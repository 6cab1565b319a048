//! A client that leaves while a worker starts a session for it.
ghost use Rattle.std.specs.Prelude.{None, IfSome};
ghost use Rattle.hub_cell.specs.Passes.{IsOf};
ghost use Rattle.hub_serving.specs.Tables.{IsSeated};
ghost use Rattle.hub_workers.specs.WorkSeats.{IsAtWork};
ghost use Rattle.hub_workers.specs.SharedClock.{Asked};

use crate::callers::{Caller, Reaching, ends_of, is_left, is_so};
use crate::grid::{are_asked, asked};
use crate::leaving::{CREATES_A, ENDS, NEW_SESSION, NO_REQUESTS};
use crate::seats::{BUFFER_BYTES, MemSeat, WAITS_MS};
use crate::table::{Ends, let_pass};
use crate::tables::{OK, REGISTERS, Told};
use grid_outside::{Clock, Line, MemClock, MemNodeLine, MemNodes, NodeLine};
use grid_types::{HubConfig, Moment};
use hub_cell::{Pass, SharedHub};
use hub_serving::{ConnFault, Seat, seats_stay_seated};
use hub_workers::{WorkSeat, workers_stay_at_work};
use std::alloc::Global;
use std::sync::Wait;

/// So often its client acts before a node is there.
const BEFORE: u64 = 12;

/// So often both act afterwards.
const AFTERWARDS: u64 = 100;

const PAUSE_MS: u64 = 5;

fn step_once<R: Wait, L: Line + Drop, N: NodeLine + Drop, C: Clock>(
    rt: &R,
    alloc: Global,
    hub: &SharedHub,
    seat: &mut Seat<L, N, C>,
    clock: &mut C,
)
    requires { IsSeated hub.now L.view N.state N.gives N.asks C.gives C.view clock.old seat.old }
    ensures seated { IsSeated hub.now L.view N.state N.gives N.asks C.gives C.view clock.new seat.new }
    ensures asked { Asked C.gives C.view clock.old clock.new }
{
    let mut buffer = [0; BUFFER_BYTES];
    let _act = seat.step(rt, alloc, hub, &mut buffer, clock);
}

/// It acts alone, and no time passes.
fn acts_alone<R: Wait, L: Line + Drop, N: NodeLine + Drop, C: Clock>(
    rt: &R,
    alloc: Global,
    hub: &SharedHub,
    seat: &mut Seat<L, N, C>,
    clock: &mut C,
)
    requires { IsSeated hub.now L.view N.state N.gives N.asks C.gives C.view clock.old seat.old }
    ensures { IsSeated hub.now L.view N.state N.gives N.asks C.gives C.view clock.new seat.new }
{
    for _ in 0..BEFORE {
        step_once(rt, alloc, hub, seat, clock);
    }
}

/// The worker acts, then the connection, and then time passes.
fn act_once<R: Wait, L: Line + Drop, N: NodeLine + Drop, C: Clock>(
    rt: &R,
    alloc: Global,
    hub: &SharedHub,
    seat: &mut Seat<L, N, C>,
    worker: &mut WorkSeat<N, C>,
    clock: &mut C,
)
    requires seated { IsSeated hub.now L.view N.state N.gives N.asks C.gives C.view clock.old seat.old }
    requires at_work { IsAtWork hub.now N.state N.gives N.asks C.gives C.view clock.old worker.old }
    ensures seated { IsSeated hub.now L.view N.state N.gives N.asks C.gives C.view clock.new seat.new }
    ensures at_work { IsAtWork hub.now N.state N.gives N.asks C.gives C.view clock.new worker.new }
{
    // For the proof alone: each stays where it is while the clock is asked for the other.
    seats_stay_seated::<L, N, C>();
    workers_stay_at_work::<N, C>();
    let _act = worker.step(rt, alloc, hub, clock);
    step_once(rt, alloc, hub, seat, clock);
    let_pass(clock, PAUSE_MS);
}

fn act<R: Wait, L: Line + Drop, N: NodeLine + Drop, C: Clock>(
    rt: &R,
    alloc: Global,
    hub: &SharedHub,
    seat: &mut Seat<L, N, C>,
    worker: &mut WorkSeat<N, C>,
    clock: &mut C,
)
    requires seated { IsSeated hub.now L.view N.state N.gives N.asks C.gives C.view clock.old seat.old }
    requires at_work { IsAtWork hub.now N.state N.gives N.asks C.gives C.view clock.old worker.old }
{
    for _ in 0..AFTERWARDS {
        act_once(rt, alloc, hub, seat, worker, clock);
    }
}

/// A worker comes to stand beside the connection.
fn beside_worker<R: Wait, L: Line + Drop, N: NodeLine + Drop, C: Clock>(
    rt: &R,
    alloc: Global,
    hub: &SharedHub,
    seat: &mut Seat<L, N, C>,
    pass: Pass,
    nodes: N,
    clock: &mut C,
) -> WorkSeat<N, C>
    requires own { IsOf hub.now pass }
    requires idle { N.asks nodes None }
    requires seated { IsSeated hub.now L.view N.state N.gives N.asks C.gives C.view clock.old seat.old }
{
    // For the proof alone: it stays seated while the clock is asked for the worker.
    seats_stay_seated::<L, N, C>();
    let mut worker = WorkSeat::new(pass, nodes, clock, WAITS_MS);
    act(rt, alloc, hub, seat, &mut worker, clock);
    worker
}

/// A connection that has come to wait.
fn waiting<R: Wait, C: Clock, E: Ends + Drop>(
    rt: &R,
    alloc: Global,
    hub: &SharedHub,
    pass: Pass,
    ends: E,
    clock: &mut C,
) -> Seat<E::L, E::N, C>
    requires { IsOf hub.now pass }
    ensures { IsSeated hub.now E.L.Line.view E.N.NodeLine.state E.N.NodeLine.gives E.N.NodeLine.asks
        C.gives C.view clock.new result }
{
    let (line, nodes) = ends.both();
    let mut seat = Seat::new(alloc, pass, line, nodes, clock, WAITS_MS);
    acts_alone(rt, alloc, hub, &mut seat, clock);
    seat
}

/// A worker starts the session for which the connection waits.
fn worked<R: Wait, C: Clock, E: Ends + Drop>(
    rt: &R,
    alloc: Global,
    hub: &SharedHub,
    seat: &mut Seat<E::L, E::N, C>,
    pass: Pass,
    ends: E,
    clock: &mut C,
) -> WorkSeat<E::N, C>
    requires own { IsOf hub.now pass }
    requires seated { IsSeated hub.now E.L.Line.view E.N.NodeLine.state E.N.NodeLine.gives
        E.N.NodeLine.asks C.gives C.view clock.old seat.old }
{
    let (_line, nodes) = ends.both();
    beside_worker(rt, alloc, hub, seat, pass, nodes, clock)
}

/// Two passes.
fn two<R: Wait>(rt: &R, hub: &SharedHub, first: &mut Pass) -> Option<(Pass, Pass)>
    requires { IsOf hub.now first.old }
    ensures own { IsOf hub.now first.new }
    ensures split { IfSome result (λ two. IsOf hub.now two.0 × IsOf hub.now two.1) }
{
    let one = hub.split_bare(rt, first).ok()?;
    let other = hub.split_bare(rt, first).ok()?;
    Some((one, other))
}

/// Whether the node registers.
fn registers<R: Wait>(rt: &R, alloc: Global, hub: &SharedHub, first: &mut Pass) -> bool
    requires { IsOf hub.now first.old }
    ensures { IsOf hub.now first.new }
{
    match asked(rt, alloc, hub, first, REGISTERS) {
        Some(link) => {
            drop(link);
            true
        }
        None => false,
    }
}

/// The client's request waits while no node is there. Then one registers, and a worker starts the session.
fn play<R: Wait, C: Clock, E: Ends + Drop>(
    rt: &R,
    alloc: Global,
    hub: &SharedHub,
    first: &mut Pass,
    client: E,
    starts: E,
    clock: &mut C,
) -> Option<(Seat<E::L, E::N, C>, WorkSeat<E::N, C>)>
    requires { IsOf hub.now first.old }
    ensures { IsOf hub.now first.new }
{
    let (pass, its) = two(rt, hub, first)?;
    let mut seat = waiting(rt, alloc, hub, pass, client, clock);
    let has_registered = registers(rt, alloc, hub, first);
    let worker = worked(rt, alloc, hub, &mut seat, its, starts, clock);
    if has_registered {
        return Some((seat, worker));
    }
    drop(seat);
    drop(worker);
    None
}

/// It leaves while the worker waits for the node.
const CLIENT: Caller = Caller {
    sends: &[NEW_SESSION],
    leaves: Some(BEFORE),
    replies: &[ENDS],
    silent: 0,
    told: &[],
    asks: "DELETE n:1/session/a; ",
    ended: Some(Err(ConnFault::Read)),
};

/// The worker's node is asked so often in vain whether it has started the session.
const WORKER: Caller = Caller {
    sends: &[],
    leaves: None,
    replies: &[CREATES_A],
    silent: 40,
    told: &[],
    asks: "POST n:1/session; ",
    ended: None,
};

const FREE: Told = Told::Hub(
    OK,
    "{\"value\":{\"ready\":true,\"message\":\"grid is ready\",\"nodes\":[{\"node\":1,\"name\":\"n\",\"address\":\"n:1\",\"availability\":\"UP\",\"maxSessions\":1,\"slots\":[{\"stereotype\":{},\"states\":[{\"slot\":0,\"state\":\"FREE\",\"session\":null}]}]}]}}",
);

type MemWorker = WorkSeat<MemNodeLine<MemNodes>, MemClock>;

/// Nothing was told the client, and its session was started by the worker and ended at the node by the client's own connection.
fn is_ended(alloc: Global, seat: &MemSeat, worker: &MemWorker) -> bool {
    is_so(alloc, seat, &CLIENT) && are_asked(alloc, worker.nodes().nodes(), WORKER.asks)
}

/// The ends of the connection and of the worker.
fn both_ends(alloc: Global) -> Option<(Reaching<MemNodes>, Reaching<MemNodes>)> {
    let client = ends_of(alloc, &CLIENT)?;
    match ends_of(alloc, &WORKER) {
        Some(starts) => Some((client, starts)),
        None => {
            drop(client);
            None
        }
    }
}

fn goes_over<R: Wait>(rt: &R, alloc: Global, hub: &SharedHub, first: &mut Pass) -> Option<bool>
    requires { IsOf hub.now first.old }
    ensures { IsOf hub.now first.new }
{
    let mut clock = MemClock::new(Moment(0));
    let (client, starts) = both_ends(alloc)?;
    let (seat, worker) = play(rt, alloc, hub, first, client, starts, &mut clock)?;
    let is_ended = is_ended(alloc, &seat, &worker);
    drop(seat);
    drop(worker);
    let is_left = is_left(rt, alloc, hub, first, &[FREE, NO_REQUESTS]);
    Some(is_ended && is_left)
}

fn goes<R: Wait>(rt: &R, alloc: Global) -> Option<bool> {
    let (hub, mut first) = SharedHub::new(rt, alloc, HubConfig::default(), 0, 1).ok()?;
    let so = goes_over(rt, alloc, &hub, &mut first);
    first.let_go();
    hub.close(rt);
    so
}

#[test]
fn a_session_that_is_started_for_one_who_left_is_ended(rt: HostRuntime) {
    assert!(rt; goes(&rt, rt.alloc()) == Some(true));
}
