//! How many turns the requests of a connection take that shares its thread, and is lent its thread's reader of the published map.
//! A hub has so many turns left and no more, so that where it is spent tells what each request took.
ghost use Rattle.std.specs.Prelude.{IfSome};
ghost use Rattle.hub_cell.specs.Passes.{IsOf};

use crate::grid::asked;
use crate::seats::{WAITS_MS, line_of};
use crate::tables::{Fails, REGISTERS, client_of, five_requests, nodes_failing};
use grid_outside::{Clock, Line, MemClock, MemLine, MemNodeLine, MemNodes, NodeLine};
use grid_types::{HubConfig, Moment};
use hub_cell::{Pass, SharedHub};
use hub_serving::{Act, ConnFault, End, Seat, Served};
use std::alloc::Global;
use std::sync::Wait;

/// A hub has no turn from this ticket on.
const NO_TURN: u64 = 1 << 62;

/// More turns than the five requests take.
const MOST: u64 = 40;

const STEPS: u64 = 1_000;

const BUFFER_BYTES: usize = 4_096;

const NONE_FAILS: Fails = Fails::Exchange(&[]);

/// Steps a connection over any ends until it is over, by the reader of another pass.
fn stepped_lent<R: Wait, L: Line + Drop, N: NodeLine + Drop, C: Clock>(
    rt: &R,
    alloc: Global,
    hub: &SharedHub,
    lender: Pass,
    pass: Pass,
    line: L,
    nodes: N,
    clock: &mut C,
) -> Option<Result<Served, ConnFault>>
    requires own { IsOf hub.now pass }
    requires lender { IsOf hub.now lender }
    requires idle { N.asks nodes None }
{
    let mut reader = Some(lender);
    let mut seat = Seat::new(alloc, pass, line, nodes, clock, WAITS_MS);
    let mut buffer = [0; BUFFER_BYTES];
    for _ in 0..STEPS {
        if let Act::Over(_) = seat.step_lent(rt, alloc, hub, &mut reader, &mut buffer, clock) {
            break;
        }
    }
    let ended = seat.result();
    drop(seat);
    drop(reader);
    ended
}

/// The ends of a connection of which no call fails.
fn unfailing(alloc: Global) -> Option<(MemLine, MemNodes)> {
    let sends = five_requests(alloc)?;
    let line = line_of(alloc, &client_of(sends.as_slice(), NONE_FAILS))?;
    let nodes = nodes_failing(alloc, NONE_FAILS)?;
    Some((line, nodes))
}

/// How many requests were answered where the hub was spent with the last of these.
fn answered_until_spent(ended: Option<Result<Served, ConnFault>>) -> u64 {
    match ended {
        Some(Ok(served)) if served.end == End::HubSpent => served.frames,
        _ => 0,
    }
}

/// How many of the five requests were answered where the hub was spent with the last of these; 0 where it was spent before.
fn answered_by<R: Wait>(rt: &R, alloc: Global, hub: &SharedHub, first: Pass) -> Option<u64>
    requires { IsOf hub.now first }
{
    let mut lender = first;
    drop(asked(rt, alloc, hub, &mut lender, REGISTERS)?);
    let Ok(pass) = hub.split_bare(rt, &mut lender) else {
        return Some(0);
    };
    let (line, nodes) = unfailing(alloc)?;
    let nodes = MemNodeLine::new(nodes, Vec::new(alloc));
    let mut clock = MemClock::new(Moment(0));
    let ended = stepped_lent(rt, alloc, hub, lender, pass, line, nodes, &mut clock);
    Some(answered_until_spent(ended))
}

/// The same of a hub that has so many turns.
fn answered<R: Wait>(rt: &R, alloc: Global, turns: u64) -> Option<u64> {
    let first = NO_TURN.saturating_sub(turns);
    let (hub, pass) = SharedHub::new(rt, alloc, HubConfig::default(), first, 2).ok()?;
    let count = answered_by(rt, alloc, &hub, pass);
    hub.close(rt);
    count
}

/// For how many numbers of turns the hub is spent with the second and with the third request, each a relayed command.
fn spent_with<R: Wait>(rt: &R, alloc: Global) -> Option<(u64, u64)> {
    let mut second = 0u64;
    let mut third = 0u64;
    for turns in 0..MOST {
        match answered(rt, alloc, turns)? {
            2 => second = second.saturating_add(1),
            3 => third = third.saturating_add(1),
            _ => {}
        }
    }
    Some((second, third))
}

/// Its touch, and no other.
#[test]
fn a_relayed_command_takes_one_turn(rt: HostRuntime) {
    assert!(rt; spent_with(&rt, rt.alloc()) == Some((1, 1)));
}
