//! Workers, which start sessions for the requests whose turn it is.
ghost use Rattle.std.specs.Prelude.{◌≡◌, ℕ, IfSome};
ghost use Rattle.hub_cell.specs.Passes.{IsOf, knows};
ghost use Rattle.hub_workers.specs.Turns.{IsLastTicket, OneTurn, TellsLast, Worked, WorkerSpent, WorkerTurn, spent_after};
ghost use Rattle.hub_workers.specs.World.{world_of};

use crate::ends::WorkerEnd;
use crate::starting::carry_out;
use grid_outside::{Clock, NodeLink};
use grid_types::Spent;
use hub_cell::{Pass, SharedHub};
use hub_core::Dispatched;
use std::alloc::Global;
use std::sync::Wait;

/// The milliseconds that a worker pauses where nothing is assigned to it.
pub const PAUSE_MS: u64 = 15;

/// One turn. Some says that the hub is spent.
fn work_once<R: Wait, N: NodeLink, C: Clock>(
    rt: &R,
    alloc: Global,
    hub: &SharedHub,
    pass: &mut Pass,
    nodes: &mut N,
    clock: &mut C,
) -> Option<Spent>
    requires { IsOf hub.now pass.old }
    ensures own { IsOf hub.now pass.new }
    ensures told { IfSome result (IsLastTicket hub.now) }
    ensures turned { OneTurn hub.now N.gives C.gives WorkerTurn WorkerSpent
        (world_of (knows pass.old) nodes.old clock.old (C.view clock.old)) result
        (world_of (knows pass.new) nodes.new clock.new (C.view clock.new)) }
{
    let at = clock.now();
    match hub.dispatch(rt, pass, at) {
        Ok(Dispatched::Assigned(reservation)) => {
            match carry_out(rt, alloc, hub, pass, reservation, nodes, clock) {
                Ok(_) => None,
                Err(spent) => Some(spent),
            }
        }
        Ok(Dispatched::Nothing) => {
            clock.pause(PAUSE_MS);
            None
        }
        Ok(Dispatched::Memory) => {
            clock.pause(PAUSE_MS);
            None
        }
        Err(spent) => Some(spent),
    }
}

/// Makes so many turns: each asks the hub for the next assignment and carries its start out, or
/// pauses for 15 milliseconds where there is none, or no memory for it.
pub fn worker<R: Wait, N: NodeLink, C: Clock>(
    rt: &R,
    alloc: Global,
    hub: &SharedHub,
    pass: &mut Pass,
    nodes: &mut N,
    clock: &mut C,
    turns: u64,
) -> WorkerEnd
    requires { IsOf hub.now pass.old }
    ensures own { IsOf hub.now pass.new }
    ensures worked { Worked hub.now N.gives C.gives WorkerTurn WorkerSpent turns
        (world_of (knows pass.old) nodes.old clock.old (C.view clock.old)) result
        (world_of (knows pass.new) nodes.new clock.new (C.view clock.new)) }
    ensures told { TellsLast hub.now result }
    ensures spent { (knows pass.new).spent ≡ spent_after (knows pass.old).spent result }
{
    for _ in 0..turns {
        if let Some(spent) = work_once(rt, alloc, hub, pass, nodes, clock) {
            return WorkerEnd::Spent(spent);
        }
    }
    WorkerEnd::TurnsDone
}
