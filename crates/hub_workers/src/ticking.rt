//! Tickers, which let go what is over by its time.
ghost use Rattle.std.specs.Prelude.{◌≡◌, ◌≢◌, IfSome};
ghost use Rattle.hub_cell.specs.Passes.{IsOf, knows};
ghost use Rattle.hub_cell.specs.Shared.{HasClosing};
ghost use Rattle.hub_workers.specs.Turns.{AfterSweep, AfterSweepSpent, Finishes, IsLastTicket, LookTellsLast, Looked, LookedAll, OneTurn, TellsLast, TickerSpent, TickerTurn, WentBy, Worked, spent_after};
ghost use Rattle.hub_workers.specs.World.{world_of};

use crate::ends::WorkerEnd;
use grid_outside::{Clock, NodeLink};
use grid_types::Spent;
use hub_cell::{CellFault, Pass, SharedHub};
use hub_core::{Closing, Expiring};
use node_client::ask_to_end;
use std::alloc::Global;
use std::sync::Wait;

/// The milliseconds that a ticker pauses at the end of each turn.
pub const PAUSE_MS: u64 = 1_000;

/// What a look for an idle session came to.
#[derive(Clone, Copy, Debug)]
pub enum Idle {
    /// One was ended.
    Ended,
    /// There is none.
    Over,
    /// Out of memory, for the call or for the request to the node.
    Lacks,
    Spent(Spent),
}

/// Has the session of the closing ended at its node, and frees its slot.
fn finish<R: Wait, N: NodeLink, C: Clock>(
    rt: &R,
    alloc: Global,
    hub: &SharedHub,
    pass: &mut Pass,
    closing: Closing,
    nodes: &mut N,
    clock: &mut C,
) -> Idle
    requires own { IsOf hub.now pass.old }
    requires has { HasClosing (knows pass.old) closing }
    ensures own { IsOf hub.now pass.new }
    ensures told { LookTellsLast hub.now result }
    ensures finishes { WentBy hub.now N.gives C.gives (Finishes closing result)
        (world_of (knows pass.old) nodes.old clock.old (C.view clock.old))
        (world_of (knows pass.new) nodes.new clock.new (C.view clock.new)) }
{
    let sent = ask_to_end(alloc, &closing, nodes);
    let _now = clock.now();
    match hub.freed(rt, pass, closing) {
        Ok(()) if sent => Idle::Ended,
        Ok(()) => Idle::Lacks,
        Err(stopped) => Idle::Spent(stopped.spent),
    }
}

/// Ends one idle session, if there is one.
fn end_idle<R: Wait, N: NodeLink, C: Clock>(
    rt: &R,
    alloc: Global,
    hub: &SharedHub,
    pass: &mut Pass,
    nodes: &mut N,
    clock: &mut C,
) -> Idle
    requires { IsOf hub.now pass.old }
    ensures own { IsOf hub.now pass.new }
    ensures told { LookTellsLast hub.now result }
    ensures looked { WentBy hub.now N.gives C.gives (Looked result)
        (world_of (knows pass.old) nodes.old clock.old (C.view clock.old))
        (world_of (knows pass.new) nodes.new clock.new (C.view clock.new)) }
{
    let at = clock.now();
    match hub.expire(rt, pass, at) {
        Ok(Expiring::Expired(closing)) => finish(rt, alloc, hub, pass, closing, nodes, clock),
        Ok(Expiring::Nothing) => Idle::Over,
        Err(CellFault::Memory) => Idle::Lacks,
        Err(CellFault::Spent(spent)) => Idle::Spent(spent),
    }
}

/// Ends the idle sessions one after the other. The answer is why it stops.
fn end_all_idle<R: Wait, N: NodeLink, C: Clock>(
    rt: &R,
    alloc: Global,
    hub: &SharedHub,
    pass: &mut Pass,
    nodes: &mut N,
    clock: &mut C,
) -> Idle
    requires { IsOf hub.now pass.old }
    ensures own { IsOf hub.now pass.new }
    ensures last { result ≢ Idle.Ended }
    ensures told { LookTellsLast hub.now result }
    ensures looked { WentBy hub.now N.gives C.gives (LookedAll result)
        (world_of (knows pass.old) nodes.old clock.old (C.view clock.old))
        (world_of (knows pass.new) nodes.new clock.new (C.view clock.new)) }
{
    for _ in rt.forever() {
        match end_idle(rt, alloc, hub, pass, nodes, clock) {
            Idle::Ended => {}
            last => return last,
        }
    }
    unreachable!()
}

/// One turn. Some says that the hub is spent.
fn tick_once<R: Wait, N: NodeLink, C: Clock>(
    rt: &R,
    alloc: Global,
    hub: &SharedHub,
    pass: &mut Pass,
    nodes: &mut N,
    clock: &mut C,
) -> Option<Spent>
    requires { IsOf hub.now pass.old }
    ensures own { IsOf hub.now pass.new }
    ensures told { IfSome result (IsLastTicket hub.now) }
    ensures turned { OneTurn hub.now N.gives C.gives TickerTurn TickerSpent
        (world_of (knows pass.old) nodes.old clock.old (C.view clock.old)) result
        (world_of (knows pass.new) nodes.new clock.new (C.view clock.new)) }
{
    let at = clock.now();
    match hub.sweep(rt, pass, at) {
        Ok(_) => end_then_pause(rt, alloc, hub, pass, nodes, clock),
        Err(CellFault::Memory) => None,
        Err(CellFault::Spent(spent)) => Some(spent),
    }
}

/// What is left of a turn after its sweep.
fn end_then_pause<R: Wait, N: NodeLink, C: Clock>(
    rt: &R,
    alloc: Global,
    hub: &SharedHub,
    pass: &mut Pass,
    nodes: &mut N,
    clock: &mut C,
) -> Option<Spent>
    requires { IsOf hub.now pass.old }
    ensures own { IsOf hub.now pass.new }
    ensures told { IfSome result (IsLastTicket hub.now) }
    ensures turned { OneTurn hub.now N.gives C.gives AfterSweep AfterSweepSpent
        (world_of (knows pass.old) nodes.old clock.old (C.view clock.old)) result
        (world_of (knows pass.new) nodes.new clock.new (C.view clock.new)) }
{
    match end_all_idle(rt, alloc, hub, pass, nodes, clock) {
        Idle::Over => {
            clock.pause(PAUSE_MS);
            None
        }
        Idle::Lacks => None,
        Idle::Spent(spent) => Some(spent),
        Idle::Ended => unreachable!(),
    }
}

/// Makes so many turns: each sweeps, ends the sessions that were idle for too long, and pauses for
/// a second. Out of memory it ends a turn early, without its pause.
pub fn ticker<R: Wait, N: NodeLink, C: Clock>(
    rt: &R,
    alloc: Global,
    hub: &SharedHub,
    pass: &mut Pass,
    nodes: &mut N,
    clock: &mut C,
    turns: u64,
) -> WorkerEnd
    requires { IsOf hub.now pass.old }
    ensures own { IsOf hub.now pass.new }
    ensures worked { Worked hub.now N.gives C.gives TickerTurn TickerSpent turns
        (world_of (knows pass.old) nodes.old clock.old (C.view clock.old)) result
        (world_of (knows pass.new) nodes.new clock.new (C.view clock.new)) }
    ensures told { TellsLast hub.now result }
    ensures spent { (knows pass.new).spent ≡ spent_after (knows pass.old).spent result }
{
    for _ in 0..turns {
        if let Some(spent) = tick_once(rt, alloc, hub, pass, nodes, clock) {
            return WorkerEnd::Spent(spent);
        }
    }
    WorkerEnd::TurnsDone
}
