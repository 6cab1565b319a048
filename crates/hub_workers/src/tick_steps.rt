//! The steps of a ticker that shares its thread with others.
ghost use Rattle.std.specs.Prelude.{◌≡◌, List, None};
ghost use Rattle.hub_cell.specs.declared.hub.SharedHub.{SharedHub};
ghost use Rattle.hub_cell.specs.Passes.{knows};
ghost use Rattle.hub_cell.specs.Shared.{HasClosing};
ghost use Rattle.node_client.specs.Steps.{Step};
ghost use Rattle.hub_workers.specs.Benches.{Attends};
ghost use Rattle.hub_workers.specs.SharedClock.{Asked, Remembers};
ghost use Rattle.hub_workers.specs.TickStages.{BeginsToEnd, TickGoes, Ticking, Unanswered};
ghost use Rattle.hub_workers.specs.declared.tick_steps.TickStage.TheVariants as stages;

use crate::acts::WorkAct;
use crate::bench::{Bench, tell, wait};
use crate::ticking::PAUSE_MS;
use grid_outside::{Clock, NodeLine};
use grid_types::Spent;
use hub_cell::{CellFault, SharedHub};
use hub_core::{Closing, Expiring};
use node_client::{SessionPath, quit_request, was_sent};
use std::alloc::Global;
use std::sync::Wait;

/// What a ticker is at.
#[derive(Drop)]
pub enum TickStage {
    /// Its last turn is over, and the next has not begun.
    Between,
    /// It looks for a session that was idle for too long.
    Looking,
    /// The node of an ended session is asked to end it too.
    Asking(Closing),
    /// The slot of an ended session is to be freed. False says that there was no memory to ask its node.
    Freeing(Closing, bool),
    /// No session is idle for too long.
    Pausing,
    Over(Spent),
}

/// Begins a turn with its sweep.
fn sweep<R: Wait, N: NodeLine + Drop, C: Clock>(
    rt: &R,
    hub: &SharedHub,
    bench: &mut Bench<N, C>,
    clock: &mut C,
) -> (TickStage, WorkAct)
    requires attends { Attends hub.now C.gives C.view clock.old bench.old }
    ensures attends { Attends hub.now C.gives C.view clock.new bench.new }
    ensures asked { Asked C.gives C.view clock.old clock.new }
    ensures goes { TickGoes hub.now N.state N.gives N.asks C.gives C.view clock.new
        stages.Between bench.old result bench.new }
{
    let at = tell(clock, &mut bench.moment, &mut bench.last);
    match hub.sweep(rt, &mut bench.pass, at) {
        Ok(_) => (TickStage::Looking, WorkAct::GoesOn),
        Err(CellFault::Memory) => (TickStage::Between, WorkAct::GoesOn),
        Err(CellFault::Spent(spent)) => (TickStage::Over(spent), WorkAct::Over(spent)),
    }
}

/// Begins to end the session at its node, where that is called for.
fn begin_to_end<N: NodeLine>(alloc: Global, closing: Closing, nodes: &mut N) -> TickStage
    requires { N.asks nodes.old None }
    ensures begins { BeginsToEnd (N.asks nodes.new) closing result }
    ensures same { N.state nodes.new ≡ N.state nodes.old }
{
    if closing.quit() {
        let path = SessionPath::of(&closing.session());
        nodes.ask(alloc, &closing.address(), &quit_request(path.as_bytes()));
        return TickStage::Asking(closing);
    }
    TickStage::Freeing(closing, true)
}

/// What comes after a call that was not answered: out of memory the turn is over.
fn unanswered(fault: CellFault) -> (TickStage, WorkAct)
    ensures { Unanswered fault result }
{
    match fault {
        CellFault::Memory => (TickStage::Between, WorkAct::GoesOn),
        CellFault::Spent(spent) => (TickStage::Over(spent), WorkAct::Over(spent)),
    }
}

/// Ends one session that was idle for too long, if there is one.
fn look<R: Wait, N: NodeLine + Drop, C: Clock>(
    rt: &R,
    alloc: Global,
    hub: &SharedHub,
    bench: &mut Bench<N, C>,
    clock: &mut C,
) -> (TickStage, WorkAct)
    requires attends { Attends hub.now C.gives C.view clock.old bench.old }
    requires idle { N.asks bench.old.nodes None }
    ensures attends { Attends hub.now C.gives C.view clock.new bench.new }
    ensures asked { Asked C.gives C.view clock.old clock.new }
    ensures goes { TickGoes hub.now N.state N.gives N.asks C.gives C.view clock.new
        stages.Looking bench.old result bench.new }
{
    let at = tell(clock, &mut bench.moment, &mut bench.last);
    match hub.expire(rt, &mut bench.pass, at) {
        Ok(Expiring::Expired(closing)) => {
            let next = begin_to_end(alloc, closing, &mut bench.nodes);
            (next, WorkAct::GoesOn)
        }
        Ok(Expiring::Nothing) => (TickStage::Pausing, WorkAct::GoesOn),
        Err(fault) => unanswered(fault),
    }
}

/// Takes what came of asking the node, if that is there. Whatever it is, the slot is freed next.
fn hear<N: NodeLine + Drop, C: Clock>(
    alloc: Global,
    bench: &mut Bench<N, C>,
    closing: Closing,
) -> (TickStage, WorkAct)
    ensures attends { (hub : SharedHub) (clock : C) →
        Attends hub C.gives C.view clock bench.old → Attends hub C.gives C.view clock bench.new }
    ensures goes { (hub : SharedHub) (clock : C) →
        TickGoes hub N.state N.gives N.asks C.gives C.view clock
        (stages.Asking closing) bench.old result bench.new }
{
    match bench.nodes.came(alloc) {
        Some(came) => {
            let sent = was_sent(&came);
            (TickStage::Freeing(closing, sent), WorkAct::GoesOn)
        }
        None => (TickStage::Asking(closing), WorkAct::AwaitsNode),
    }
}

/// Frees the slot of a session that has ended.
fn free<R: Wait, N: NodeLine + Drop, C: Clock>(
    rt: &R,
    hub: &SharedHub,
    bench: &mut Bench<N, C>,
    clock: &mut C,
    closing: Closing,
    sent: bool,
) -> (TickStage, WorkAct)
    requires attends { Attends hub.now C.gives C.view clock.old bench.old }
    requires has { HasClosing (knows bench.old.pass) closing }
    ensures attends { Attends hub.now C.gives C.view clock.new bench.new }
    ensures asked { Asked C.gives C.view clock.old clock.new }
    ensures goes { TickGoes hub.now N.state N.gives N.asks C.gives C.view clock.new
        (stages.Freeing closing sent) bench.old result bench.new }
{
    let _now = tell(clock, &mut bench.moment, &mut bench.last);
    match hub.freed(rt, &mut bench.pass, closing) {
        Ok(()) if sent => (TickStage::Looking, WorkAct::GoesOn),
        Ok(()) => (TickStage::Between, WorkAct::GoesOn),
        Err(stopped) => (TickStage::Over(stopped.spent), WorkAct::Over(stopped.spent)),
    }
}

/// Ends the pause, where it is over.
fn rest<N: NodeLine + Drop, C: Clock>(
    bench: &mut Bench<N, C>,
    clock: &mut C,
) -> (TickStage, WorkAct)
    requires { Remembers C.gives C.view clock.old bench.old.moment bench.old.last.value }
    ensures attends { (hub : SharedHub) → Attends hub C.gives C.view clock.old bench.old →
        Attends hub C.gives C.view clock.new bench.new }
    ensures asked { Asked C.gives C.view clock.old clock.new }
    ensures goes { (hub : SharedHub) → TickGoes hub N.state N.gives N.asks C.gives C.view clock.new
        stages.Pausing bench.old result bench.new }
{
    match wait(clock, &mut bench.moment, &mut bench.last, PAUSE_MS) {
        Some(due) => (TickStage::Pausing, WorkAct::Until(due)),
        None => (TickStage::Between, WorkAct::GoesOn),
    }
}

/// Does what the ticker is at, where that can be done now.
pub fn tick_on<R: Wait, N: NodeLine + Drop, C: Clock>(
    rt: &R,
    alloc: Global,
    hub: &SharedHub,
    bench: &mut Bench<N, C>,
    clock: &mut C,
    stage: TickStage,
) -> (TickStage, WorkAct)
    requires attends { Attends hub.now C.gives C.view clock.old bench.old }
    requires ticks { (own : List Step) ×
        Ticking hub.now (N.asks bench.old.nodes) stage (knows bench.old.pass) own }
    ensures attends { Attends hub.now C.gives C.view clock.new bench.new }
    ensures asked { Asked C.gives C.view clock.old clock.new }
    ensures goes { TickGoes hub.now N.state N.gives N.asks C.gives C.view clock.new
        stage bench.old result bench.new }
{
    match stage {
        TickStage::Between => sweep(rt, hub, bench, clock),
        TickStage::Looking => look(rt, alloc, hub, bench, clock),
        TickStage::Asking(closing) => hear(alloc, bench, closing),
        TickStage::Freeing(closing, sent) => free(rt, hub, bench, clock, closing, sent),
        TickStage::Pausing => rest(bench, clock),
        TickStage::Over(spent) => (TickStage::Over(spent), WorkAct::Over(spent)),
    }
}
