//! The steps of a worker that shares its thread with others.
ghost use Rattle.std.specs.Prelude.{◌≡◌, List, None, Some, true};
ghost use Rattle.hub_cell.specs.declared.hub.SharedHub.{SharedHub};
ghost use Rattle.hub_cell.specs.Passes.{knows};
ghost use Rattle.node_client.specs.Steps.{Step};
ghost use Rattle.node_client.specs.Carrying.{Exchange, awaited, is_fresh};
ghost use Rattle.hub_workers.specs.Benches.{Attends};
ghost use Rattle.hub_workers.specs.Carried.{IsUnder};
ghost use Rattle.hub_workers.specs.SharedClock.{Asked, Remembers};
ghost use Rattle.hub_workers.specs.WorkStages.{WorkGoes, Works};
ghost use Rattle.hub_workers.specs.declared.work_steps.WorkStage.TheVariants as stages;

use crate::acts::WorkAct;
use crate::bench::{Bench, tell, wait};
use crate::working::PAUSE_MS;
use grid_outside::{Clock, NodeLine};
use grid_types::Spent;
use hub_cell::SharedHub;
use hub_core::Dispatched;
use node_client::{Carry, CarryAnswer, CarryWant};
use std::alloc::Global;
use std::sync::Wait;

/// What a worker is at.
#[derive(Drop)]
pub enum WorkStage {
    /// Its last turn is over, and the next has not begun.
    Between,
    /// A start, of which no exchange is under way.
    Starting(Carry),
    /// A start of which one is.
    Asking(Carry),
    /// Nothing was assigned to it.
    Pausing,
    Over(Spent),
}

/// Asks the hub for the next assignment.
fn seek<R: Wait, N: NodeLine + Drop, C: Clock>(
    rt: &R,
    alloc: Global,
    hub: &SharedHub,
    bench: &mut Bench<N, C>,
    clock: &mut C,
) -> (WorkStage, WorkAct)
    requires attends { Attends hub.now C.gives C.view clock.old bench.old }
    ensures attends { Attends hub.now C.gives C.view clock.new bench.new }
    ensures asked { Asked C.gives C.view clock.old clock.new }
    ensures goes { WorkGoes hub.now N.state N.gives N.asks C.gives C.view clock.new
        stages.Between bench.old result bench.new }
{
    let at = tell(clock, &mut bench.moment, &mut bench.last);
    match hub.dispatch(rt, &mut bench.pass, at) {
        Ok(Dispatched::Assigned(reservation)) => (
            WorkStage::Starting(Carry::new(alloc, reservation)),
            WorkAct::GoesOn,
        ),
        Ok(Dispatched::Nothing) => (WorkStage::Pausing, WorkAct::GoesOn),
        Ok(Dispatched::Memory) => (WorkStage::Pausing, WorkAct::GoesOn),
        Err(spent) => (WorkStage::Over(spent), WorkAct::Over(spent)),
    }
}

/// A start that goes on no more: what it holds is let go.
fn let_go(carry: Carry) {
    drop(carry);
}

/// Does what the start wants. An exchange of it may take so long.
fn start_on<R: Wait, N: NodeLine + Drop, C: Clock>(
    rt: &R,
    alloc: Global,
    hub: &SharedHub,
    bench: &mut Bench<N, C>,
    clock: &mut C,
    mut carry: Carry,
    start_ms: u64,
) -> (WorkStage, WorkAct)
    requires attends { Attends hub.now C.gives C.view clock.old bench.old }
    requires fresh { is_fresh carry ≡ true }
    requires under { IsUnder carry (knows bench.old.pass) }
    requires idle { N.asks bench.old.nodes None }
    ensures attends { Attends hub.now C.gives C.view clock.new bench.new }
    ensures asked { Asked C.gives C.view clock.old clock.new }
    ensures goes { WorkGoes hub.now N.state N.gives N.asks C.gives C.view clock.new
        (stages.Starting carry) bench.old result bench.new }
{
    match carry.next() {
        CarryWant::Node { address, request } => {
            bench.nodes.allow(start_ms);
            bench.nodes.ask(alloc, &address, &request);
            (WorkStage::Asking(carry), WorkAct::GoesOn)
        }
        CarryWant::Bind => {
            let (reservation, session, caps) = carry.take_bind();
            let at = tell(clock, &mut bench.moment, &mut bench.last);
            match hub.bind(rt, &mut bench.pass, reservation, session, caps, at) {
                Ok(binding) => {
                    carry.feed(CarryAnswer::Bound(binding));
                    (WorkStage::Starting(carry), WorkAct::GoesOn)
                }
                Err(stopped) => {
                    let spent = stopped.spent;
                    let_go(carry);
                    (WorkStage::Over(spent), WorkAct::Over(spent))
                }
            }
        }
        CarryWant::Fail => {
            let (reservation, why) = carry.take_fail();
            let at = tell(clock, &mut bench.moment, &mut bench.last);
            match hub.fail(rt, &mut bench.pass, reservation, why, at) {
                Ok(failing) => {
                    carry.feed(CarryAnswer::Failed(failing));
                    (WorkStage::Starting(carry), WorkAct::GoesOn)
                }
                Err(stopped) => {
                    let spent = stopped.spent;
                    let_go(carry);
                    (WorkStage::Over(spent), WorkAct::Over(spent))
                }
            }
        }
        CarryWant::Freed => {
            let closing = carry.take_closing();
            let _now = tell(clock, &mut bench.moment, &mut bench.last);
            match hub.freed(rt, &mut bench.pass, closing) {
                Ok(()) => {
                    carry.feed(CarryAnswer::Freed);
                    (WorkStage::Starting(carry), WorkAct::GoesOn)
                }
                Err(stopped) => {
                    let spent = stopped.spent;
                    let_go(carry);
                    (WorkStage::Over(spent), WorkAct::Over(spent))
                }
            }
        }
        CarryWant::Done(_) => {
            let_go(carry);
            (WorkStage::Between, WorkAct::GoesOn)
        }
    }
}

/// Hands the start what came of its exchange, if that is there.
fn hear<N: NodeLine + Drop, C: Clock>(
    alloc: Global,
    bench: &mut Bench<N, C>,
    mut carry: Carry,
) -> (WorkStage, WorkAct)
    requires awaits { awaited carry ≡ Some Exchange }
    ensures attends { (hub : SharedHub) (clock : C) →
        Attends hub C.gives C.view clock bench.old → Attends hub C.gives C.view clock bench.new }
    ensures goes { (hub : SharedHub) (clock : C) →
        WorkGoes hub N.state N.gives N.asks C.gives C.view clock
        (stages.Asking carry) bench.old result bench.new }
{
    match bench.nodes.came(alloc) {
        Some(came) => {
            carry.feed(CarryAnswer::Node(came));
            (WorkStage::Starting(carry), WorkAct::GoesOn)
        }
        None => (WorkStage::Asking(carry), WorkAct::AwaitsNode),
    }
}

/// Ends the pause, where it is over.
fn rest<N: NodeLine + Drop, C: Clock>(
    bench: &mut Bench<N, C>,
    clock: &mut C,
) -> (WorkStage, WorkAct)
    requires { Remembers C.gives C.view clock.old bench.old.moment bench.old.last.value }
    ensures attends { (hub : SharedHub) → Attends hub C.gives C.view clock.old bench.old →
        Attends hub C.gives C.view clock.new bench.new }
    ensures asked { Asked C.gives C.view clock.old clock.new }
    ensures goes { (hub : SharedHub) → WorkGoes hub N.state N.gives N.asks C.gives C.view clock.new
        stages.Pausing bench.old result bench.new }
{
    match wait(clock, &mut bench.moment, &mut bench.last, PAUSE_MS) {
        Some(due) => (WorkStage::Pausing, WorkAct::Until(due)),
        None => (WorkStage::Between, WorkAct::GoesOn),
    }
}

/// Does what the worker is at, where that can be done now. An exchange of a start may take `start_ms` milliseconds.
pub fn work_on<R: Wait, N: NodeLine + Drop, C: Clock>(
    rt: &R,
    alloc: Global,
    hub: &SharedHub,
    bench: &mut Bench<N, C>,
    clock: &mut C,
    stage: WorkStage,
    start_ms: u64,
) -> (WorkStage, WorkAct)
    requires attends { Attends hub.now C.gives C.view clock.old bench.old }
    requires works { (own : List Step) ×
        Works hub.now (N.asks bench.old.nodes) stage (knows bench.old.pass) own }
    ensures attends { Attends hub.now C.gives C.view clock.new bench.new }
    ensures asked { Asked C.gives C.view clock.old clock.new }
    ensures goes { WorkGoes hub.now N.state N.gives N.asks C.gives C.view clock.new
        stage bench.old result bench.new }
{
    match stage {
        WorkStage::Between => seek(rt, alloc, hub, bench, clock),
        WorkStage::Starting(carry) => { start_on(rt, alloc, hub, bench, clock, carry, start_ms) }
        WorkStage::Asking(carry) => hear(alloc, bench, carry),
        WorkStage::Pausing => rest(bench, clock),
        WorkStage::Over(spent) => (WorkStage::Over(spent), WorkAct::Over(spent)),
    }
}
