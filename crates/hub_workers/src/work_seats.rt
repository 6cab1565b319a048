//! A worker that shares its thread with others, and never waits.
ghost use Rattle.std.specs.Prelude.{◌≡◌, None, Some, IfSome};
ghost use Rattle.grid_outside.specs.Told.{untold};
ghost use Rattle.hub_cell.specs.declared.hub.SharedHub.{SharedHub};
ghost use Rattle.hub_cell.specs.Passes.{IsOf, knows};
ghost use Rattle.hub_workers.specs.SharedClock.{Asked};
ghost use Rattle.hub_workers.specs.World.{world_of};
ghost use Rattle.hub_workers.specs.WorkSeats.{WorkDid, HasWorked, IsAtWork, WorksOn, end_of, first_of, nodes_of, pass_of};
ghost use Rattle.hub_workers.specs.declared.ends.WorkerEnd.TheVariants as ends;
ghost use Rattle.hub_workers.specs.declared.work_seats.WorkSeat.{WorkSeat};

use crate::acts::WorkAct;
use crate::bench::Bench;
use crate::ends::WorkerEnd;
use crate::work_steps::{WorkStage, work_on};
use grid_outside::{Clock, NodeLine};
use hub_cell::{Pass, SharedHub};
use std::alloc::Global;
use std::snapshot::Snapshot;
use std::sync::Wait;

/// A worker with its pass and what reaches its nodes, which makes its turns step by step. It shares its thread's clock with others.
#[derive(Drop)]
pub struct WorkSeat<N: Drop, C> {
    bench: Bench<N, C>,
    stage: WorkStage,
    /// How long an exchange of a start may take, in milliseconds.
    start_ms: u64,
    /// All as it was when it began, which no code can read.
    first: Snapshot<Bench<N, C>>,
}

/// The stage that comes next. That before it was taken out, so nothing of worth is let go.
fn put(stage: &mut WorkStage, next: WorkStage)
    ensures { stage.new ≡ next }
{
    *stage = next;
}

impl<N: NodeLine + Drop, C: Clock> WorkSeat<N, C> {
    /// A worker that begins now, between turns. An exchange of its starts may take `start_ms` milliseconds, where its line to the
    /// nodes doesn't give up before. Takes no memory.
    pub fn new(pass: Pass, nodes: N, clock: &mut C, start_ms: u64) -> WorkSeat<N, C>
        requires idle { N.asks nodes None }
        ensures at_work { (hub : SharedHub) → IsOf hub pass →
            IsAtWork hub N.state N.gives N.asks C.gives C.view clock.new result }
        ensures first { first_of N.state C.view result
            ≡ world_of (knows pass) (N.state nodes) clock.new (untold (C.view clock.new).moment) }
        ensures begins { end_of result ≡ Some ends.TurnsDone }
        ensures asked { Asked C.gives C.view clock.old clock.new }
    {
        let bench = Bench::new(pass, nodes, clock);
        let first = Snapshot::of(&bench);
        WorkSeat {
            bench,
            stage: WorkStage::Between,
            start_ms,
            first,
        }
    }

    /// Does what it is at, where that can be done now. It may be called at any time, and waits for nothing.
    pub fn step<R: Wait>(
        &mut self,
        rt: &R,
        alloc: Global,
        hub: &SharedHub,
        clock: &mut C,
    ) -> WorkAct
        requires at_work { IsAtWork hub.now N.state N.gives N.asks C.gives C.view clock.old self.old }
        ensures on { WorksOn hub.now N.state N.gives N.asks C.gives C.view clock.new self.old self.new }
        ensures did { WorkDid hub.now N.state N.gives C.gives C.view clock.new self.old result self.new }
        ensures asked { Asked C.gives C.view clock.old clock.new }
    {
        let stage = std::mem::replace(&mut self.stage, WorkStage::Between);
        let (next, act) = work_on(rt, alloc, hub, &mut self.bench, clock, stage, self.start_ms);
        put(&mut self.stage, next);
        act
    }

    /// Where its last turn is over, that all that it did since it began are so many turns, as a worker makes them that has its
    /// thread to itself; the last of them found the hub spent, where that is answered. None is in the midst of a turn.
    pub fn result(&self) -> Option<WorkerEnd>
        ensures ended { result ≡ end_of self.now }
        ensures turns { (hub : SharedHub) (clock : C) →
            IsAtWork hub N.state N.gives N.asks C.gives C.view clock self.now →
            IfSome result (HasWorked hub N.state N.gives C.gives C.view self.now) }
    {
        match &self.stage {
            WorkStage::Between => Some(WorkerEnd::TurnsDone),
            WorkStage::Over(spent) => Some(WorkerEnd::Spent(*spent)),
            _ => None,
        }
    }

    /// What reaches its nodes.
    pub fn nodes(&self) -> &N
        ensures { result.now ≡ nodes_of self.now }
    {
        &self.bench.nodes
    }

    /// Its pass. What was under way is let go.
    pub fn into_pass(self) -> Pass
        ensures { result ≡ pass_of self }
    {
        let WorkSeat { bench, .. } = self;
        let Bench { pass, .. } = bench;
        pass
    }
}

/// Each worker stays at work where others ask the clock on: it is told a moment that the clock gives then.
pub fn workers_stay_at_work<N: NodeLine + Drop, C: Clock>()
    ensures { (hub : SharedHub) (seat : WorkSeat N C) (clock later : C) →
        Asked C.gives C.view clock later →
        IsAtWork hub N.state N.gives N.asks C.gives C.view clock seat →
        IsAtWork hub N.state N.gives N.asks C.gives C.view later seat }
{}
