//! The simulation of a number.
ghost use Rattle.std.specs.Prelude.{◌≡◌, ◌<◌, ◌≤◌, [], IfOk, OnOk, vec_len};
ghost use Rattle.hub_core.specs.HubView.{past};
ghost use Rattle.grid_simulate.specs.World.{world_of};
ghost use Rattle.grid_simulate.specs.Simulates.{Steps, IsSimulated, settled};
ghost use Rattle.grid_simulate.specs.Held.{IsSound};
ghost use Rattle.grid_simulate.specs.Settling.{PollsFirst};
ghost use Rattle.std.specs.List.{remove};

use crate::lists::{both, take_out};
use crate::simulation::Simulation;
use crate::summary::Summary;
use grid_types::{Moment, NoMemory};
use hub_core::{LocalHub, Polled};
use std::alloc::Global;

/// How many steps there are.
const STEPS: u64 = 2_000;

/// How long after the last step the tickets that are left are polled, in milliseconds: each request's deadline is past
/// by then.
const WAIT_MS: u64 = 60_000;

/// The simulation of a number.
#[derive(Drop)]
pub struct Simulated {
    /// The hub at the end, with its journal.
    pub hub: LocalHub,
    /// The journal's length at the summary.
    pub at: u64,
    /// The counts over the journal's entries up to there.
    pub summary: Summary,
}

impl Simulation {
    /// All steps, up to the first that finds no memory. Err is out of memory.
    fn run(&mut self, alloc: Global) -> Result<(), NoMemory>
        requires sound { IsSound self.old }
        requires first { self.old.moment ≡ 0 }
        ensures sound { IsSound self.new }
        ensures moment { self.new.moment ≤ 4_000_000 }
        ensures steps { OnOk result (Steps 2_000 (world_of self.old) (world_of self.new)) }
    {
        for done in 0..STEPS {
            self.step(alloc)?;
        }
        Ok(())
    }

    /// Takes the first ticket out and polls it. Err is out of memory.
    fn poll_first(&mut self) -> Result<(), NoMemory>
        requires sound { IsSound self.old }
        requires some { 0 < vec_len self.old.tickets }
        ensures sound { IsSound self.new }
        ensures moment { self.new.moment ≡ self.old.moment }
        ensures rest { self.new.tickets.items ≡ remove self.old.tickets.items 0 }
        ensures polled { OnOk result (PollsFirst self.old.tickets.items (world_of self.old)
            (past self.new.hub)) }
    {
        let ticket = take_out(&mut self.tickets, 0);
        match self.hub.poll(ticket, Moment(self.moment)) {
            Polled::NotYet(_back) => Ok(()),
            Polled::Yours(_back, _reservation) => Ok(()),
            Polled::Settled(_outcome) => Ok(()),
            Polled::Memory(_back) => Err(NoMemory),
        }
    }

    /// Polls each ticket, in order, once all deadlines are past. Err is out of memory.
    fn settle(&mut self) -> Result<(), NoMemory>
        requires sound { IsSound self.old }
        requires moment { self.old.moment ≤ 4_000_000 }
        ensures sound { IsSound self.new }
        ensures none { self.new.tickets.items ≡ [] }
        ensures settled { OnOk result (past self.new.hub ≡ (settled (world_of self.old)).history) }
    {
        self.moment += WAIT_MS;
        let mut full = true;
        'polls: while !self.tickets.is_empty() {
            let polled = self.poll_first().is_ok();
            full = both(polled, full);
        }
        if full { Ok(()) } else { Err(NoMemory) }
    }
}

/// The simulation of a number: eight nodes in memory, two thousand steps that the number determines, and a summary.
/// Then the tokens that are left are spent. After the first that is out of memory no further step is made, the tokens are
/// spent in this way, and the answer is Err.
pub fn simulate(alloc: Global, number: u64) -> Result<Simulated, NoMemory>
    ensures { IfOk result (λ s. IsSimulated number s.hub s.at s.summary) }
{
    let mut simulation = Simulation::new(alloc, number)?;
    let ran = simulation.run(alloc).is_ok();
    let started = simulation.start_all(alloc).is_ok();
    let at = simulation.hub.journal().len() as u64;
    let counted = Summary::of(&simulation.hub);
    let settled = simulation.settle().is_ok();
    let summary = counted?;
    let made = both(started, ran);
    let full = both(settled, made);
    if full {
        return Ok(Simulated {
            hub: simulation.hub,
            at,
            summary,
        });
    }
    Err(NoMemory)
}
