//! One step of a simulation.
ghost use Rattle.std.specs.Prelude.{◌≡◌, ◌<◌, ◌≤◌, ◌+◌, ◌^◌, OnOk};
ghost use Rattle.grid_simulate.specs.World.{world_of};
ghost use Rattle.grid_simulate.specs.Actions.{action_of, Acts};
ghost use Rattle.grid_simulate.specs.Simulates.{StepsOnce};
ghost use Rattle.grid_simulate.specs.Held.{IsSound};

mod nodes;
mod requests;
mod sessions;
mod starts;

use crate::draws::draw;
use crate::simulation::Simulation;
use grid_types::NoMemory;
use std::alloc::Global;

/// What a step does.
#[derive(Clone, Copy)]
enum Action {
    /// A request is queued.
    Enqueue,
    /// A slot is reserved for the request whose turn it is.
    Dispatch,
    /// A reservation is taken out and its start made.
    Start,
    /// A ticket is polled.
    Poll,
    /// A session is taken out and ended.
    End,
    /// The hub sweeps, and idle sessions are ended.
    Sweep,
    /// The queue is cleared, or the nodes give a sign of life.
    Other,
}

fn action_of(number: u64) -> Action
    ensures { result ≡ action_of number }
{
    if number < 4 {
        return Action::Enqueue;
    }
    if number < 6 {
        return Action::Dispatch;
    }
    if number < 8 {
        return Action::Start;
    }
    if number < 9 {
        return Action::Poll;
    }
    if number < 10 {
        return Action::End;
    }
    if number < 11 {
        return Action::Sweep;
    }
    Action::Other
}

impl Simulation {
    fn act(&mut self, alloc: Global, action: Action) -> Result<(), NoMemory>
        requires { IsSound self.old }
        ensures sound { IsSound self.new }
        ensures moment { self.new.moment ≡ self.old.moment }
        ensures acts { OnOk result (Acts action (world_of self.old) (world_of self.new)) }
    {
        match action {
            Action::Enqueue => self.enqueue(alloc),
            Action::Dispatch => self.dispatch(),
            Action::Start => self.start_one(alloc),
            Action::Poll => self.poll_one(),
            Action::End => self.end_one(alloc),
            Action::Sweep => self.sweep(alloc),
            Action::Other => self.clear_or_beat(),
        }
    }

    /// One step. Err is out of memory.
    pub(crate) fn step(&mut self, alloc: Global) -> Result<(), NoMemory>
        requires sound { IsSound self.old }
        requires room { self.old.moment < 2 ^ 62 }
        ensures sound { IsSound self.new }
        ensures moment { self.new.moment < self.old.moment + 2_000 }
        ensures steps { OnOk result (StepsOnce (world_of self.old) (world_of self.new)) }
    {
        let rise = draw(&mut self.number, 2_000);
        self.moment += rise;
        let kind = draw(&mut self.number, 12);
        let action = action_of(kind);
        self.act(alloc, action)
    }
}
