//! Requests: they are queued, dispatched and polled.
ghost use Rattle.std.specs.Prelude.{◌≡◌, ◌<◌, IfOk, OnOk, vec_len, vec_capacity};
ghost use Rattle.std.specs.List.{slice_get};
ghost use Rattle.grid_types.specs.Calls.{Call};
ghost use Rattle.grid_simulate.specs.World.{world_of};
ghost use Rattle.grid_simulate.specs.Actions.{wanted_browser, choices_of, enqueues, enqueued, dispatched, polled, polled_at};
ghost use Rattle.grid_simulate.specs.Held.{IsSound};

use crate::draws::{count_of, draw, draw_place};
use crate::lists::{put_in, put_last, take_out};
use crate::simulation::Simulation;
use grid_types::{
    Cap, CapValue, Caps, Choices, Moment, NoMemory, Text, chosen_is_first, numbered_one_by_one,
};
use hub_core::{Dispatched, Enqueued, Polled};
use std::alloc::Global;

fn wanted_browser(number: u64) -> &'static str
    ensures { result.now ≡ wanted_browser number }
{
    if number == 0 {
        return "chrome";
    }
    if number == 1 {
        return "firefox";
    }
    if number == 2 {
        return "safari";
    }
    "edge"
}

/// One choice, of this browser alone.
fn choices_of(alloc: Global, browser: &str) -> Result<Choices, NoMemory>
    ensures { IfOk result (λ c. c ≡ choices_of browser.now) }
{
    let mut wanted = Caps::new(alloc);
    let cap = Cap {
        name: Text::of(alloc, "browserName")?,
        value: CapValue::Text(Text::of(alloc, browser)?),
    };
    let Ok(()) = wanted.push(cap) else {
        return Err(NoMemory);
    };
    let Ok(choices) = Choices::one(alloc, wanted) else {
        return Err(NoMemory);
    };
    Ok(choices)
}

impl Simulation {
    /// Queues a request of these choices, and keeps its ticket.
    fn enqueue_choices(&mut self, choices: Choices) -> Result<(), NoMemory>
        requires { IsSound self.old }
        ensures sound { IsSound self.new }
        ensures moment { self.new.moment ≡ self.old.moment }
        ensures acts { OnOk result (world_of self.new
            ≡ enqueues (world_of self.old) (Call.enqueue choices)) }
    {
        self.tickets.reserve(1)?;
        self.hub.room()?;
        // Its history is legal, and a new request has a number of its own.
        let _journal = self.hub.journal();
        numbered_one_by_one();
        match self.hub.enqueue(choices, Moment(self.moment)) {
            Enqueued::Queued(ticket) => {
                put_last(&mut self.tickets, ticket);
                Ok(())
            }
            Enqueued::Memory => Err(NoMemory),
            Enqueued::Unsupported => Ok(()),
            Enqueued::QueueFull { .. } => Ok(()),
            Enqueued::NumbersSpent => Ok(()),
        }
    }

    pub(super) fn enqueue(&mut self, alloc: Global) -> Result<(), NoMemory>
        requires { IsSound self.old }
        ensures sound { IsSound self.new }
        ensures moment { self.new.moment ≡ self.old.moment }
        ensures acts { OnOk result (world_of self.new ≡ enqueued (world_of self.old)) }
    {
        let kind = draw(&mut self.number, 4);
        let browser = wanted_browser(kind);
        let choices = choices_of(alloc, browser)?;
        self.enqueue_choices(choices)
    }

    pub(super) fn dispatch(&mut self) -> Result<(), NoMemory>
        requires { IsSound self.old }
        ensures sound { IsSound self.new }
        ensures moment { self.new.moment ≡ self.old.moment }
        ensures acts { OnOk result (world_of self.new ≡ dispatched (world_of self.old)) }
    {
        self.reservations.reserve(1)?;
        // A reservation has a slot that was free.
        chosen_is_first();
        match self.hub.dispatch(Moment(self.moment)) {
            Dispatched::Assigned(reservation) => {
                put_last(&mut self.reservations, reservation);
                Ok(())
            }
            Dispatched::Nothing => Ok(()),
            Dispatched::Memory => Err(NoMemory),
        }
    }

    /// Polls the ticket at a place. It leaves where its request is settled.
    fn poll_at(&mut self, place: usize) -> Result<(), NoMemory>
        requires sound { IsSound self.old }
        requires within { place < vec_len self.old.tickets }
        ensures sound { IsSound self.new }
        ensures moment { self.new.moment ≡ self.old.moment }
        ensures acts { OnOk result (world_of self.new
            ≡ polled_at (world_of self.old) place (slice_get self.old.tickets.items place)) }
    {
        self.reservations.reserve(1)?;
        // A reservation has a slot that was free.
        chosen_is_first();
        let ticket = take_out(&mut self.tickets, place);
        match self.hub.poll(ticket, Moment(self.moment)) {
            Polled::NotYet(ticket) => {
                put_in(&mut self.tickets, place, ticket);
                Ok(())
            }
            Polled::Yours(ticket, reservation) => {
                put_in(&mut self.tickets, place, ticket);
                put_last(&mut self.reservations, reservation);
                Ok(())
            }
            Polled::Settled(_) => Ok(()),
            Polled::Memory(ticket) => {
                put_in(&mut self.tickets, place, ticket);
                Err(NoMemory)
            }
        }
    }

    pub(super) fn poll_one(&mut self) -> Result<(), NoMemory>
        requires { IsSound self.old }
        ensures sound { IsSound self.new }
        ensures moment { self.new.moment ≡ self.old.moment }
        ensures acts { OnOk result (world_of self.new ≡ polled (world_of self.old)) }
    {
        let count = count_of(&self.tickets);
        if count == 0 {
            return Ok(());
        }
        let place = draw_place(&mut self.number, count);
        self.poll_at(place)
    }
}
