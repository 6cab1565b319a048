//! A hub with the tokens that it gave.
ghost use Rattle.std.specs.Prelude.{◌≡◌, true};
ghost use Rattle.grid_types.specs.Permitted.{is_well_sized, is_start_failure};

use crate::answers::{Answer, Fault};
use crate::drawers::Drawers;
use grid_types::{
    Caps, Choices, FailWhy, Found, HubConfig, Moment, NodeNo, Registration, ReqNo, SessionId,
    SlotId,
};
use hub_core::{Beating, Draining, Failing, LocalHub, Registering, Removal, Touching};
use std::alloc::Global;
use std::marker::Model;

/// A hub of one caller that keeps its tokens, so that each call is made by the number of a request or by a slot.
#[derive(Drop)]
pub struct Desk {
    hub: LocalHub,
    drawers: Drawers,
}

impl Model for Desk {
    ghost use Rattle.hub_core.specs.HubView.{HubView, past};
    ghost use Rattle.trial_desk.specs.Holds.{Holds};

    ghost Value = { HubView };

    ghost view = { λ d. d.hub };

    ghost invariant = { λ d. Holds (past d.hub) d.drawers };
}

impl Desk {
    /// A hub without a node or a request.
    pub fn new(alloc: Global, config: HubConfig) -> Result<Desk, Fault> {
        if !config.is_valid() {
            return Err(Fault::NotTaken);
        }
        Ok(Desk {
            hub: LocalHub::new(alloc, config)?,
            drawers: Drawers::new(alloc),
        })
    }

    /// Registers a node. Its moment is in milliseconds, as that of all calls.
    pub fn register(&mut self, node: Registration, at: Moment) -> Result<Answer, Fault>
        requires { is_well_sized node ≡ true }
    {
        self.hub.room()?;
        match self.hub.register(node, at) {
            Registering::Registered(number) => Ok(Answer::Registered(number)),
            Registering::NameTaken(number) => Ok(Answer::NameTaken(number)),
            Registering::NodesFull { listed } => Ok(Answer::NodesFull { listed }),
            Registering::NumbersSpent => Ok(Answer::NumbersSpent),
            Registering::Memory(_) => Err(Fault::Memory),
        }
    }

    /// Queues a request, and keeps its ticket.
    pub fn enqueue(&mut self, choices: Choices, at: Moment) -> Result<Answer, Fault> {
        self.hub.room()?;
        let enqueued = self.hub.enqueue(choices, at);
        self.drawers.keep_enqueued(enqueued)
    }

    /// Asks how the request stands, by its ticket. `NoToken`: the desk has none for it.
    pub fn poll(&mut self, request: ReqNo, at: Moment) -> Result<Answer, Fault> {
        let Some(ticket) = self.drawers.take_ticket(request) else {
            return Err(Fault::NoToken);
        };
        let polled = self.hub.poll(ticket, at);
        self.drawers.keep_polled(polled)
    }

    /// Gives the request up, by its ticket. `NoToken`: the desk has none for it.
    pub fn withdraw(&mut self, request: ReqNo, at: Moment) -> Result<Answer, Fault> {
        let Some(ticket) = self.drawers.take_ticket(request) else {
            return Err(Fault::NoToken);
        };
        let withdrawing = self.hub.withdraw(ticket, at);
        self.drawers.keep_withdrawing(withdrawing)
    }

    /// Binds a session to the slot that is held for the request.
    pub fn bind(
        &mut self,
        request: ReqNo,
        session: SessionId,
        caps: Caps,
        at: Moment,
    ) -> Result<Answer, Fault> {
        let Some(reservation) = self.drawers.take_reservation(request) else {
            return Err(Fault::NoToken);
        };
        let bound = self.hub.bind(reservation, session, caps, at);
        self.drawers.keep_bound(bound)
    }

    /// Tells that the start for the request has failed.
    pub fn fail(&mut self, request: ReqNo, why: FailWhy, at: Moment) -> Result<Answer, Fault>
        requires { is_start_failure why ≡ true }
    {
        let Some(reservation) = self.drawers.take_reservation(request) else {
            return Err(Fault::NoToken);
        };
        Ok(match self.hub.fail(reservation, why, at) {
            Failing::Again => Answer::Again,
            Failing::Refused => Answer::Refused,
            Failing::Late => Answer::FailedLate,
        })
    }

    /// Makes the next assignment, and keeps its reservation.
    pub fn dispatch(&mut self, at: Moment) -> Result<Answer, Fault> {
        let dispatched = self.hub.dispatch(at);
        self.drawers.keep_dispatched(dispatched)
    }

    /// Frees a slot, by its closing. `NoToken`: the desk has none for it.
    pub fn freed(&mut self, slot: SlotId) -> Result<Answer, Fault> {
        let Some(closing) = self.drawers.take_closing(slot) else {
            return Err(Fault::NoToken);
        };
        self.hub.freed(closing);
        Ok(Answer::Freed)
    }

    /// A sign of life of a node.
    pub fn beat(&mut self, node: NodeNo, at: Moment) -> Result<Answer, Fault> {
        self.hub.room()?;
        Ok(match self.hub.beat(node, at) {
            Beating::Beaten => Answer::Beaten,
            Beating::NoNode => Answer::NoNode,
        })
    }

    /// Drains a node: it gets no session more, and is removed by a sweep once it has none.
    pub fn drain(&mut self, node: NodeNo, at: Moment) -> Result<Answer, Fault> {
        self.hub.room()?;
        Ok(match self.hub.drain(node, at) {
            Draining::Draining => Answer::Draining,
            Draining::NoNode => Answer::NoNode,
        })
    }

    /// Takes a node off. Its running sessions go on.
    pub fn remove(&mut self, node: NodeNo, at: Moment) -> Result<Answer, Fault> {
        self.hub.room()?;
        Ok(match self.hub.remove(node, at) {
            Removal::Removed => Answer::Removed,
            Removal::NoNode => Answer::NoNode,
        })
    }

    /// Where the session runs.
    pub fn lookup(&self, session: &SessionId) -> Answer {
        match self.hub.lookup(session) {
            Found::At {
                slot,
                address,
                binding,
            } => Answer::At {
                slot,
                address,
                binding,
            },
            Found::NoSession => Answer::NoSession,
        }
    }

    /// Puts off that the session is idle.
    pub fn touch(
        &mut self,
        session: &SessionId,
        binding: ReqNo,
        at: Moment,
    ) -> Result<Answer, Fault> {
        self.hub.room()?;
        Ok(match self.hub.touch(session, binding, at) {
            Touching::Touched => Answer::Touched,
            Touching::NoSession => Answer::NoSession,
        })
    }

    /// Ends a session for its client, and keeps its closing.
    pub fn end(
        &mut self,
        session: &SessionId,
        binding: ReqNo,
        at: Moment,
    ) -> Result<Answer, Fault> {
        self.hub.room()?;
        let ended = self.hub.end(session, binding, at);
        self.drawers.keep_ended(ended)
    }

    /// Lapses and suspects silent nodes, times overdue requests out and removes drained nodes.
    pub fn sweep(&mut self, at: Moment) -> Result<Answer, Fault> {
        self.hub.room()?;
        let swept = self.hub.sweep(at);
        Ok(Answer::Swept {
            lapsed: swept.lapsed,
            suspected: swept.suspected,
            timed_out: swept.timed_out,
            removed: swept.removed,
        })
    }

    /// Ends one idle session, and keeps its closing.
    pub fn expire(&mut self, at: Moment) -> Result<Answer, Fault> {
        self.hub.room()?;
        let expired = self.hub.expire(at);
        self.drawers.keep_expired(expired)
    }

    /// Clears the queue, and tells how many requests that settled.
    pub fn clear(&mut self, at: Moment) -> Result<Answer, Fault> {
        self.hub.room()?;
        Ok(Answer::Cleared(self.hub.clear(at)))
    }

    /// What the hub shows of itself.
    pub fn view(&self) -> Result<Answer, Fault> {
        Ok(Answer::Viewed(self.hub.view()?))
    }
}
