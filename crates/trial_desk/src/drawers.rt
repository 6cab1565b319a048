//! Tokens that were given and not spent.
ghost use Rattle.std.specs.Prelude.{◌≡◌, List, [], None, IfSome};
ghost use Rattle.std.specs.Ordering.{nat_cmp};
ghost use Rattle.std.specs.BTreeMap.{get};
ghost use Rattle.grid_types.specs.declared.entry.Entry.{Entry};
ghost use Rattle.trial_desk.specs.Holds.{place_of, Holds, IsTicket, IsReservation, IsClosing, HasNewTicket, HasReservation, HasEnded, HasExpired, HasGoodTicket, HasOwnTicket, HasGoodClosing};

use crate::answers::{Answer, Closed, Fault, Held};
use grid_types::{ReqNo, SlotId};
use hub_core::{
    Binding, Closing, Dispatched, Ending, Enqueued, Expiring, Polled, Reservation, Ticket,
    Withdrawing,
};
use std::alloc::Global;
use std::collections::BTreeMap;

/// The tokens by their numbers: tickets and reservations by the request's, closings by the slot's.
#[derive(Drop)]
pub(crate) struct Drawers {
    tickets: BTreeMap<ReqNo, Ticket>,
    reservations: BTreeMap<ReqNo, Reservation>,
    closings: BTreeMap<u64, Closing>,
}

/// A number for a slot.
fn place_of(slot: SlotId) -> u64
    ensures { result ≡ place_of slot }
{
    u64::from(slot.node) * 65_536 + u64::from(slot.index)
}

impl Drawers {
    pub(crate) fn new(alloc: Global) -> Drawers
        ensures { Holds [] result }
    {
        Drawers {
            tickets: BTreeMap::new(alloc),
            reservations: BTreeMap::new(alloc),
            closings: BTreeMap::new(alloc),
        }
    }

    pub(crate) fn take_ticket(&mut self, request: ReqNo) -> Option<Ticket>
        ensures stays { (H : List Entry) → Holds H self.old → Holds H self.new }
        ensures good { (H : List Entry) → Holds H self.old →
            IfSome result (λ t. IsTicket H request t) }
        ensures gone { get nat_cmp self.new.tickets request ≡ None }
    {
        self.tickets.remove(&request)
    }

    pub(crate) fn take_reservation(&mut self, request: ReqNo) -> Option<Reservation>
        ensures stays { (H : List Entry) → Holds H self.old → Holds H self.new }
        ensures good { (H : List Entry) → Holds H self.old →
            IfSome result (λ t. IsReservation H request t) }
        ensures gone { get nat_cmp self.new.reservations request ≡ None }
    {
        self.reservations.remove(&request)
    }

    pub(crate) fn take_closing(&mut self, slot: SlotId) -> Option<Closing>
        ensures stays { (H : List Entry) → Holds H self.old → Holds H self.new }
        ensures good { (H : List Entry) → Holds H self.old →
            IfSome result (λ t. IsClosing H (place_of slot) t) }
        ensures gone { get nat_cmp self.new.closings (place_of slot) ≡ None }
    {
        self.closings.remove(&place_of(slot))
    }

    /// Keeps a ticket; without memory it is lost.
    pub(crate) fn keep_ticket(&mut self, ticket: Ticket) -> Result<(), Fault>
        ensures { (H : List Entry) → Holds H self.old → IsTicket H ticket.request ticket →
            Holds H self.new }
    {
        match self.tickets.insert(ticket.request(), ticket) {
            Ok(_) => Ok(()),
            Err(_) => Err(Fault::Memory),
        }
    }

    /// Keeps a reservation; without memory it is lost.
    pub(crate) fn keep_reservation(&mut self, reservation: Reservation) -> Result<(), Fault>
        ensures { (H : List Entry) → Holds H self.old →
            IsReservation H reservation.request reservation → Holds H self.new }
    {
        match self.reservations.insert(reservation.request(), reservation) {
            Ok(_) => Ok(()),
            Err(_) => Err(Fault::Memory),
        }
    }

    /// Keeps a closing, and tells what it tells; without memory it is lost.
    pub(crate) fn keep_closing(&mut self, closing: Closing) -> Result<Closed, Fault>
        ensures { (H : List Entry) → Holds H self.old →
            IsClosing H (place_of closing.slot) closing → Holds H self.new }
    {
        let told = Closed::of(&closing);
        match self.closings.insert(place_of(closing.slot()), closing) {
            Ok(_) => Ok(told),
            Err(_) => Err(Fault::Memory),
        }
    }

    /// Keeps the ticket of a new request.
    pub(crate) fn keep_enqueued(&mut self, enqueued: Enqueued) -> Result<Answer, Fault>
        ensures { (H : List Entry) → Holds H self.old → HasNewTicket H enqueued → Holds H self.new }
    {
        match enqueued {
            Enqueued::Queued(ticket) => {
                let (request, deadline) = (ticket.request(), ticket.deadline());
                self.keep_ticket(ticket)?;
                Ok(Answer::Queued { request, deadline })
            }
            Enqueued::Unsupported => Ok(Answer::Unsupported),
            Enqueued::QueueFull { count, bytes } => Ok(Answer::QueueFull { count, bytes }),
            Enqueued::NumbersSpent => Ok(Answer::NumbersSpent),
            Enqueued::Memory => Err(Fault::Memory),
        }
    }

    /// Keeps the reservation of an assignment.
    pub(crate) fn keep_dispatched(&mut self, dispatched: Dispatched) -> Result<Answer, Fault>
        ensures { (H : List Entry) → Holds H self.old → HasReservation H dispatched →
            Holds H self.new }
    {
        match dispatched {
            Dispatched::Assigned(reservation) => {
                let held = Held::of(&reservation);
                self.keep_reservation(reservation)?;
                Ok(Answer::Assigned(held))
            }
            Dispatched::Nothing => Ok(Answer::Nothing),
            Dispatched::Memory => Err(Fault::Memory),
        }
    }

    /// Keeps the closing of a session that was ended.
    pub(crate) fn keep_ended(&mut self, ended: Ending) -> Result<Answer, Fault>
        ensures { (H : List Entry) → Holds H self.old → HasEnded H ended → Holds H self.new }
    {
        match ended {
            Ending::Ended(closing) => Ok(Answer::Ended(self.keep_closing(closing)?)),
            Ending::NoSession => Ok(Answer::NoSession),
        }
    }

    /// Keeps the closing of an idle session.
    pub(crate) fn keep_expired(&mut self, expired: Expiring) -> Result<Answer, Fault>
        ensures { (H : List Entry) → Holds H self.old → HasExpired H expired → Holds H self.new }
    {
        match expired {
            Expiring::Expired(closing) => Ok(Answer::Expired(self.keep_closing(closing)?)),
            Expiring::Nothing => Ok(Answer::Nothing),
        }
    }

    /// Keeps the tokens of the answer to a poll.
    pub(crate) fn keep_polled(&mut self, polled: Polled) -> Result<Answer, Fault>
        ensures { (H : List Entry) → Holds H self.old → HasGoodTicket H polled → Holds H self.new }
    {
        match polled {
            Polled::NotYet(ticket) => {
                self.keep_ticket(ticket)?;
                Ok(Answer::NotYet)
            }
            Polled::Yours(ticket, reservation) => {
                let held = Held::of(&reservation);
                self.keep_ticket(ticket)?;
                self.keep_reservation(reservation)?;
                Ok(Answer::Yours(held))
            }
            Polled::Settled(outcome) => Ok(Answer::Settled(outcome)),
            Polled::Memory(ticket) => {
                self.keep_ticket(ticket)?;
                Err(Fault::Memory)
            }
        }
    }

    /// Keeps the ticket of a request that is not given up yet.
    pub(crate) fn keep_withdrawing(&mut self, withdrawing: Withdrawing) -> Result<Answer, Fault>
        ensures { (H : List Entry) → Holds H self.old → HasOwnTicket H withdrawing →
            Holds H self.new }
    {
        match withdrawing {
            Withdrawing::Withdrawn => Ok(Answer::Withdrawn),
            Withdrawing::Settled(outcome) => Ok(Answer::Settled(outcome)),
            Withdrawing::NotYet(ticket) => {
                self.keep_ticket(ticket)?;
                Ok(Answer::NotYet)
            }
        }
    }

    /// Keeps the tokens of the answer to a bind.
    pub(crate) fn keep_bound(&mut self, bound: Binding) -> Result<Answer, Fault>
        ensures { (H : List Entry) → Holds H self.old → HasGoodClosing H bound → Holds H self.new }
    {
        match bound {
            Binding::Bound(request) => Ok(Answer::Bound(request)),
            Binding::Late(closing) => Ok(Answer::Late(self.keep_closing(closing)?)),
            Binding::NodeGone(closing) => Ok(Answer::NodeGone(self.keep_closing(closing)?)),
            Binding::Duplicate(closing) => Ok(Answer::Duplicate(self.keep_closing(closing)?)),
            Binding::Mismatch(closing) => Ok(Answer::Mismatch(self.keep_closing(closing)?)),
            Binding::Memory(reservation, _) => {
                self.keep_reservation(reservation)?;
                Err(Fault::Memory)
            }
        }
    }
}
