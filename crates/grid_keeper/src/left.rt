//! Tokens that are open after rows were made again.
ghost use Rattle.std.specs.Prelude.{◌≡◌, List, [], None, IfSome, IsSome, OnOk};
ghost use Rattle.std.specs.Ordering.{nat_cmp};
ghost use Rattle.std.specs.BTreeMap.{get};
ghost use Rattle.grid_types.specs.declared.entry.Entry.{Entry};
ghost use Rattle.grid_keeper.specs.Holds.{place_of, Holds, HoldsAll, IsTicket, IsReservation, IsClosing, HasNewTicket, HasReservation, HasEnded, HasExpired, HasGoodTicket, HasGoodClosing, Wanted, HasAll, Grows, but_ticket, but_reservation, but_closing, HasQueued, HasAssigned, HasClosing, HasEndedOne, HasExpiredOne, HasPolled, HasBound};
ghost use Rattle.hub_core.specs.Replies.{enqueued_reply, dispatched_reply, polled_reply, binding_reply};

mod ends;

use grid_types::{NoMemory, ReqNo, SlotId};
use hub_core::{
    Binding, Closing, Dispatched, Ending, Enqueued, Expiring, Polled, Reservation, Ticket,
};
use std::alloc::Global;
use std::collections::BTreeMap;

/// Tokens that were given and not spent: tickets and reservations by the request's number, closings by the slot's.
#[derive(Drop)]
pub struct Left {
    tickets: BTreeMap<ReqNo, Ticket>,
    reservations: BTreeMap<ReqNo, Reservation>,
    closings: BTreeMap<u64, Closing>,
}

/// A number for a slot.
fn place_of(slot: SlotId) -> u64
    ensures { result ≡ place_of slot }
{
    u64::from(slot.node) * 65_536 + u64::from(slot.index)
}

/// The slot's number at its node, which has 16 bits.
fn index_of(slot: SlotId) -> u16
    ensures { result ≡ slot.index }
{
    slot.index
}

impl Left {
    pub(crate) fn new(alloc: Global) -> Left
        ensures { HoldsAll [] result }
    {
        Left {
            tickets: BTreeMap::new(alloc),
            reservations: BTreeMap::new(alloc),
            closings: BTreeMap::new(alloc),
        }
    }

    pub(crate) fn take_ticket(&mut self, request: ReqNo) -> Option<Ticket>
        ensures stays { (H : List Entry) → Holds H self.old → Holds H self.new }
        ensures good { (H : List Entry) → Holds H self.old → IfSome result (λ t. IsTicket H request t) }
        ensures gone { get nat_cmp self.new.tickets request ≡ None }
        ensures none { result ≡ None → get nat_cmp self.old.tickets request ≡ None }
        ensures others { (wanted : Wanted) → HasAll wanted self.old →
            HasAll (but_ticket request wanted) self.new }
    {
        self.tickets.remove(&request)
    }

    pub(crate) fn take_reservation(&mut self, request: ReqNo) -> Option<Reservation>
        ensures stays { (H : List Entry) → Holds H self.old → Holds H self.new }
        ensures good { (H : List Entry) → Holds H self.old → IfSome result (λ t. IsReservation H request t) }
        ensures gone { get nat_cmp self.new.reservations request ≡ None }
        ensures none { result ≡ None → get nat_cmp self.old.reservations request ≡ None }
        ensures others { (wanted : Wanted) → HasAll wanted self.old →
            HasAll (but_reservation request wanted) self.new }
    {
        self.reservations.remove(&request)
    }

    pub(crate) fn take_closing(&mut self, slot: SlotId) -> Option<Closing>
        ensures stays { (H : List Entry) → Holds H self.old → Holds H self.new }
        ensures good { (H : List Entry) → Holds H self.old → IfSome result (λ t. IsClosing H (place_of slot) t) }
        ensures gone { get nat_cmp self.new.closings (place_of slot) ≡ None }
        ensures none { result ≡ None → get nat_cmp self.old.closings (place_of slot) ≡ None }
        ensures others { (wanted : Wanted) → HasAll wanted self.old →
            HasAll (but_closing slot wanted) self.new }
    {
        let _index = index_of(slot);
        self.closings.remove(&place_of(slot))
    }

    /// Keeps a ticket; without memory it is lost.
    fn keep_ticket(&mut self, ticket: Ticket) -> Result<(), NoMemory>
        ensures stays { (H : List Entry) → Holds H self.old → IsTicket H ticket.request ticket →
            Holds H self.new }
        ensures more { Grows self.old self.new }
        ensures has { OnOk result (IsSome (get nat_cmp self.new.tickets ticket.request)) }
    {
        match self.tickets.insert(ticket.request(), ticket) {
            Ok(_) => Ok(()),
            Err(_) => Err(NoMemory),
        }
    }

    /// Keeps a reservation; without memory it is lost.
    fn keep_reservation(&mut self, reservation: Reservation) -> Result<(), NoMemory>
        ensures stays { (H : List Entry) → Holds H self.old →
            IsReservation H reservation.request reservation → Holds H self.new }
        ensures more { Grows self.old self.new }
        ensures has { OnOk result (IsSome (get nat_cmp self.new.reservations reservation.request)) }
        ensures tickets { self.new.tickets ≡ self.old.tickets }
    {
        match self.reservations.insert(reservation.request(), reservation) {
            Ok(_) => Ok(()),
            Err(_) => Err(NoMemory),
        }
    }

    /// Keeps a closing; without memory it is lost.
    fn keep_closing(&mut self, closing: Closing) -> Result<(), NoMemory>
        ensures stays { (H : List Entry) → Holds H self.old →
            IsClosing H (place_of closing.slot) closing → Holds H self.new }
        ensures more { Grows self.old self.new }
        ensures has { OnOk result (HasClosing self.new closing) }
    {
        match self.closings.insert(place_of(closing.slot()), closing) {
            Ok(_) => Ok(()),
            Err(_) => Err(NoMemory),
        }
    }

    /// Keeps the ticket of a new request. Err: out of memory, also where the answer is so.
    pub(crate) fn keep_enqueued(&mut self, enqueued: Enqueued) -> Result<(), NoMemory>
        ensures stays { (H : List Entry) → Holds H self.old → HasNewTicket H enqueued → Holds H self.new }
        ensures more { Grows self.old self.new }
        ensures has { OnOk result (HasQueued self.new enqueued) }
        ensures some { OnOk result (IsSome (enqueued_reply enqueued)) }
    {
        match enqueued {
            Enqueued::Queued(ticket) => self.keep_ticket(ticket),
            Enqueued::Memory => Err(NoMemory),
            _ => Ok(()),
        }
    }

    /// Keeps the reservation of an assignment.
    pub(crate) fn keep_dispatched(&mut self, dispatched: Dispatched) -> Result<(), NoMemory>
        ensures stays { (H : List Entry) → Holds H self.old → HasReservation H dispatched → Holds H self.new }
        ensures more { Grows self.old self.new }
        ensures has { OnOk result (HasAssigned self.new dispatched) }
        ensures some { OnOk result (IsSome (dispatched_reply dispatched)) }
    {
        match dispatched {
            Dispatched::Assigned(reservation) => self.keep_reservation(reservation),
            Dispatched::Nothing => Ok(()),
            Dispatched::Memory => Err(NoMemory),
        }
    }

    /// Keeps the closing of a session that was ended.
    pub(crate) fn keep_ended(&mut self, ended: Ending) -> Result<(), NoMemory>
        ensures stays { (H : List Entry) → Holds H self.old → HasEnded H ended → Holds H self.new }
        ensures more { Grows self.old self.new }
        ensures has { OnOk result (HasEndedOne self.new ended) }
    {
        match ended {
            Ending::Ended(closing) => self.keep_closing(closing),
            Ending::NoSession => Ok(()),
        }
    }

    /// Keeps the closing of an idle session.
    pub(crate) fn keep_expired(&mut self, expired: Expiring) -> Result<(), NoMemory>
        ensures stays { (H : List Entry) → Holds H self.old → HasExpired H expired → Holds H self.new }
        ensures more { Grows self.old self.new }
        ensures has { OnOk result (HasExpiredOne self.new expired) }
    {
        match expired {
            Expiring::Expired(closing) => self.keep_closing(closing),
            Expiring::Nothing => Ok(()),
        }
    }

    /// Keeps the tokens of the answer to a poll.
    pub(crate) fn keep_polled(&mut self, polled: Polled) -> Result<(), NoMemory>
        ensures stays { (H : List Entry) → Holds H self.old → HasGoodTicket H polled → Holds H self.new }
        ensures more { Grows self.old self.new }
        ensures has { OnOk result (HasPolled self.new polled) }
        ensures some { OnOk result (IsSome (polled_reply polled)) }
    {
        match polled {
            Polled::NotYet(ticket) => self.keep_ticket(ticket),
            Polled::Yours(ticket, reservation) => {
                self.keep_ticket(ticket)?;
                self.keep_reservation(reservation)
            }
            Polled::Settled(_) => Ok(()),
            Polled::Memory(_) => Err(NoMemory),
        }
    }

    /// Keeps the closing of the answer to a bind.
    pub(crate) fn keep_bound(&mut self, bound: Binding) -> Result<(), NoMemory>
        ensures stays { (H : List Entry) → Holds H self.old → HasGoodClosing H bound → Holds H self.new }
        ensures more { Grows self.old self.new }
        ensures has { OnOk result (HasBound self.new bound) }
        ensures some { OnOk result (IsSome (binding_reply bound)) }
    {
        match bound {
            Binding::Bound(_) => Ok(()),
            Binding::Late(closing) => Ok(self.keep_closing(closing)?),
            Binding::NodeGone(closing) => Ok(self.keep_closing(closing)?),
            Binding::Duplicate(closing) => Ok(self.keep_closing(closing)?),
            Binding::Mismatch(closing) => Ok(self.keep_closing(closing)?),
            Binding::Memory(reservation, _) => {
                self.keep_reservation(reservation)?;
                Err(NoMemory)
            }
        }
    }
}
