//! Tokens that are taken out one after the other.
ghost use Rattle.std.specs.Prelude.{◌≡◌};
ghost use Rattle.grid_keeper.specs.Holds.{PopsClosing, PopsReservation, PopsTicket};

use crate::left::{Left, index_of, place_of};
use grid_types::{NoMemory, ReqNo};
use hub_core::{Closing, Reservation, Ticket};
use std::alloc::Global;
use std::collections::BTreeMap;

impl Left {
    /// The requests of the reservations by the numbers of their slots.
    pub(crate) fn by_slot(&self, alloc: Global) -> Result<BTreeMap<u64, ReqNo>, NoMemory> {
        let mut order = BTreeMap::new(alloc);
        for (request, reservation) in self.reservations.iter() {
            if order
                .insert(place_of(reservation.slot()), *request)
                .is_err()
            {
                return Err(NoMemory);
            }
        }
        Ok(order)
    }

    /// A ticket, if there is one: that with the least number.
    pub(crate) fn pop_ticket(&mut self) -> Option<Ticket>
        ensures pops { PopsTicket self.old result self.new }
        ensures reservations { self.new.reservations ≡ self.old.reservations }
        ensures closings { self.new.closings ≡ self.old.closings }
    {
        match self.tickets.pop_first() {
            Some((_, ticket)) => Some(ticket),
            None => None,
        }
    }

    /// A reservation, if there is one: that of the least request.
    fn pop_reservation(&mut self) -> Option<Reservation>
        ensures { PopsReservation self.old result self.new }
    {
        match self.reservations.pop_first() {
            Some((_, reservation)) => Some(reservation),
            None => None,
        }
    }

    /// The first reservation of the order that is there, or else any.
    pub(crate) fn pop_by(&mut self, order: &mut BTreeMap<u64, ReqNo>) -> Option<Reservation>
        ensures { PopsReservation self.old result self.new }
    {
        let Some((_, request)) = order.pop_first() else {
            return self.pop_reservation();
        };
        match self.take_reservation(request) {
            Some(reservation) => Some(reservation),
            None => self.pop_reservation(),
        }
    }

    /// A closing, if there is one: that of the least slot.
    pub(crate) fn pop_closing(&mut self) -> Option<Closing>
        ensures pops { PopsClosing self.old result self.new }
        ensures reservations { self.new.reservations ≡ self.old.reservations }
    {
        match self.closings.pop_first() {
            Some((_, closing)) => {
                let _index = index_of(closing.slot());
                Some(closing)
            }
            None => None,
        }
    }
}
