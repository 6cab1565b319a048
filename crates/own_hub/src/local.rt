//! The hub of one thread itself, which has no faults.
ghost use Rattle.own_hub.specs.LocalOwn.{local_own};

use crate::own::{NoFault, OwnHub};
use grid_types::{
    Caps, Choices, Entry, FailWhy, Found, Moment, NoMemory, NodeNo, Registration, ReqNo, SessionId,
    Text, View,
};
use hub_core::{
    Beating, Binding, Closing, Draining, Ending, Enqueued, Expiring, Failing, LocalHub, Polled,
    Registering, Removal, Reservation, Swept, Ticket, Touching,
};

impl OwnHub for LocalHub {
    type Fault = NoFault;

    ghost own = { local_own };

    fn journal(&self) -> &[Entry] {
        LocalHub::journal(self)
    }

    fn has_room(&mut self) -> bool {
        self.room().is_ok()
    }

    fn register(&mut self, node: Registration, at: Moment) -> Result<Registering, NoFault> {
        Ok(LocalHub::register(self, node, at))
    }

    fn beat(&mut self, node: NodeNo, at: Moment) -> Result<Beating, NoFault> {
        Ok(LocalHub::beat(self, node, at))
    }

    fn beat_as(&mut self, node: NodeNo, name: &Text, at: Moment) -> Result<Beating, NoFault> {
        Ok(LocalHub::beat_as(self, node, name, at))
    }

    fn drain(&mut self, node: NodeNo, at: Moment) -> Result<Draining, NoFault> {
        Ok(LocalHub::drain(self, node, at))
    }

    fn remove(&mut self, node: NodeNo, at: Moment) -> Result<Removal, NoFault> {
        Ok(LocalHub::remove(self, node, at))
    }

    fn enqueue(&mut self, choices: Choices, at: Moment) -> Result<Enqueued, NoFault> {
        Ok(LocalHub::enqueue(self, choices, at))
    }

    fn poll(&mut self, ticket: Ticket, at: Moment) -> Result<Polled, NoFault> {
        Ok(LocalHub::poll(self, ticket, at))
    }

    fn bind(
        &mut self,
        reservation: Reservation,
        session: SessionId,
        caps: Caps,
        at: Moment,
    ) -> Result<Binding, NoFault> {
        Ok(LocalHub::bind(self, reservation, session, caps, at))
    }

    fn fail(
        &mut self,
        reservation: Reservation,
        why: FailWhy,
        at: Moment,
    ) -> Result<Failing, NoFault> {
        Ok(LocalHub::fail(self, reservation, why, at))
    }

    fn lookup(&self, session: &SessionId) -> Found {
        LocalHub::lookup(self, session)
    }

    fn touch(
        &mut self,
        session: &SessionId,
        binding: ReqNo,
        at: Moment,
    ) -> Result<Touching, NoFault> {
        Ok(LocalHub::touch(self, session, binding, at))
    }

    fn end(&mut self, session: &SessionId, binding: ReqNo, at: Moment) -> Result<Ending, NoFault> {
        Ok(LocalHub::end(self, session, binding, at))
    }

    fn freed(&mut self, closing: Closing) -> Result<(), NoFault> {
        LocalHub::freed(self, closing);
        Ok(())
    }

    fn sweep(&mut self, at: Moment) -> Result<Swept, NoFault> {
        Ok(LocalHub::sweep(self, at))
    }

    fn expire(&mut self, at: Moment) -> Result<Expiring, NoFault> {
        Ok(LocalHub::expire(self, at))
    }

    fn clear(&mut self, at: Moment) -> Result<u32, NoFault> {
        Ok(LocalHub::clear(self, at))
    }

    fn view(&self) -> Result<View, NoMemory> {
        LocalHub::view(self)
    }
}
