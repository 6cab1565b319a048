//! The hub's calls as a driver makes them.
ghost use Rattle.std.specs.Prelude.{◌≡◌, not, is_some};
ghost use Rattle.hub_core.specs.Replies.{binding_reply};
ghost use Rattle.grid_keeper.specs.Runs.{kept_own};

use crate::kept_hub::{KeptFault, KeptHub};
use grid_types::{
    Caps, Choices, Entry, FailWhy, Found, Moment, NoMemory, NodeNo, Registration, ReqNo, SessionId,
    Text, View,
};
use hub_core::{
    Beating, Binding, Closing, Draining, Ending, Enqueued, Expiring, Failing, Polled, Registering,
    Removal, Reservation, Swept, Ticket, Touching,
};
use own_hub::OwnHub;
use row_keeper::Keeper;

/// Whether a bind found no memory, for its row or for the session.
fn is_memory(answer: &Binding) -> bool
    ensures { result ≡ not (is_some (binding_reply answer.now)) }
{
    matches!(answer, Binding::Memory(_, _))
}

/// A bind that finds no memory closes the hub here: a driver's hub is asked again only for what the hub of one thread lacks, and that of
/// one thread may have lacked nothing.
impl<K: Keeper> OwnHub for KeptHub<K> {
    type Fault = KeptFault;

    ghost own = { kept_own K.disk K.faults };

    fn journal(&self) -> &[Entry] {
        KeptHub::journal(self)
    }

    fn has_room(&mut self) -> bool {
        self.room().is_ok()
    }

    fn register(&mut self, node: Registration, at: Moment) -> Result<Registering, KeptFault> {
        KeptHub::register(self, node, at)
    }

    fn beat(&mut self, node: NodeNo, at: Moment) -> Result<Beating, KeptFault> {
        KeptHub::beat(self, node, at)
    }

    fn beat_as(&mut self, node: NodeNo, name: &Text, at: Moment) -> Result<Beating, KeptFault> {
        KeptHub::beat_as(self, node, name, at)
    }

    fn drain(&mut self, node: NodeNo, at: Moment) -> Result<Draining, KeptFault> {
        KeptHub::drain(self, node, at)
    }

    fn remove(&mut self, node: NodeNo, at: Moment) -> Result<Removal, KeptFault> {
        KeptHub::remove(self, node, at)
    }

    fn enqueue(&mut self, choices: Choices, at: Moment) -> Result<Enqueued, KeptFault> {
        KeptHub::enqueue(self, choices, at)
    }

    fn poll(&mut self, ticket: Ticket, at: Moment) -> Result<Polled, KeptFault> {
        KeptHub::poll(self, ticket, at)
    }

    fn bind(
        &mut self,
        reservation: Reservation,
        session: SessionId,
        caps: Caps,
        at: Moment,
    ) -> Result<Binding, KeptFault> {
        match KeptHub::bind(self, reservation, session, caps, at) {
            Ok(answer) => {
                if is_memory(&answer) {
                    drop(answer);
                    return Err(self.close());
                }
                Ok(answer)
            }
            Err(fault) => Err(fault),
        }
    }

    fn fail(
        &mut self,
        reservation: Reservation,
        why: FailWhy,
        at: Moment,
    ) -> Result<Failing, KeptFault> {
        KeptHub::fail(self, reservation, why, at)
    }

    fn lookup(&self, session: &SessionId) -> Found {
        KeptHub::lookup(self, session)
    }

    fn touch(
        &mut self,
        session: &SessionId,
        binding: ReqNo,
        at: Moment,
    ) -> Result<Touching, KeptFault> {
        KeptHub::touch(self, session, binding, at)
    }

    fn end(
        &mut self,
        session: &SessionId,
        binding: ReqNo,
        at: Moment,
    ) -> Result<Ending, KeptFault> {
        KeptHub::end(self, session, binding, at)
    }

    fn freed(&mut self, closing: Closing) -> Result<(), KeptFault> {
        KeptHub::freed(self, closing)
    }

    fn sweep(&mut self, at: Moment) -> Result<Swept, KeptFault> {
        KeptHub::sweep(self, at)
    }

    fn expire(&mut self, at: Moment) -> Result<Expiring, KeptFault> {
        KeptHub::expire(self, at)
    }

    fn clear(&mut self, at: Moment) -> Result<u32, KeptFault> {
        KeptHub::clear(self, at)
    }

    fn view(&self) -> Result<View, NoMemory> {
        KeptHub::view(self)
    }
}
