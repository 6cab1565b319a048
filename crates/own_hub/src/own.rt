//! The calls of a hub of one caller.
ghost use Rattle.std.specs.Prelude.{◌≡◌, ℕ, true, None, Some, IfOk, IsTrue};
ghost use Rattle.grid_types.specs.Calls.{Call, Reply};
ghost use Rattle.grid_types.specs.Legal.{legal};
ghost use Rattle.hub_core.specs.HubView.{past, ServesLocally};
ghost use Rattle.hub_core.specs.Replies.{KeepsRegistration, KeepsReservation, KeepsTicket, beating_reply, binding_reply, draining_reply, ending_reply, enqueued_reply, expiring_reply, failing_reply, polled_reply, registering_reply, removal_reply, swept_reply, touching_reply, viewed_reply};
ghost use Rattle.hub_core.specs.Serves.{MayCall};
ghost use Rattle.own_hub.specs.Own.{AnswersOrStops, Own, Roomed, cleared_reply, freed_reply};

use grid_types::{
    Caps, Choices, Entry, FailWhy, Found, Moment, NoMemory, NodeNo, Registration, ReqNo, SessionId,
    Text, View,
};
use hub_core::{
    Beating, Binding, Closing, Draining, Ending, Enqueued, Expiring, Failing, Polled, Registering,
    Removal, Reservation, Swept, Ticket, Touching,
};

/// No fault.
#[derive(Clone, Copy)]
pub enum NoFault {}

/// A hub of one caller that answers as the hub of one thread. After a fault it takes no calls.
pub trait OwnHub {
    /// Why it takes no calls any more.
    type Fault;

    /// What is told of it.
    ghost own: { Own Self Self.Fault };

    /// All entries, the oldest first.
    fn journal(&self) -> &[Entry]
        ensures { legal (own.shown self.now).config (past (own.shown self.now)) ≡ true };

    /// Takes the memory of the journal for one next call, and for what spends the tokens that this call gives.
    fn has_room(&mut self) -> bool
        requires { own.IsOpen self.old }
        ensures { Roomed own result self.old self.new };

    /// Lists a node.
    fn register(&mut self, node: Registration, at: Moment) -> Result<Registering, Self::Fault>
        requires open { own.IsOpen self.old }
        requires room { IsTrue (own.shown self.old).room }
        requires may { MayCall (past (own.shown self.old)) 0 (Call.register node) }
        ensures answers { AnswersOrStops own registering_reply
            self.old (Call.register node) at.0 result self.new }
        ensures back { IfOk result (λ answer. KeepsRegistration node answer) };

    /// Notes that a registered node is there.
    fn beat(&mut self, node: NodeNo, at: Moment) -> Result<Beating, Self::Fault>
        requires open { own.IsOpen self.old }
        requires room { IsTrue (own.shown self.old).room }
        ensures { AnswersOrStops own beating_reply
            self.old (Call.beat node None) at.0 result self.new };

    /// Notes that a node is there that told its name.
    fn beat_as(&mut self, node: NodeNo, name: &Text, at: Moment) -> Result<Beating, Self::Fault>
        requires open { own.IsOpen self.old }
        requires room { IsTrue (own.shown self.old).room }
        ensures { AnswersOrStops own beating_reply
            self.old (Call.beat node (Some name.now)) at.0 result self.new };

    /// Lets a registered node take no new session.
    fn drain(&mut self, node: NodeNo, at: Moment) -> Result<Draining, Self::Fault>
        requires open { own.IsOpen self.old }
        requires room { IsTrue (own.shown self.old).room }
        ensures { AnswersOrStops own draining_reply
            self.old (Call.drain node) at.0 result self.new };

    /// Takes a registered node off.
    fn remove(&mut self, node: NodeNo, at: Moment) -> Result<Removal, Self::Fault>
        requires open { own.IsOpen self.old }
        requires room { IsTrue (own.shown self.old).room }
        ensures { AnswersOrStops own removal_reply
            self.old (Call.remove node) at.0 result self.new };

    /// Queues a request.
    fn enqueue(&mut self, choices: Choices, at: Moment) -> Result<Enqueued, Self::Fault>
        requires open { own.IsOpen self.old }
        requires room { IsTrue (own.shown self.old).room }
        ensures { AnswersOrStops own enqueued_reply
            self.old (Call.enqueue choices) at.0 result self.new };

    /// How the ticket's request stands.
    fn poll(&mut self, ticket: Ticket, at: Moment) -> Result<Polled, Self::Fault>
        requires open { own.IsOpen self.old }
        requires may { MayCall (past (own.shown self.old)) 0 (Call.poll ticket) }
        ensures answers { AnswersOrStops own polled_reply
            self.old (Call.poll ticket) at.0 result self.new }
        ensures back { IfOk result (λ answer. KeepsTicket ticket answer) };

    /// Keeps a session that was started in the reservation's slot.
    fn bind(
        &mut self,
        reservation: Reservation,
        session: SessionId,
        caps: Caps,
        at: Moment,
    ) -> Result<Binding, Self::Fault>
        requires open { own.IsOpen self.old }
        requires may { MayCall (past (own.shown self.old)) 0 (Call.bind reservation session caps) }
        ensures answers { AnswersOrStops own binding_reply
            self.old (Call.bind reservation session caps) at.0 result self.new }
        ensures back { IfOk result (λ answer. KeepsReservation reservation session answer) };

    /// Notes that the start in the reservation's slot failed.
    fn fail(
        &mut self,
        reservation: Reservation,
        why: FailWhy,
        at: Moment,
    ) -> Result<Failing, Self::Fault>
        requires open { own.IsOpen self.old }
        requires may { MayCall (past (own.shown self.old)) 0 (Call.fail reservation why) }
        ensures { AnswersOrStops own failing_reply
            self.old (Call.fail reservation why) at.0 result self.new };

    /// Where the session is live.
    fn lookup(&self, session: &SessionId) -> Found
        requires { own.IsOpen self.now }
        ensures { (at : ℕ) → ServesLocally (own.shown self.now) (Call.lookup session.now) at
            (Some (Reply.found result)) (own.shown self.now) };

    /// Notes that a session was used.
    fn touch(
        &mut self,
        session: &SessionId,
        binding: ReqNo,
        at: Moment,
    ) -> Result<Touching, Self::Fault>
        requires open { own.IsOpen self.old }
        requires room { IsTrue (own.shown self.old).room }
        ensures { AnswersOrStops own touching_reply
            self.old (Call.touch session.now binding) at.0 result self.new };

    /// Ends a session.
    fn end(
        &mut self,
        session: &SessionId,
        binding: ReqNo,
        at: Moment,
    ) -> Result<Ending, Self::Fault>
        requires open { own.IsOpen self.old }
        requires room { IsTrue (own.shown self.old).room }
        ensures { AnswersOrStops own ending_reply
            self.old (Call.end session.now binding) at.0 result self.new };

    /// Frees a closing slot.
    fn freed(&mut self, closing: Closing) -> Result<(), Self::Fault>
        requires open { own.IsOpen self.old }
        requires may { MayCall (past (own.shown self.old)) 0 (Call.freed closing) }
        ensures { (at : ℕ) → AnswersOrStops own freed_reply
            self.old (Call.freed closing) at result self.new };

    /// Lapses, suspects, times out and takes off.
    fn sweep(&mut self, at: Moment) -> Result<Swept, Self::Fault>
        requires open { own.IsOpen self.old }
        requires room { IsTrue (own.shown self.old).room }
        ensures { AnswersOrStops own swept_reply self.old Call.sweep at.0 result self.new };

    /// Ends the idle session with the least binding.
    fn expire(&mut self, at: Moment) -> Result<Expiring, Self::Fault>
        requires open { own.IsOpen self.old }
        requires room { IsTrue (own.shown self.old).room }
        ensures { AnswersOrStops own expiring_reply self.old Call.expire at.0 result self.new };

    /// Clears each waiting request from the queue.
    fn clear(&mut self, at: Moment) -> Result<u32, Self::Fault>
        requires open { own.IsOpen self.old }
        requires room { IsTrue (own.shown self.old).room }
        ensures { AnswersOrStops own cleared_reply self.old Call.clear at.0 result self.new };

    /// Shows the listed nodes and the waiting requests, each by number, and whether a session could start now.
    fn view(&self) -> Result<View, NoMemory>
        requires { own.IsOpen self.now }
        ensures { (at : ℕ) → ServesLocally (own.shown self.now) Call.view at
            (viewed_reply result) (own.shown self.now) };
}
