//! What each kind of change does to the tables. Without memory there is no more use for them.
ghost use Rattle.std.specs.Prelude.{◌≡◌, ◌≤◌, ℕ, length, true, Some, OnOk, IfOk};
ghost use Rattle.std.specs.Option.{option_copied};
ghost use Rattle.grid_types.specs.declared.entry.Change.TheVariants as change;
ghost use Rattle.grid_types.specs.declared.limits.TheConstants.{MOST_SLOTS};
ghost use Rattle.grid_types.specs.Bindings.{bound_slot};
ghost use Rattle.grid_types.specs.Nodes.{address_of, is_registered, stereotypes};
ghost use Rattle.grid_types.specs.Sessions.{is_live};
ghost use Rattle.grid_ledger.specs.LedgerStands.{LedgerTells, MayNote, Notes};

use crate::ledger::{GridLedger, others_keep};
use grid_types::{
    Caps, Change, Choices, EndCause, FailWhy, Moment, NoMemory, NodeAddress, NodeNo, Registration,
    ReqNo, SessionId, SlotId, request_bytes,
};

impl GridLedger {
    /// A node registered.
    fn note_registered(
        &mut self,
        node: NodeNo,
        registration: &Registration,
        at: Moment,
    ) -> Result<(), NoMemory>
        requires { length (stereotypes registration.now.groups) ≤ MOST_SLOTS }
        ensures { OnOk result ((caller : ℕ) →
            Notes self.old self.new caller (change.Registered node registration.now at)) }
    {
        // For the proof alone: what takes no change of this kind stays as it is.
        others_keep();
        self.slots.registered(node, registration, at)?;
        self.nodes.registered(node, registration, at)?;
        self.next_node = node.saturating_add(1);
        self.clock = self.raised(at);
        Ok(())
    }

    /// A node gave a sign.
    fn note_beaten(&mut self, node: NodeNo, at: Moment)
        ensures { (caller : ℕ) → Notes self.old self.new caller (change.Beaten node at) }
    {
        others_keep();
        self.nodes.beaten(node, at);
        self.clock = self.raised(at);
    }

    /// A node was silent, and takes no new session before its next sign.
    fn note_suspected(&mut self, node: NodeNo, at: Moment)
        ensures { (caller : ℕ) → Notes self.old self.new caller (change.Suspected node at) }
    {
        others_keep();
        self.nodes.suspected(node, at);
        self.clock = self.raised(at);
    }

    /// A node takes no new session from now on.
    fn note_draining(&mut self, node: NodeNo, at: Moment)
        ensures { (caller : ℕ) → Notes self.old self.new caller (change.Draining node at) }
    {
        others_keep();
        self.nodes.draining(node, at);
        self.clock = self.raised(at);
    }

    /// A node was removed.
    fn note_removed(&mut self, node: NodeNo, at: Moment)
        ensures { (caller : ℕ) → Notes self.old self.new caller (change.Removed node at) }
    {
        others_keep();
        self.nodes.removed(node, at);
        self.clock = self.raised(at);
        self.forget_unlisted(node);
    }

    /// A node gave no sign for too long, and with it went the sessions that ran there.
    fn note_lapsed(&mut self, node: NodeNo, at: Moment)
        ensures { (caller : ℕ) → Notes self.old self.new caller (change.Lapsed node at) }
    {
        others_keep();
        self.nodes.lapsed(node, at);
        self.slots.lapsed(node, at);
        self.sessions.lapsed(node, at);
        self.clock = self.raised(at);
        self.forget_unlisted(node);
    }

    /// A request was queued.
    fn note_queued(
        &mut self,
        caller: u64,
        request: ReqNo,
        choices: Choices,
        deadline: Moment,
        at: Moment,
    ) -> Result<(), NoMemory>
        ensures { OnOk result (Notes self.old self.new caller
            (change.Queued request choices deadline at)) }
    {
        others_keep();
        let bytes = request_bytes(choices.items());
        self.requests
            .queued(caller, request, choices, bytes, deadline, at)?;
        self.next_request = request.saturating_add(1);
        self.clock = self.raised(at);
        Ok(())
    }

    /// A slot was reserved for a request.
    fn note_reserved(
        &mut self,
        caller: u64,
        request: ReqNo,
        slot: SlotId,
        choice: u16,
        at: Moment,
    ) -> Result<(), NoMemory>
        ensures { OnOk result (Notes self.old self.new caller
            (change.Reserved request slot choice at)) }
    {
        others_keep();
        self.nodes.reserved(request, slot, choice, at)?;
        self.requests.reserved(request, slot, choice, at)?;
        self.slots.reserved(caller, request, slot, choice, at)?;
        self.clock = self.raised(at);
        Ok(())
    }

    /// The address of a registered node.
    fn address_of(&self, node: NodeNo) -> Result<NodeAddress, NoMemory>
        ensures { IfOk result (λ a. LedgerTells self.now
            (λ H. is_registered H node ≡ true → a ≡ address_of H node)) }
    {
        match self.nodes.registration(node) {
            Some(registration) => Ok(registration.address),
            // This does not happen: a session is bound on a registered node alone.
            None => Err(NoMemory),
        }
    }

    /// A session was bound to a slot.
    fn note_bound(
        &mut self,
        caller: u64,
        request: ReqNo,
        slot: SlotId,
        session: SessionId,
        caps: Caps,
        at: Moment,
    ) -> Result<(), NoMemory>
        ensures { OnOk result (Notes self.old self.new caller
            (change.Bound request slot session caps at)) }
    {
        others_keep();
        let address = self.address_of(slot.node)?;
        self.sessions
            .bound(request, slot, session, &caps, at, address)?;
        self.slots.bound(caller, request, slot, session, &caps, at)?;
        self.nodes.bound(request, slot, session, &caps, at);
        self.requests
            .bound(request, slot, session, caps, at, address)?;
        self.clock = self.raised(at);
        Ok(())
    }

    /// A start failed in a slot.
    fn note_failed(
        &mut self,
        caller: u64,
        request: ReqNo,
        slot: SlotId,
        why: &FailWhy,
        orphan: Option<&SessionId>,
        last: bool,
        at: Moment,
    )
        ensures { Notes self.old self.new caller
            (change.Failed request slot why.now (option_copied orphan.entry) last at) }
    {
        others_keep();
        self.requests
            .failed(request, slot, *why, orphan.copied(), last, at);
        self.slots
            .failed(caller, request, slot, *why, orphan.copied(), last, at);
        self.clock = self.raised(at);
        self.forget_unlisted(slot.node);
    }

    /// A request reached its deadline.
    fn note_timed_out(&mut self, request: ReqNo, at: Moment)
        ensures { (caller : ℕ) → Notes self.old self.new caller (change.TimedOut request at) }
    {
        others_keep();
        self.requests.timed_out(request, at);
        self.clock = self.raised(at);
    }

    /// A request was cleared from the queue.
    fn note_cleared(&mut self, request: ReqNo, at: Moment)
        ensures { (caller : ℕ) → Notes self.old self.new caller (change.Cleared request at) }
    {
        others_keep();
        self.requests.cleared(request, at);
        self.clock = self.raised(at);
    }

    /// The outcome of a request was handed out.
    fn note_taken(&mut self, request: ReqNo, at: Moment)
        ensures { (caller : ℕ) → Notes self.old self.new caller (change.Taken request at) }
    {
        others_keep();
        self.requests.taken(request, at);
        self.clock = self.raised(at);
    }

    /// A session was used.
    fn note_touched(&mut self, binding: ReqNo, at: Moment)
        ensures { (caller : ℕ) → Notes self.old self.new caller (change.Touched binding at) }
    {
        others_keep();
        self.sessions.touched(binding, at);
        self.clock = self.raised(at);
    }

    /// The slot that the session of a live binding runs in.
    fn slot_of(&self, binding: ReqNo) -> Result<SlotId, NoMemory>
        ensures { IfOk result (λ s. LedgerTells self.now
            (λ H. is_live H binding ≡ true → bound_slot H binding ≡ Some s)) }
    {
        match self.sessions.run_of(binding) {
            Some((slot, _)) => Ok(slot),
            // This does not happen: a session that ends is live.
            None => Err(NoMemory),
        }
    }

    /// A session ended.
    fn note_ended(
        &mut self,
        caller: u64,
        binding: ReqNo,
        cause: EndCause,
        at: Moment,
    ) -> Result<(), NoMemory>
        ensures { OnOk result (Notes self.old self.new caller (change.Ended binding cause at)) }
    {
        others_keep();
        let slot = self.slot_of(binding)?;
        self.sessions.ended(binding, cause, at);
        self.slots.ended(caller, binding, cause, at, slot);
        self.clock = self.raised(at);
        Ok(())
    }

    /// A closing slot was freed.
    fn note_freed(&mut self, slot: SlotId)
        ensures { (caller : ℕ) → Notes self.old self.new caller (change.Freed slot) }
    {
        others_keep();
        self.slots.freed(slot);
        self.forget_unlisted(slot.node);
    }

    /// Notes the change behind the history that the tables stand for.
    pub fn note(&mut self, caller: u64, change: Change) -> Result<(), NoMemory>
        requires { MayNote change }
        ensures { OnOk result (Notes self.old self.new caller change) }
    {
        match change {
            Change::Registered {
                node,
                registration,
                at,
            } => self.note_registered(node, &registration, at),
            Change::Beaten { node, at } => {
                self.note_beaten(node, at);
                Ok(())
            }
            Change::Draining { node, at } => {
                self.note_draining(node, at);
                Ok(())
            }
            Change::Removed { node, at } => {
                self.note_removed(node, at);
                Ok(())
            }
            Change::Lapsed { node, at } => {
                self.note_lapsed(node, at);
                Ok(())
            }
            Change::Queued {
                request,
                choices,
                deadline,
                at,
            } => self.note_queued(caller, request, choices, deadline, at),
            Change::Reserved {
                request,
                slot,
                choice,
                at,
            } => self.note_reserved(caller, request, slot, choice, at),
            Change::Bound {
                request,
                slot,
                session,
                caps,
                at,
            } => self.note_bound(caller, request, slot, session, caps, at),
            Change::Failed {
                request,
                slot,
                why,
                orphan,
                last,
                at,
            } => {
                self.note_failed(caller, request, slot, &why, orphan.as_ref(), last, at);
                Ok(())
            }
            Change::TimedOut { request, at } => {
                self.note_timed_out(request, at);
                Ok(())
            }
            Change::Cleared { request, at } => {
                self.note_cleared(request, at);
                Ok(())
            }
            Change::Taken { request, at } => {
                self.note_taken(request, at);
                Ok(())
            }
            Change::Touched { binding, at } => {
                self.note_touched(binding, at);
                Ok(())
            }
            Change::Ended { binding, cause, at } => self.note_ended(caller, binding, cause, at),
            Change::Freed { slot } => {
                self.note_freed(slot);
                Ok(())
            }
            Change::Suspected { node, at } => {
                self.note_suspected(node, at);
                Ok(())
            }
        }
    }
}
