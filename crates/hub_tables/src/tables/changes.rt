//! What each kind of change does to the tables. Each calls `table_laws`, for the proof alone.
ghost use Rattle.std.specs.Prelude.{◌≡◌, ◌≤◌, ◌<◌, ◌-◌, ◌^◌, ℕ, if◌then◌else◌, length, true, Some, IsOk, OnOk, OnErr};
ghost use Rattle.std.specs.Option.{option_copied};
ghost use Rattle.grid_types.specs.declared.entry.Change.TheVariants as change;
ghost use Rattle.grid_types.specs.declared.entry.Outcome.{Outcome as Settling};
ghost use Rattle.grid_types.specs.declared.limits.TheConstants.{MOST_SLOTS};
ghost use Rattle.grid_types.specs.Capabilities.{request_bytes};
ghost use Rattle.grid_types.specs.Nodes.{stereotypes, address_of, is_suspect};
ghost use Rattle.grid_types.specs.Bindings.{bound_slot};
ghost use Rattle.grid_types.specs.Requests.{place, settled};
ghost use Rattle.hub_tables.specs.Tables.{Forgets, HasRoomFor, Keeps, Notes, NotesGiven, Tells, node_number, request_number};

use crate::laws::table_laws;
use crate::tables::HubTables;
use grid_types::{
    Caps, Choices, EndCause, FailWhy, Moment, NoMemory, NodeAddress, NodeNo, Outcome, Registration,
    ReqNo, SessionId, SlotId, numbered_one_by_one,
};

impl HubTables {
    /// The next node registered. Without memory all stays as it is.
    pub fn note_registered(
        &mut self,
        registration: &Registration,
        at: Moment,
    ) -> Result<(), NoMemory>
        requires sized { length (stereotypes registration.now.groups) ≤ MOST_SLOTS }
        requires numbers { node_number self.old < 2 ^ 32 - 1 }
        ensures noted { OnOk result ((caller : ℕ) →
            Notes self.old self.new caller (change.Registered (node_number self.old)
            registration.now at)) }
        ensures refused { OnErr result (Keeps self.old self.new) }
    {
        table_laws();
        numbered_one_by_one();
        let node = self.next_node;
        self.slots.registered(node, registration, at)?;
        self.nodes.registered(node, registration, at)?;
        self.next_node = node + 1;
        self.searched_below = 0;
        self.clock = self.not_before(at);
        Ok(())
    }

    /// The number below which no slot fits a request once the node gave a sign: slots of a suspect one may fit any.
    fn below_after_beat(&self, node: NodeNo) -> ReqNo
        ensures { Tells self.now (λ H. result
            ≡ (if is_suspect H node then 0 else self.now.searched_below)) }
    {
        if self.nodes.is_suspect(node) {
            0
        } else {
            self.searched_below
        }
    }

    /// A node gave a sign. A node that was suspect takes new sessions from now on.
    pub fn note_beaten(&mut self, node: NodeNo, at: Moment)
        ensures { (caller : ℕ) → Notes self.old self.new caller (change.Beaten node at) }
    {
        table_laws();
        self.searched_below = self.below_after_beat(node);
        self.nodes.beaten(node, at);
        self.clock = self.not_before(at);
    }

    /// A node was silent, and takes no new session before its next sign.
    pub fn note_suspected(&mut self, node: NodeNo, at: Moment)
        ensures { (caller : ℕ) → Notes self.old self.new caller (change.Suspected node at) }
    {
        table_laws();
        self.nodes.suspected(node, at);
        self.clock = self.not_before(at);
    }

    /// A node takes no new session from now on.
    pub fn note_draining(&mut self, node: NodeNo, at: Moment)
        ensures { (caller : ℕ) → Notes self.old self.new caller (change.Draining node at) }
    {
        table_laws();
        self.nodes.draining(node, at);
        self.clock = self.not_before(at);
    }

    /// A node was removed. Once it is not listed any more nothing is kept of it.
    pub fn note_removed(&mut self, node: NodeNo, at: Moment)
        ensures noted { (caller : ℕ) → Notes self.old self.new caller (change.Removed node at) }
        ensures gone { Forgets self.new node }
    {
        table_laws();
        self.nodes.removed(node, at);
        self.clock = self.not_before(at);
        self.forget_unlisted(node);
    }

    /// A node gave no sign for too long, and with it went the sessions that ran there. Once it is not listed any more
    /// nothing is kept of it.
    pub fn note_lapsed(&mut self, node: NodeNo, at: Moment)
        ensures noted { (caller : ℕ) → Notes self.old self.new caller (change.Lapsed node at) }
        ensures gone { Forgets self.new node }
    {
        table_laws();
        self.nodes.lapsed(node, at);
        self.slots.lapsed(node, at);
        self.sessions.lapsed(node, at);
        self.clock = self.not_before(at);
        self.forget_unlisted(node);
    }

    /// The next request was queued, whose written choices have so many bytes. Without memory all stays as it is.
    pub fn note_queued(
        &mut self,
        caller: u64,
        choices: Choices,
        bytes: u64,
        deadline: Moment,
        at: Moment,
    ) -> Result<(), NoMemory>
        requires written { bytes ≡ request_bytes choices }
        requires numbers { request_number self.old < 2 ^ 64 - 1 }
        ensures noted { OnOk result (Notes self.old self.new caller
            (change.Queued (request_number self.old) choices deadline at)) }
        ensures refused { OnErr result (Keeps self.old self.new) }
    {
        table_laws();
        let request = self.next_request;
        self.requests
            .queued(caller, request, choices, bytes, deadline, at)?;
        self.next_request = request + 1;
        self.searched_below = self.searched_below.min(request);
        self.clock = self.not_before(at);
        Ok(())
    }

    /// A slot was reserved for a request. Without memory all stays as it is.
    pub fn note_reserved(
        &mut self,
        caller: u64,
        request: ReqNo,
        slot: SlotId,
        choice: u16,
        at: Moment,
    ) -> Result<(), NoMemory>
        ensures noted { OnOk result (Notes self.old self.new caller
            (change.Reserved request slot choice at)) }
        ensures refused { OnErr result (Keeps self.old self.new) }
    {
        table_laws();
        self.nodes.make_room()?;
        self.requests.reserved(request, slot, choice, at)?;
        self.slots
            .reserved(caller, request, slot, choice, at)
            .unwrap();
        self.nodes.reserved(request, slot, choice, at).unwrap();
        self.clock = self.not_before(at);
        Ok(())
    }

    /// A session was bound to a slot of the node with this address. Without memory all stays as it is.
    pub fn note_bound(
        &mut self,
        caller: u64,
        request: ReqNo,
        slot: SlotId,
        session: SessionId,
        caps: Caps,
        at: Moment,
        address: NodeAddress,
    ) -> Result<(), NoMemory>
        ensures noted { OnOk result (NotesGiven (λ H. address ≡ address_of H slot.node) self.old
            self.new caller (change.Bound request slot session caps at)) }
        ensures refused { OnErr result (Keeps self.old self.new) }
        ensures sure { HasRoomFor self.old session → IsOk result }
    {
        table_laws();
        self.sessions
            .bound(request, slot, session, &caps, at, address)?;
        self.slots
            .bound(caller, request, slot, session, &caps, at)
            .unwrap();
        self.nodes.bound(request, slot, session, &caps, at);
        self.requests
            .bound(request, slot, session, caps, at, address)
            .unwrap();
        self.clock = self.not_before(at);
        Ok(())
    }

    /// A start failed in a slot. Where its node is not listed any more nothing is kept of it.
    pub fn note_failed(
        &mut self,
        caller: u64,
        request: ReqNo,
        slot: SlotId,
        why: &FailWhy,
        orphan: Option<&SessionId>,
        last: bool,
        at: Moment,
    )
        ensures noted { Notes self.old self.new caller
            (change.Failed request slot why.now (option_copied orphan.entry) last at) }
        ensures gone { Forgets self.new slot.node }
    {
        table_laws();
        self.requests
            .failed(request, slot, *why, orphan.copied(), last, at);
        self.slots
            .failed(caller, request, slot, *why, orphan.copied(), last, at);
        self.searched_below = 0;
        self.clock = self.not_before(at);
        self.forget_unlisted(slot.node);
    }

    /// A request reached its deadline.
    pub fn note_timed_out(&mut self, request: ReqNo, at: Moment)
        ensures { (caller : ℕ) → Notes self.old self.new caller (change.TimedOut request at) }
    {
        table_laws();
        self.requests.timed_out(request, at);
        self.clock = self.not_before(at);
    }

    /// A request was cleared from the queue.
    pub fn note_cleared(&mut self, request: ReqNo, at: Moment)
        ensures { (caller : ℕ) → Notes self.old self.new caller (change.Cleared request at) }
    {
        table_laws();
        self.requests.cleared(request, at);
        self.clock = self.not_before(at);
    }

    /// The outcome of a request is handed out.
    pub fn note_taken(&mut self, request: ReqNo, at: Moment) -> Option<Outcome>
        ensures noted { (caller : ℕ) → Notes self.old self.new caller (change.Taken request at) }
        ensures outcome { Tells self.old (λ H. (o : Settling) → place H request ≡ settled o →
            result ≡ Some o) }
        ensures only { Tells self.old (λ H. (o : Settling) → result ≡ Some o →
            place H request ≡ settled o) }
    {
        table_laws();
        let outcome = self.requests.taken(request, at);
        self.clock = self.not_before(at);
        outcome
    }

    /// A session was used.
    pub fn note_touched(&mut self, binding: ReqNo, at: Moment)
        ensures { (caller : ℕ) → Notes self.old self.new caller (change.Touched binding at) }
    {
        table_laws();
        self.sessions.touched(binding, at);
        self.clock = self.not_before(at);
    }

    /// A session ended that ran in the slot.
    pub fn note_ended(
        &mut self,
        caller: u64,
        binding: ReqNo,
        cause: EndCause,
        at: Moment,
        slot: SlotId,
    )
        ensures { NotesGiven (λ H. bound_slot H binding ≡ Some slot) self.old self.new caller
            (change.Ended binding cause at) }
    {
        table_laws();
        self.sessions.ended(binding, cause, at);
        self.slots.ended(caller, binding, cause, at, slot);
        self.clock = self.not_before(at);
    }

    /// A closing slot was freed. Where its node is not listed any more nothing is kept of it.
    pub fn note_freed(&mut self, slot: SlotId)
        ensures noted { (caller : ℕ) → Notes self.old self.new caller (change.Freed slot) }
        ensures gone { Forgets self.new slot.node }
    {
        table_laws();
        self.slots.freed(slot);
        self.searched_below = 0;
        self.forget_unlisted(slot.node);
    }
}
