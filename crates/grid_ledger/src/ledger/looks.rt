//! What is open in a history: slots that are held or closing, and requests whose outcome is not there or was not handed out.
ghost use Rattle.std.specs.Prelude.{◌≡◌, false, true, MatchOption, map, option_map};
ghost use Rattle.grid_types.specs.declared.limits.TheConstants.{MOST_SLOTS};
ghost use Rattle.grid_types.specs.History.{clock, next_node, next_request};
ghost use Rattle.grid_types.specs.Requests.{place};
ghost use Rattle.grid_types.specs.Nodes.{is_registered, is_spent, registration_of};
ghost use Rattle.session_map.specs.Table.{running};
ghost use Rattle.grid_types.specs.Slots.{has_slot_in_use, holder, is_listed, slots_of};
ghost use Rattle.reservation.specs.Table.{IsUseOf, holder_of};
ghost use Rattle.session_queue.specs.Table.{RowTells, is_gone};
ghost use Rattle.grid_ledger.specs.LedgerStands.{LedgerTells};
ghost use Rattle.grid_ledger.specs.Open.{IsCloseOn, NoRequest, NoSlot, SomeRequest, SomeSlot, is_open};

use crate::ledger::GridLedger;
use grid_types::{MOST_SLOTS, Moment, NodeAddress, NodeNo, ReqNo, SessionId, SlotId, history_laws};
use reservation::SlotUse;
use session_queue::Request;

impl GridLedger {
    /// The number of the node that registers next.
    pub fn next_node(&self) -> NodeNo
        ensures { LedgerTells self.now (λ H. result ≡ next_node self.now.config H) }
    {
        self.next_node
    }

    /// The number of the request that is queued next.
    pub fn next_request(&self) -> ReqNo
        ensures { LedgerTells self.now (λ H. result ≡ next_request self.now.config H) }
    {
        self.next_request
    }

    /// The moment of the last entry that has one.
    pub fn clock(&self) -> Moment
        ensures { LedgerTells self.now (λ H. result.0 ≡ clock H) }
    {
        self.clock
    }

    /// What a slot is given to.
    pub fn slot_use(&self, slot: SlotId) -> SlotUse
        ensures { LedgerTells self.now (λ H. IsUseOf H slot result) }
    {
        self.slots.slot_use(slot)
    }

    /// Whether some slot of the node is not free.
    pub fn has_slot_in_use(&self, node: NodeNo) -> bool
        ensures { LedgerTells self.now (λ H. result ≡ has_slot_in_use H node) }
    {
        self.slots.has_slot_in_use(node)
    }

    /// Whether the node is registered, or has a slot that is not free.
    pub fn is_listed(&self, node: NodeNo) -> bool
        ensures { LedgerTells self.now (λ H. result ≡ is_listed H node) }
    {
        self.nodes.is_registered(node) || self.slots.has_slot_in_use(node)
    }

    /// The address of a listed node.
    pub fn node_address(&self, node: NodeNo) -> Option<NodeAddress>
        ensures { LedgerTells self.now (λ H. is_listed H node ≡ true →
            result ≡ option_map (λ r. r.address) (registration_of H node)) }
    {
        match self.nodes.registration(node) {
            Some(registration) => Some(registration.address),
            None => None,
        }
    }

    /// Whether as many sessions were bound on a listed node as it drains after.
    pub fn is_spent(&self, node: NodeNo) -> bool
        ensures { LedgerTells self.now (λ H. is_listed H node ≡ true → result ≡ is_spent H node) }
    {
        self.nodes.is_spent(node)
    }

    /// What the slots of a registered node are given to, by their places in it.
    pub fn uses(&self, node: NodeNo) -> &[SlotUse]
        ensures { LedgerTells self.now (λ H. is_registered H node ≡ true →
            map holder_of result.now ≡ map (holder H) (slots_of H node)) }
    {
        self.slots.uses(node)
    }

    /// The session that is live under the binding.
    pub fn session_of(&self, binding: ReqNo) -> Option<SessionId>
        ensures { LedgerTells self.now (λ H. result
            ≡ option_map (λ x. x.session) (running H binding)) }
    {
        self.sessions.session_of(binding)
    }

    /// What is known of a request; nothing of one that was never queued or that is taken.
    pub fn request(&self, request: ReqNo) -> Option<&Request>
        ensures { LedgerTells self.now (λ H.
            MatchOption result (is_gone (place H request) ≡ true) (λ q. RowTells q.now H request)) }
    {
        self.requests.get(request)
    }

    /// Whether a slot is held or closing.
    fn is_open(&self, slot: SlotId) -> bool
        ensures { LedgerTells self.now (λ H. result ≡ is_open (holder H slot)) }
    {
        match self.slots.slot_use(slot) {
            SlotUse::Held { .. } => true,
            SlotUse::Closing { .. } => true,
            SlotUse::Free => false,
            SlotUse::Busy { .. } => false,
        }
    }

    /// Whether none of the 64 slots that a node may have is held or closing.
    fn are_close_on(&self, node: NodeNo) -> bool
        ensures close { result ≡ true → LedgerTells self.now (λ H. IsCloseOn H node MOST_SLOTS) }
        ensures open { result ≡ false → LedgerTells self.now SomeSlot }
    {
        for index in 0..MOST_SLOTS as u16 {
            if self.is_open(SlotId { node, index }) {
                return false;
            }
        }
        true
    }

    /// Whether no slot of a node is held or closing.
    fn is_close_on(&self, node: NodeNo) -> bool
        ensures close { result ≡ true → LedgerTells self.now (λ H. IsCloseOn H node MOST_SLOTS) }
        ensures open { result ≡ false → LedgerTells self.now SomeSlot }
    {
        history_laws();
        if !self.slots.has_slot_in_use(node) {
            return true;
        }
        self.are_close_on(node)
    }

    /// Whether no slot is held or closing. It looks at each number that a node has had.
    pub fn has_no_open_slot(&self) -> bool
        ensures none { result ≡ true → LedgerTells self.now NoSlot }
        ensures some { result ≡ false → LedgerTells self.now SomeSlot }
    {
        history_laws();
        for node in self.config.first_node..self.next_node {
            if !self.is_close_on(node) {
                return false;
            }
        }
        true
    }

    /// Whether the request is taken, or was never queued.
    fn is_over(&self, request: ReqNo) -> bool
        ensures { LedgerTells self.now (λ H. result ≡ is_gone (place H request)) }
    {
        match self.requests.get(request) {
            Some(_) => false,
            None => true,
        }
    }

    /// Whether each request that was queued is taken. It looks at each number that a request has had.
    pub fn has_no_request(&self) -> bool
        ensures none { result ≡ true → LedgerTells self.now NoRequest }
        ensures some { result ≡ false → LedgerTells self.now SomeRequest }
    {
        history_laws();
        for request in self.config.first_request..self.next_request {
            if !self.is_over(request) {
                return false;
            }
        }
        true
    }
}
