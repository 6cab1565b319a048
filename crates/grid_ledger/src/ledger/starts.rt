//! Which ends of starts are permitted.
ghost use Rattle.std.specs.Prelude.{◌≡◌, ◌<◌, ℕ, true};
ghost use Rattle.std.specs.Option.{option_copied};
ghost use Rattle.grid_types.specs.declared.entry.Change.TheVariants as change;
ghost use Rattle.grid_types.specs.declared.names.SlotId.{SlotId};
ghost use Rattle.grid_types.specs.Matching.{meets};
ghost use Rattle.grid_types.specs.Requests.{choice_of, place, is_held};
ghost use Rattle.grid_types.specs.Sessions.{is_live_session};
ghost use Rattle.grid_types.specs.Slots.{held, holder};
ghost use Rattle.grid_types.specs.Permitted.{bool_eq, has_slot, is_failure, is_last, is_refusal, is_start_failure, permitted, reserved_choice, wanted_of};
ghost use Rattle.hub_walks.specs.Stand.{AskedTell};
ghost use Rattle.grid_ledger.specs.LedgerStands.{LedgerTells};

use crate::ledger::GridLedger;
use grid_types::{Caps, FailWhy, Found, Moment, ReqNo, SessionId, SlotId};
use node_registry::NodeTable;
use reservation::SlotUse;
use session_queue::RequestTable;
use slot_match::{Steps, meets};
use std::marker::Brand;
use std::sync::ledger::{Blank, Ledger};

fn counted_last<L: Ledger>(
    nodes: &NodeTable,
    requests: &RequestTable,
    request: ReqNo,
    blank: Blank,
) -> bool
    requires name { blank.name ≡ L.name }
    requires parts { blank.parts ≡ L.parts }
    requires some { 0 < L.parts }
    ensures { AskedTell nodes.now requests.now
        (λ H. (slot : SlotId) → holder H slot ≡ held request → result ≡ is_last H request slot) }
{
    hub_walks::is_last(nodes, requests, request, &mut Steps::<L>::new(blank))
}

/// Whether the cause is one of a start that gave no session.
fn is_start_failure(why: &FailWhy) -> bool
    ensures { result ≡ is_start_failure why.now }
{
    match why {
        FailWhy::NodeRefused(_)
        | FailWhy::Unreachable
        | FailWhy::NotHttp
        | FailWhy::BadReply
        | FailWhy::NoMemory => true,
        FailWhy::Mismatch | FailWhy::NodeGone | FailWhy::Duplicate | FailWhy::Late => false,
    }
}

impl GridLedger {
    /// Whether the request has a slot and is not settled.
    fn is_held(&self, request: ReqNo) -> bool
        ensures { LedgerTells self.now (λ H. result ≡ is_held (place H request)) }
    {
        self.is_unsettled(request) && !self.is_waiting(request)
    }

    /// Whether the caller has the slot for the request.
    fn has_slot(&self, caller: u64, request: ReqNo, slot: SlotId) -> bool
        ensures { LedgerTells self.now (λ H. result ≡ has_slot H caller request slot) }
    {
        match self.slots.slot_use(slot) {
            SlotUse::Held {
                request: held,
                owner,
                ..
            } => held == request && owner == caller,
            SlotUse::Free => false,
            SlotUse::Busy { .. } => false,
            SlotUse::Closing { .. } => false,
        }
    }

    /// The choice that the held slot was reserved with.
    fn reserved_choice(&self, slot: SlotId) -> u16
        ensures { LedgerTells self.now (λ H. (request : ℕ) → holder H slot ≡ held request →
            result ≡ reserved_choice H slot) }
    {
        match self.slots.slot_use(slot) {
            SlotUse::Held { choice, .. } => choice,
            SlotUse::Free => 0,
            SlotUse::Busy { .. } => 0,
            SlotUse::Closing { .. } => 0,
        }
    }

    /// Whether the session's capabilities meet this choice of a held request. A choice that isn't there wants nothing.
    fn meets_choice(&self, request: ReqNo, choice: u16, caps: &Caps) -> bool
        ensures { LedgerTells self.now (λ H. is_held (place H request) ≡ true →
            result ≡ meets (choice_of H request choice) caps.now) }
    {
        match self.requests.get(request) {
            Some(asked) => match asked.choices.items().get(choice as usize) {
                Some(wanted) => meets(wanted, caps),
                None => true,
            },
            None => false,
        }
    }

    /// Whether the session's capabilities meet the choice of the held request that the slot was reserved with.
    fn meets_wanted(&self, request: ReqNo, slot: SlotId, caps: &Caps) -> bool
        ensures { LedgerTells self.now (λ H. is_held (place H request) ≡ true →
            holder H slot ≡ held request → result ≡ meets (wanted_of H request slot) caps.now) }
    {
        let choice = self.reserved_choice(slot);
        self.meets_choice(request, choice, caps)
    }

    fn is_live_session(&self, session: &SessionId) -> bool
        ensures { LedgerTells self.now (λ H. result ≡ is_live_session H session.now) }
    {
        match self.sessions.find(session) {
            Found::At { .. } => true,
            Found::NoSession => false,
        }
    }

    /// A caller keeps a session in the slot that it has for a held request, on a registered node, where no session of
    /// this id is live and the node returned what was wanted.
    #[tactic(auto, unfolding(grid_types::specs::Permitted::permitted))]
    pub(super) fn permits_bound(
        &self,
        caller: u64,
        request: ReqNo,
        slot: SlotId,
        session: &SessionId,
        caps: &Caps,
        at: Moment,
    ) -> bool
        ensures { LedgerTells self.now (λ H. result
            ≡ permitted self.now.config H caller
            (change.Bound request slot session.now caps.now at)) }
    {
        self.is_current(at)
            && self.is_held(request)
            && self.has_slot(caller, request, slot)
            && self.nodes.is_registered(slot.node)
            && !self.is_live_session(session)
            && self.meets_wanted(request, slot, caps)
    }

    /// Whether the hub would not keep the session for this cause, the first of four.
    fn is_refusal(&self, request: ReqNo, slot: SlotId, session: &SessionId, why: &FailWhy) -> bool
        ensures { LedgerTells self.now (λ H. holder H slot ≡ held request →
            result ≡ is_refusal H request slot session.now why.now) }
    {
        let settled = self.requests.is_settled(request);
        let registered = self.nodes.is_registered(slot.node);
        let live = self.is_live_session(session);
        match why {
            FailWhy::Late => settled,
            FailWhy::NodeGone => !settled && !registered,
            FailWhy::Duplicate => !settled && registered && live,
            FailWhy::Mismatch => !settled && registered && !live,
            _ => false,
        }
    }

    /// Whether the cause is one of a start without a session, or of one whose session is not kept.
    fn is_failure(
        &self,
        request: ReqNo,
        slot: SlotId,
        orphan: Option<&SessionId>,
        why: &FailWhy,
    ) -> bool
        ensures { LedgerTells self.now (λ H. holder H slot ≡ held request →
            result ≡ is_failure H request slot (option_copied orphan.entry) why.now) }
    {
        match orphan {
            Some(session) => self.is_refusal(request, slot, session, why),
            None => is_start_failure(why),
        }
    }

    /// Whether a failure of the start that the request is held for settles it.
    pub fn is_last(&self, request: ReqNo) -> bool
        ensures { LedgerTells self.now (λ H. (slot : SlotId) → holder H slot ≡ held request →
            result ≡ is_last H request slot) }
    {
        counted_last::<Brand>(&self.nodes, &self.requests, request, Blank::new(1))
    }

    /// Whether it is told rightly that the failure settles the request.
    fn is_last_as(&self, request: ReqNo, last: bool) -> bool
        ensures { LedgerTells self.now (λ H. (slot : SlotId) → holder H slot ≡ held request →
            result ≡ bool_eq last (is_last H request slot)) }
    {
        last == self.is_last(request)
    }

    /// A caller gives the slot up that it has for the request, for a cause that there is, and it is told rightly whether
    /// that settles the request.
    #[tactic(auto, unfolding(grid_types::specs::Permitted::permitted))]
    pub(super) fn permits_failed(
        &self,
        caller: u64,
        request: ReqNo,
        slot: SlotId,
        why: &FailWhy,
        orphan: Option<&SessionId>,
        last: bool,
        at: Moment,
    ) -> bool
        ensures { LedgerTells self.now (λ H. result
            ≡ permitted self.now.config H caller
            (change.Failed request slot why.now (option_copied orphan.entry) last at)) }
    {
        self.is_current(at)
            && self.has_slot(caller, request, slot)
            && self.is_failure(request, slot, orphan, why)
            && self.is_last_as(request, last)
    }
}
