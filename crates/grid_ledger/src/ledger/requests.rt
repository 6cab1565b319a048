//! Which changes of requests are permitted.
ghost use Rattle.std.specs.Prelude.{◌≡◌, ◌&&◌, ◌||◌, ◌<◌, ℕ, true, not, nat_le, nat_lt, nat_eq, length, option_map};
ghost use Rattle.grid_types.specs.declared.entry.Change.TheVariants as change;
ghost use Rattle.grid_types.specs.History.{next_request};
ghost use Rattle.grid_types.specs.Choice.{chosen};
ghost use Rattle.grid_types.specs.Requests.{place, is_waiting, is_unsettled, is_settled, is_taken, deadline_of};
ghost use Rattle.grid_types.specs.Slots.{slot_eq};
ghost use Rattle.grid_types.specs.Tables.{Tells};
ghost use Rattle.grid_types.specs.Permitted.{deadline_at, has_room, is_asker, is_assignment, is_supported, permitted};
ghost use Rattle.node_registry.specs.Table as of_node;
ghost use Rattle.hub_walks.specs.Stand.{AllTell};
ghost use Rattle.hub_walks.specs.First.{as_chosen};
ghost use Rattle.grid_ledger.specs.LedgerStands.{LedgerTells};

use crate::ledger::GridLedger;
use grid_types::{
    Caps, Choices, LAST_MOMENT, MOST_CHOICES, MOST_QUEUE_BYTES, Moment, ReqNo, SlotId,
    request_bytes, time_to_wait,
};
use hub_walks::Assignment;
use moment_rules::overdue;
use node_registry::NodeTable;
use reservation::SlotTable;
use session_queue::RequestTable;
use slot_match::Steps;
use std::marker::Brand;
use std::sync::ledger::{Blank, Ledger};

fn counted_support<L: Ledger>(nodes: &NodeTable, choices: &[Caps], blank: Blank) -> bool
    requires name { blank.name ≡ L.name }
    requires parts { blank.parts ≡ L.parts }
    requires some { 0 < L.parts }
    ensures { Tells of_node.Stands nodes.now (λ H. result ≡ is_supported H choices.now) }
{
    hub_walks::is_supported(nodes, choices, &mut Steps::<L>::new(blank))
}

fn counted_choice<L: Ledger>(
    nodes: &NodeTable,
    slots: &SlotTable,
    requests: &RequestTable,
    at: Moment,
    blank: Blank,
) -> Option<Assignment>
    requires name { blank.name ≡ L.name }
    requires parts { blank.parts ≡ L.parts }
    requires some { 0 < L.parts }
    ensures { AllTell nodes.now slots.now requests.now
        (λ H. option_map as_chosen result ≡ chosen H at.0) }
{
    hub_walks::chosen(nodes, slots, requests, 0, at, &mut Steps::<L>::new(blank))
}

/// Whether two slots are one.
pub(super) fn is_same_slot(one: SlotId, other: SlotId) -> bool
    ensures { result ≡ slot_eq one other }
{
    one.node == other.node && one.index == other.index
}

/// Whether the assignment is this one.
fn is_assignment(found: &Assignment, request: ReqNo, choice: u16, slot: SlotId) -> bool
    ensures { result ≡ (nat_eq found.now.request request && nat_eq found.now.choice choice &&
        slot_eq found.now.slot slot) }
{
    found.request == request && found.choice == choice && is_same_slot(found.slot, slot)
}

impl GridLedger {
    fn is_next_request(&self, request: ReqNo) -> bool
        ensures { LedgerTells self.now (λ H. result
            ≡ nat_eq request (next_request self.now.config H)) }
    {
        request == self.next_request
    }

    /// The deadline of a request of these choices that is queued at the moment.
    fn deadline_at(&self, choices: &Choices, at: Moment) -> u64
        ensures { result ≡ deadline_at self.now.config choices.now at.0 }
    {
        at.0.saturating_add(time_to_wait(choices, &self.config))
            .min(LAST_MOMENT)
    }

    /// Whether the queue takes a request of these choices.
    fn has_room(&self, choices: &[Caps]) -> bool
        ensures { LedgerTells self.now (λ H. result ≡ has_room self.now.config H choices.now) }
    {
        self.requests.unsettled() < self.config.queue_requests
            && self.requests.bytes().saturating_add(request_bytes(choices)) <= MOST_QUEUE_BYTES
    }

    /// Whether the choices may be queued: each may, or a slot of a registered node matches one.
    fn is_accepted(&self, choices: &[Caps]) -> bool
        ensures { LedgerTells self.now (λ H. result
            ≡ (not self.now.config.reject_unsupported || is_supported H choices.now)) }
    {
        !self.config.reject_unsupported
            || counted_support::<Brand>(&self.nodes, choices, Blank::new(1))
    }

    /// A request is queued under the next number, with 1 to 64 choices and the deadline that they give, where there is room.
    #[tactic(auto, unfolding(grid_types::specs::Permitted::permitted))]
    pub(super) fn permits_queued(
        &self,
        request: ReqNo,
        choices: &Choices,
        deadline: Moment,
        at: Moment,
    ) -> bool
        ensures { (caller : ℕ) → LedgerTells self.now
            (λ H. result ≡ permitted self.now.config H caller
            (change.Queued request choices.now deadline at)) }
    {
        let lists = choices.items();
        self.is_current(at)
            && self.is_next_request(request)
            && request < ReqNo::MAX
            && lists.len() >= 1
            && lists.len() <= MOST_CHOICES
            && deadline.0 == self.deadline_at(choices, at)
            && self.has_room(lists)
            && self.is_accepted(lists)
    }

    /// The assignment that is made next.
    fn next_assignment(&self, at: Moment) -> Option<Assignment>
        ensures { LedgerTells self.now (λ H. option_map as_chosen result ≡ chosen H at.0) }
    {
        counted_choice::<Brand>(&self.nodes, &self.slots, &self.requests, at, Blank::new(1))
    }

    /// Whether this is the assignment that is made next.
    fn is_chosen(&self, request: ReqNo, choice: u16, slot: SlotId, at: Moment) -> bool
        ensures { LedgerTells self.now (λ H. result
            ≡ is_assignment request choice slot (chosen H at.0)) }
    {
        match self.next_assignment(at) {
            Some(found) => is_assignment(&found, request, choice, slot),
            None => false,
        }
    }

    /// The assignment that is made next is made.
    #[tactic(auto, unfolding(grid_types::specs::Permitted::permitted))]
    pub(super) fn permits_reserved(
        &self,
        request: ReqNo,
        slot: SlotId,
        choice: u16,
        at: Moment,
    ) -> bool
        ensures { (caller : ℕ) → LedgerTells self.now
            (λ H. result ≡ permitted self.now.config H caller
            (change.Reserved request slot choice at)) }
    {
        self.is_current(at) && self.is_chosen(request, choice, slot, at)
    }

    /// Whether the request waits.
    pub(super) fn is_waiting(&self, request: ReqNo) -> bool
        ensures { LedgerTells self.now (λ H. result ≡ is_waiting (place H request)) }
    {
        match self.requests.get(request) {
            Some(asked) => asked.stage.is_waiting(),
            None => false,
        }
    }

    /// Whether the request waits or is held.
    pub(super) fn is_unsettled(&self, request: ReqNo) -> bool
        ensures { LedgerTells self.now (λ H. result ≡ is_unsettled (place H request)) }
    {
        match self.requests.get(request) {
            Some(asked) => asked.stage.is_unsettled(),
            None => false,
        }
    }

    /// Whether the deadline of a request that is not settled is reached.
    fn is_due(&self, request: ReqNo, at: Moment) -> bool
        ensures { LedgerTells self.now (λ H. is_unsettled (place H request) ≡ true →
            result ≡ nat_le (deadline_of H request) at.0) }
    {
        match self.requests.get(request) {
            Some(asked) => overdue(asked.deadline, at),
            None => false,
        }
    }

    /// A request that is not settled reaches its deadline.
    #[tactic(auto, unfolding(grid_types::specs::Permitted::permitted))]
    pub(super) fn permits_timed_out(&self, request: ReqNo, at: Moment) -> bool
        ensures { (caller : ℕ) → LedgerTells self.now
            (λ H. result ≡ permitted self.now.config H caller (change.TimedOut request at)) }
    {
        self.is_current(at) && self.is_unsettled(request) && self.is_due(request, at)
    }

    /// A waiting request is cleared.
    #[tactic(auto, unfolding(grid_types::specs::Permitted::permitted))]
    pub(super) fn permits_cleared(&self, request: ReqNo, at: Moment) -> bool
        ensures { (caller : ℕ) → LedgerTells self.now
            (λ H. result ≡ permitted self.now.config H caller (change.Cleared request at)) }
    {
        self.is_current(at) && self.is_waiting(request)
    }

    /// Whether the outcome of the request is there, was not handed out, and is asked for by the caller that queued it.
    fn is_ready(&self, caller: u64, request: ReqNo) -> bool
        ensures { LedgerTells self.now (λ H. result
            ≡ (is_settled H request && not (is_taken H request) && is_asker H caller request)) }
    {
        match self.requests.get(request) {
            Some(asked) => !asked.stage.is_unsettled() && asked.caller == caller,
            None => false,
        }
    }

    /// The outcome of a settled request is handed out once, to the caller that queued it.
    #[tactic(auto, unfolding(grid_types::specs::Permitted::permitted))]
    pub(super) fn permits_taken(&self, caller: u64, request: ReqNo, at: Moment) -> bool
        ensures { LedgerTells self.now (λ H. result
            ≡ permitted self.now.config H caller (change.Taken request at)) }
    {
        self.is_current(at) && self.is_ready(caller, request)
    }
}
