//! What the tables tell of requests.
ghost use Rattle.std.specs.Prelude.{◌≡◌, ◌<◌, ◌+◌, true, nat_le, find, length, IfSome, MatchOption};
ghost use Rattle.grid_types.specs.declared.names.SlotId.{SlotId};
ghost use Rattle.grid_types.specs.HubAnswers.{overdue_requests};
ghost use Rattle.grid_types.specs.Permitted.{is_last, is_supported};
ghost use Rattle.grid_types.specs.Requests.{place, unsettled, unsettled_bytes, waiting_requests};
ghost use Rattle.grid_types.specs.Slots.{held, holder};
ghost use Rattle.session_queue.specs.Table.{RowTells, is_gone};
ghost use Rattle.hub_tables.specs.Tables.{Tells};

use crate::tables::HubTables;
use grid_types::{Caps, Moment, ReqNo};
use hub_walks::{overdue_after, waiting_after};
use session_queue::Request;
use slot_match::Steps;
use std::sync::ledger::Ledger;

impl HubTables {
    /// What is known of a request; nothing of one that was never queued or whose outcome was handed out.
    pub fn request(&self, request: ReqNo) -> Option<&Request>
        ensures { Tells self.now (λ H. MatchOption result (is_gone (place H request) ≡ true)
            (λ q. RowTells q.now H request)) }
    {
        self.requests.get(request)
    }

    /// How many requests are not settled.
    pub fn unsettled(&self) -> u32
        ensures { Tells self.now (λ H. result ≡ length (unsettled H)) }
    {
        self.requests.unsettled()
    }

    /// The bytes of the requests that are not settled.
    pub fn unsettled_bytes(&self) -> u64
        ensures { Tells self.now (λ H. result ≡ unsettled_bytes H) }
    {
        self.requests.bytes()
    }

    /// Whether a slot of a registered node matches one of the choices. It takes no memory.
    pub fn is_supported<L: Ledger>(&self, choices: &[Caps], steps: &mut Steps<L>) -> bool
        ensures { Tells self.now (λ H. result ≡ is_supported H choices.now) }
    {
        hub_walks::is_supported(&self.nodes, choices, steps)
    }

    /// Whether a failure of the request on the slot that is held for it settles it. It takes no memory.
    pub fn is_last<L: Ledger>(&self, request: ReqNo, steps: &mut Steps<L>) -> bool
        ensures { Tells self.now (λ H. (slot : SlotId) → holder H slot ≡ held request →
            result ≡ is_last H request slot) }
    {
        hub_walks::is_last(&self.nodes, &self.requests, request, steps)
    }

    /// The first waiting request after this one. It takes no memory.
    pub fn next_waiting(&self, request: ReqNo) -> Option<ReqNo>
        ensures first { Tells self.now (λ H. result
            ≡ find (nat_le (request + 1)) (waiting_requests H)) }
        ensures later { IfSome result (λ r. request < r) }
    {
        waiting_after(&self.requests, request)
    }

    /// The first request after this one that is not settled and whose deadline is reached. It takes no memory.
    pub fn next_overdue(&self, request: ReqNo, now: Moment) -> Option<ReqNo>
        ensures first { Tells self.now (λ H. result
            ≡ find (nat_le (request + 1)) (overdue_requests H now.0)) }
        ensures later { IfSome result (λ r. request < r) }
    {
        overdue_after(&self.requests, request, now)
    }
}
