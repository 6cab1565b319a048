//! The walk over the leads: of each kind the first request whose deadline is ahead.
//! Calls of `walk_laws` are for the proofs alone.
ghost use Rattle.std.specs.Prelude.{◌≡◌, ◌+◌, ◌*◌, ◌≤◌, ◌++◌, ◌∷◌, [], List, ℕ, true, nat_eq, length, IfSome};
ghost use Rattle.std.specs.List.{list_any};
ghost use Rattle.grid_types.specs.History.{nodes as nodes_of};
ghost use Rattle.grid_types.specs.Requests.{place, is_waiting, choices_of};
ghost use Rattle.request_laws.specs.Kinds.{choices_in};
ghost use Rattle.request_laws.specs.Leads.{LeadKinds};
ghost use Rattle.grid_types.specs.Tables.{Tells};
ghost use Rattle.session_queue.specs.Table.{Stands};
ghost use Rattle.hub_walks.specs.Stand.{AllTell};
ghost use Rattle.hub_walks.specs.First.{IsFound, IsMore, NoneBelow, groups_up, is_ahead};

use crate::assignment::{Assignment, first_of};
use crate::laws::walk_laws;
use grid_types::{Moment, ReqNo};
use node_registry::NodeTable;
use reservation::SlotTable;
use session_queue::RequestTable;
use slot_match::Steps;
use std::sync::ledger::Ledger;

/// Whether the best so far is no worse than what a lead may give.
fn is_ahead(best: Option<Assignment>, lead: ReqNo) -> bool
    ensures { result ≡ is_ahead best lead }
{
    match best {
        Some(found) => found.request <= lead,
        None => false,
    }
}

/// The better of the best so far and the first assignment of a request.
fn with_request<L: Ledger>(
    nodes: &NodeTable,
    slots: &SlotTable,
    requests: &RequestTable,
    best: Option<Assignment>,
    number: ReqNo,
    first: ReqNo,
    at: Moment,
    steps: &mut Steps<L>,
) -> Option<Assignment>
    ensures answer { AllTell nodes.now slots.now requests.now
        (λ H. NoneBelow H first at.0 → is_waiting (place H number) ≡ true →
        IsMore H at.0 best number result) }
    ensures cost { AllTell nodes.now slots.now requests.now
        (λ H. steps.new ≤ steps.old + length (choices_of H number) * groups_up H (nodes_of H)) }
{
    if number < first {
        return best;
    }
    if is_ahead(best, number) {
        return best;
    }
    let Some(request) = requests.get(number) else {
        return best;
    };
    match first_of(nodes, slots, number, request, at, steps) {
        Some(found) => Some(found),
        None => best,
    }
}

/// The better of the best so far and the first assignment of a lead's kind.
fn with_lead<L: Ledger>(
    nodes: &NodeTable,
    slots: &SlotTable,
    requests: &RequestTable,
    best: Option<Assignment>,
    lead: ReqNo,
    first: ReqNo,
    at: Moment,
    steps: &mut Steps<L>,
) -> Option<Assignment>
    ensures answer { AllTell nodes.now slots.now requests.now
        (λ H. NoneBelow H first at.0 → (leads : List ℕ) → LeadKinds H leads →
        list_any (nat_eq lead) leads ≡ true → (passed : List ℕ) → IsFound H at.0 passed best →
        IsFound H at.0 (passed ++ lead ∷ []) result) }
    ensures cost { AllTell nodes.now slots.now requests.now
        (λ H. is_waiting (place H lead) ≡ true →
        steps.new ≤ steps.old + length (choices_of H lead) * groups_up H (nodes_of H)) }
{
    walk_laws();
    match requests.in_time_of(lead, at) {
        Some(number) => with_request(nodes, slots, requests, best, number, first, at, steps),
        None => best,
    }
}

/// The leads, where a request waits from the first on. Where none does, a walk over all requests ends at once.
pub(crate) fn leads_from(requests: &RequestTable, first: ReqNo) -> Option<&[ReqNo]>
    ensures { Tells Stands requests.now (λ H. IfSome result (λ leads. LeadKinds H leads.now)) }
{
    match requests.next_waiting(first) {
        Some(_) => requests.leads(),
        None => None,
    }
}

/// The first assignment of the least request that a slot fits, by a walk over the leads, where nothing fits the requests
/// below the first that is looked at.
pub(crate) fn best_of_leads<L: Ledger>(
    nodes: &NodeTable,
    slots: &SlotTable,
    requests: &RequestTable,
    leads: &[ReqNo],
    first: ReqNo,
    at: Moment,
    steps: &mut Steps<L>,
) -> Option<Assignment>
    ensures answer { AllTell nodes.now slots.now requests.now
        (λ H. NoneBelow H first at.0 → LeadKinds H leads.now → IsFound H at.0 leads.now result) }
    ensures cost { AllTell nodes.now slots.now requests.now
        (λ H. LeadKinds H leads.now → steps.new
        ≤ steps.old + choices_in H leads.now * groups_up H (nodes_of H)) }
{
    let mut best = None;
    for lead in leads {
        best = with_lead(nodes, slots, requests, best, *lead, first, at, steps);
    }
    best
}
