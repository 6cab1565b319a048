//! The leads: the first waiting request of each kind. Calls of `queue_laws` are for the proofs alone.
ghost use Rattle.std.specs.Prelude.{◌≡◌, ◌++◌, ◌∷◌, ◌&&◌, [], Bool, ℕ, true, not, nat_eq, nat_lt, Some, None, option_map, option_copied, filter, find};
ghost use Rattle.std.specs.List.{list_any};
ghost use Rattle.std.specs.Ordering.{nat_cmp};
ghost use Rattle.std.specs.BTreeMap.{IsOrdered};
ghost use Rattle.std.specs.BTreeMap.Range.{entries_between};
ghost use Rattle.std.specs.declared.ops.Bound.TheVariants.{Excluded, Included, Unbounded};
ghost use Rattle.grid_types.specs.Requests.{place, is_waiting};
ghost use Rattle.grid_types.specs.Tables.{Tells};
ghost use Rattle.session_queue.specs.Table.{AddsLead, DropsLead, FindsInTime, FindsLike, Stands, Joins, KeepsLeads, Leaves, SameRows, are_like, is_like, place_of, row, waits};

use crate::alike::is_like;
use crate::laws::queue_laws;
use crate::request::Request;
use crate::request_table::RequestTable;
use grid_types::{Moment, ReqNo};
use std::collections::BTreeMap;
use std::ops::Bound;

/// Whether a request waits and is of another's kind.
fn waits_like(other: &Request, asked: &Request) -> bool
    ensures { result ≡ (is_waiting (place_of other.now.stage) && is_like asked.now other.now) }
{
    other.stage.is_waiting() && is_like(asked, other)
}

/// The first waiting request after a number that is of the kind.
fn first_like(requests: &BTreeMap<ReqNo, Request>, after: ReqNo, asked: &Request) -> Option<ReqNo>
    ensures first { result ≡ option_map (λ e. e.0)
        (find (λ e. is_waiting (place_of e.1.stage) && is_like asked.now e.1)
        (entries_between nat_cmp (Excluded after) Unbounded requests.now.entries)) }
    ensures ordered { IsOrdered nat_cmp requests.now }
{
    let (number, _) = requests
        .range((Bound::Excluded(after), Bound::Unbounded))
        .find(|(_, other)| waits_like(other, asked))?;
    Some(*number)
}

/// Whether a request waits, its deadline is ahead, and it is of another's kind.
fn waits_in_time(other: &Request, asked: &Request, at: Moment) -> bool
    ensures { result ≡ (is_waiting (place_of other.now.stage) &&
        (nat_lt at.0 other.now.deadline.0 && is_like asked.now other.now)) }
{
    other.stage.is_waiting() && at < other.deadline && is_like(asked, other)
}

/// The first waiting request from a number on that is of the kind and whose deadline is ahead.
fn first_in_time(
    requests: &BTreeMap<ReqNo, Request>,
    from: ReqNo,
    asked: &Request,
    at: Moment,
) -> Option<ReqNo>
    ensures first { result ≡ option_map (λ e. e.0)
        (find (λ e. is_waiting (place_of e.1.stage) &&
        (nat_lt at.0 e.1.deadline.0 && is_like asked.now e.1))
        (entries_between nat_cmp (Included from) Unbounded requests.now.entries)) }
    ensures ordered { IsOrdered nat_cmp requests.now }
{
    let (number, _) = requests
        .range(from..)
        .find(|(_, other)| waits_in_time(other, asked, at))?;
    Some(*number)
}

impl RequestTable {
    /// The first waiting request of a lead's kind whose deadline is ahead: mostly the lead itself. It takes no memory.
    pub fn in_time_of(&self, lead: ReqNo, at: Moment) -> Option<ReqNo>
        ensures { Tells Stands self.now (λ H. is_waiting (place H lead) ≡ true →
            FindsInTime H lead at.0 result) }
    {
        queue_laws();
        match self.find(lead) {
            Some(asked) => first_in_time(&self.requests, lead, asked, at),
            None => None,
        }
    }

    /// Takes a request out of the leads; the next one of its kind takes its place.
    pub(super) fn leave(&mut self, request: ReqNo)
        ensures rows { SameRows self.old self.new }
        ensures leads { Leaves self.old self.new request }
    {
        queue_laws();
        if self.is_lead(request) {
            self.pass_on(request);
        }
    }

    /// Sees to it that a request has a lead where it waits: an earlier one of its kind, or itself.
    pub(super) fn join(&mut self, request: ReqNo)
        ensures rows { SameRows self.old self.new }
        ensures leads { Joins self.old self.new request }
    {
        queue_laws();
        if self.is_waiting(request) {
            self.take_in(request);
        }
    }

    /// Where no request is left the leads are whole, whatever memory was lacking before.
    pub(super) fn renew(&mut self)
        ensures rows { SameRows self.old self.new }
        ensures leads { KeepsLeads self.old self.new }
    {
        if self.requests.is_empty() {
            self.leads.clear();
            self.led = true;
        }
    }

    fn pass_on(&mut self, request: ReqNo)
        ensures rows { SameRows self.old self.new }
        ensures leads { list_any (nat_eq request) self.old.leads.items ≡ true →
            Leaves self.old self.new request }
    {
        queue_laws();
        let next = self.next_like(request);
        self.drop_lead(request);
        if let Some(heir) = next {
            self.add_lead(heir);
        }
    }

    fn take_in(&mut self, request: ReqNo)
        ensures rows { SameRows self.old self.new }
        ensures leads { waits (row self.old request) ≡ true → Joins self.old self.new request }
    {
        queue_laws();
        match self.lead_of(request) {
            Some(lead) => {
                if request < lead {
                    self.drop_lead(lead);
                    self.add_lead(request);
                }
            }
            None => self.add_lead(request),
        }
    }

    fn is_lead(&self, request: ReqNo) -> bool
        ensures { result ≡ list_any (nat_eq request) self.now.leads.items }
    {
        self.leads.iter().any(|lead| request == *lead)
    }

    fn is_waiting(&self, request: ReqNo) -> bool
        ensures { result ≡ waits (row self.now request) }
    {
        match self.find(request) {
            Some(asked) => asked.stage.is_waiting(),
            None => false,
        }
    }

    /// The next waiting request of the request's kind.
    fn next_like(&self, request: ReqNo) -> Option<ReqNo>
        ensures { FindsLike self.now request result }
    {
        queue_laws();
        match self.find(request) {
            Some(asked) => first_like(&self.requests, request, asked),
            None => None,
        }
    }

    /// The lead that is of the request's kind.
    fn lead_of(&self, request: ReqNo) -> Option<ReqNo>
        ensures { waits (row self.now request) ≡ true →
            result ≡ find (λ l. are_like (row self.now l) (row self.now request))
            self.now.leads.items }
    {
        match self.find(request) {
            Some(asked) => self.lead_like(asked).copied(),
            None => None,
        }
    }

    fn lead_like(&self, asked: &Request) -> Option<&ReqNo>
        ensures { option_copied result ≡ find (λ l. are_like (row self.now l) (Some asked.now))
            self.now.leads.items }
    {
        self.leads
            .iter()
            .find(|lead| self.is_like_at(**lead, asked))
    }

    fn is_like_at(&self, lead: ReqNo, asked: &Request) -> bool
        ensures { result ≡ are_like (row self.now lead) (Some asked.now) }
    {
        match self.find(lead) {
            Some(leading) => is_like(leading, asked),
            None => false,
        }
    }

    fn add_lead(&mut self, request: ReqNo)
        ensures rows { SameRows self.old self.new }
        ensures leads { AddsLead self.old self.new request }
    {
        // Without memory for it the list is not whole, and nobody goes by it.
        if self.leads.push(request).is_err() {
            self.led = false;
        }
    }

    fn drop_lead(&mut self, request: ReqNo)
        ensures rows { SameRows self.old self.new }
        ensures leads { DropsLead self.old self.new request }
    {
        self.leads.retain(|lead| request != *lead);
    }
}
