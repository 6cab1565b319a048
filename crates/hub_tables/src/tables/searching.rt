//! The assignment that is made next, and what is remembered of a search that found none.
ghost use Rattle.std.specs.Prelude.{◌≡◌, ◌+◌, ◌*◌, ◌≤◌, None, option_map};
ghost use Rattle.grid_types.specs.History.{nodes as nodes_of};
ghost use Rattle.request_laws.specs.Kinds.{choices_in, kinds};
ghost use Rattle.grid_types.specs.Choice.{chosen};
ghost use Rattle.hub_walks.specs.First.{as_chosen, NoneBelow, groups_up};
ghost use Rattle.hub_tables.specs.Tables.{Keeps, Tells};

use crate::tables::HubTables;
use grid_types::{Moment, ReqNo, chosen_is_first};
use hub_walks::Assignment;
use request_laws::nothing_stays;
use slot_match::Steps;
use std::sync::ledger::Ledger;

impl HubTables {
    /// The assignment that is made next. It takes no memory, and at most a comparison for each choice of each kind of
    /// waiting requests with each group of nodes that are up.
    pub fn next_assignment<L: Ledger>(
        &self,
        now: Moment,
        steps: &mut Steps<L>,
    ) -> Option<Assignment>
        ensures answer { Tells self.now (λ H. option_map as_chosen result ≡ chosen H now.0) }
        ensures cost { Tells self.now (λ H. steps.new
            ≤ steps.old + choices_in H (kinds H) * groups_up H (nodes_of H)) }
    {
        let first = self.first_to_search(now);
        hub_walks::chosen(&self.nodes, &self.slots, &self.requests, first, now, steps)
    }

    /// The first request that a slot may fit at the moment.
    fn first_to_search(&self, now: Moment) -> ReqNo
        ensures { Tells self.now (λ H. NoneBelow H result now.0) }
    {
        if now >= self.searched_from {
            self.searched_below
        } else {
            0
        }
    }

    /// Remembers that there is no assignment at the moment: no slot fits a request then, nor later, until there is
    /// something new.
    pub fn search_ended(&mut self, now: Moment)
        ensures { Tells self.old (λ H. None ≡ chosen H now.0) → Keeps self.old self.new }
    {
        // For the proof alone: where nothing is chosen nothing fits, and nothing will later.
        chosen_is_first();
        nothing_stays();
        self.searched_below = self.next_request;
        self.searched_from = now;
    }
}
