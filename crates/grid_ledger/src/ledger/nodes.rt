//! Which changes of nodes are permitted.
ghost use Rattle.std.specs.Prelude.{◌≡◌, ◌&&◌, ◌-◌, ◌≤◌, ◌^◌, ℕ, true, min, nat_le, nat_lt, nat_eq, length};
ghost use Rattle.grid_types.specs.declared.entry.Change.TheVariants as change;
ghost use Rattle.grid_types.specs.History.{clock, next_node};
ghost use Rattle.grid_types.specs.Nodes.{beat_of, is_registered, stereotypes};
ghost use Rattle.grid_types.specs.Slots.{listed};
ghost use Rattle.grid_types.specs.Permitted.{is_drain_count, is_name_taken, is_well_sized, permitted};
ghost use Rattle.grid_ledger.specs.LedgerStands.{LedgerTells, MayNote};

use crate::ledger::GridLedger;
use grid_types::{
    MOST_DRAIN_AFTER, MOST_NODES, MOST_SESSIONS, MOST_SLOTS, Moment, NodeNo, Registration,
    SlotGroup, Text,
};
use hub_walks::listed_count;
use moment_rules::{lapsed, silent};

/// How many slots the groups have in all, or the type's end where they have more.
fn slot_count(groups: &[SlotGroup]) -> u64
    ensures { result ≡ min (length (stereotypes groups.now)) (2 ^ 64 - 1) }
{
    let mut count: u64 = 0;
    for group in groups {
        count = count.saturating_add(u64::from(group.count));
    }
    count
}

fn is_drain_count(count: Option<u32>) -> bool
    ensures { result ≡ is_drain_count count }
{
    match count {
        Some(count) => count >= 1 && count <= MOST_DRAIN_AFTER,
        None => true,
    }
}

/// Whether the node has from 1 to 64 slots, takes from 1 to 64 sessions at once, and has a count to drain after within its
/// limits, where it has one.
fn is_well_sized(node: &Registration) -> bool
    ensures sized { result ≡ is_well_sized node.now }
    ensures few { result ≡ true → length (stereotypes node.now.groups) ≤ MOST_SLOTS }
{
    let slots = slot_count(node.groups.items());
    let sessions = u64::from(node.max_sessions);
    slots >= 1
        && slots <= MOST_SLOTS as u64
        && sessions >= 1
        && sessions <= MOST_SESSIONS as u64
        && is_drain_count(node.drain_after)
}

impl GridLedger {
    fn is_next_node(&self, node: NodeNo) -> bool
        ensures { LedgerTells self.now (λ H. result ≡ nat_eq node (next_node self.now.config H)) }
    {
        node == self.next_node
    }

    fn is_name_taken(&self, name: &Text) -> bool
        ensures { LedgerTells self.now (λ H. result ≡ is_name_taken H name.now) }
    {
        self.nodes.registered_as(name).is_some()
    }

    /// Whether one more node may be listed.
    fn has_place(&self) -> bool
        ensures { LedgerTells self.now (λ H. result ≡ nat_lt (length (listed H)) MOST_NODES) }
    {
        listed_count(&self.nodes, &self.slots) < MOST_NODES
    }

    /// Whether the registered node has given no sign for as long as one that is down.
    fn has_lapsed(&self, node: NodeNo, at: Moment) -> bool
        ensures { LedgerTells self.now (λ H. is_registered H node ≡ true →
            result ≡ nat_le self.now.config.down_ms (at.0 - beat_of H node)) }
    {
        match self.nodes.beat(node) {
            Some(beat) => lapsed(beat, at, &self.config),
            None => false,
        }
    }

    /// Whether the registered node has given no sign for as long as one that is suspect.
    fn is_silent(&self, node: NodeNo, at: Moment) -> bool
        ensures { LedgerTells self.now (λ H. is_registered H node ≡ true →
            result ≡ nat_le self.now.config.lapse_ms (at.0 - beat_of H node)) }
    {
        match self.nodes.beat(node) {
            Some(beat) => silent(beat, at, &self.config),
            None => false,
        }
    }

    /// A node registers under the next number and a name that no registered node has, where one more may be listed.
    #[tactic(auto, unfolding(grid_types::specs::Permitted::permitted))]
    pub(super) fn permits_registered(
        &self,
        node: NodeNo,
        registration: &Registration,
        at: Moment,
    ) -> bool
        ensures exact { (caller : ℕ) → LedgerTells self.now
            (λ H. result ≡ permitted self.now.config H caller
            (change.Registered node registration.now at)) }
        ensures few { result ≡ true → length (stereotypes registration.now.groups) ≤ MOST_SLOTS }
    {
        self.is_current(at)
            && self.is_next_node(node)
            && node < NodeNo::MAX
            && !self.is_name_taken(&registration.name)
            && self.has_place()
            && is_well_sized(registration)
    }

    /// A registered node gives a sign.
    #[tactic(auto, unfolding(grid_types::specs::Permitted::permitted))]
    pub(super) fn permits_beaten(&self, node: NodeNo, at: Moment) -> bool
        ensures { (caller : ℕ) → LedgerTells self.now
            (λ H. result ≡ permitted self.now.config H caller (change.Beaten node at)) }
    {
        self.is_current(at) && self.nodes.is_registered(node)
    }

    /// A registered node that was not drained is drained.
    #[tactic(auto, unfolding(grid_types::specs::Permitted::permitted))]
    pub(super) fn permits_draining(&self, node: NodeNo, at: Moment) -> bool
        ensures { (caller : ℕ) → LedgerTells self.now
            (λ H. result ≡ permitted self.now.config H caller (change.Draining node at)) }
    {
        self.is_current(at) && self.nodes.is_base_up(node)
    }

    /// A registered node is removed.
    #[tactic(auto, unfolding(grid_types::specs::Permitted::permitted))]
    pub(super) fn permits_removed(&self, node: NodeNo, at: Moment) -> bool
        ensures { (caller : ℕ) → LedgerTells self.now
            (λ H. result ≡ permitted self.now.config H caller (change.Removed node at)) }
    {
        self.is_current(at) && self.nodes.is_registered(node)
    }

    /// A registered node is down.
    #[tactic(auto, unfolding(grid_types::specs::Permitted::permitted))]
    pub(super) fn permits_lapsed(&self, node: NodeNo, at: Moment) -> bool
        ensures { (caller : ℕ) → LedgerTells self.now
            (λ H. result ≡ permitted self.now.config H caller (change.Lapsed node at)) }
    {
        self.is_current(at) && self.nodes.is_registered(node) && self.has_lapsed(node, at)
    }

    /// A registered node that is not suspect is suspected.
    #[tactic(auto, unfolding(grid_types::specs::Permitted::permitted))]
    pub(super) fn permits_suspected(&self, node: NodeNo, at: Moment) -> bool
        ensures { (caller : ℕ) → LedgerTells self.now
            (λ H. result ≡ permitted self.now.config H caller (change.Suspected node at)) }
    {
        self.is_current(at)
            && self.nodes.is_registered(node)
            && !self.nodes.is_suspect(node)
            && self.is_silent(node, at)
    }
}
