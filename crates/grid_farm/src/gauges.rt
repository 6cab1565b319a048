//! How many nodes, slots and requests there are of each state.
ghost use Rattle.std.specs.Prelude.{◌≡◌, length, filter};
ghost use Rattle.grid_farm.specs.Gauges.{draining_count, free_on, is_draining, is_suspect, is_up, nodes_in_states, slots_in_states, suspect_count, up_count, used_on, used_so, waiting_count, with_free};
ghost use Rattle.grid_farm.specs.Known.{known};
ghost use Rattle.grid_farm.specs.Uses.{is_busy, is_closing, is_held, is_start_of, is_starting};

use crate::farm::KnownFarm;
use crate::rows::{SlotUse, UseRow};
use grid_log::NodeRow;
use grid_types::{NodeNo, ReqNo};

/// Slots by what they are used for.
#[derive(Clone, Copy, Debug, PartialEq, Eq)]
pub struct SlotStates {
    /// Those of registered nodes that are free.
    pub free: u64,
    pub starting: u64,
    pub busy: u64,
    pub closing: u64,
}

/// Registered nodes by what they are like.
#[derive(Clone, Copy, Debug, PartialEq, Eq)]
pub struct NodeStates {
    pub up: u64,
    /// Those that are suspect and not draining.
    pub suspect: u64,
    pub draining: u64,
}

fn starting(uses: &[UseRow]) -> u64
    ensures { result ≡ used_so is_starting uses.now }
{
    uses.iter()
        .filter(|row| matches!(row.state, SlotUse::Starting(_)))
        .count() as u64
}

fn busy(uses: &[UseRow]) -> u64
    ensures { result ≡ used_so is_busy uses.now }
{
    uses.iter()
        .filter(|row| matches!(row.state, SlotUse::Busy))
        .count() as u64
}

fn closing(uses: &[UseRow]) -> u64
    ensures { result ≡ used_so is_closing uses.now }
{
    uses.iter()
        .filter(|row| matches!(row.state, SlotUse::Closing))
        .count() as u64
}

fn used_on(node: NodeNo, uses: &[UseRow]) -> u64
    ensures { result ≡ used_on node uses.now }
{
    uses.iter().filter(|row| row.slot.node == node).count() as u64
}

fn free_on(uses: &[UseRow], row: &NodeRow) -> u64
    ensures { result ≡ free_on uses.now row.now }
{
    row.slots.saturating_sub(used_on(row.node, uses))
}

fn free_in(uses: &[UseRow], nodes: &[NodeRow]) -> u64
    ensures { result ≡ with_free uses.now 0 nodes.now }
{
    let mut count: u64 = 0;
    for row in nodes {
        count = count.saturating_add(free_on(uses, row));
    }
    count
}

fn is_start_of(request: ReqNo, row: &UseRow) -> bool
    ensures { result ≡ is_start_of request row.now.state }
{
    match row.state {
        SlotUse::Starting(named) => named == request,
        SlotUse::Busy | SlotUse::Closing => false,
    }
}

/// Whether a session is started for the request.
fn is_held(uses: &[UseRow], request: ReqNo) -> bool
    ensures { result ≡ is_held uses.now request }
{
    uses.iter().any(|row| is_start_of(request, row))
}

impl KnownFarm {
    /// Whether the node is draining.
    pub fn is_draining(&self, row: &NodeRow) -> bool
        ensures { result ≡ is_draining (known self.now) row.now }
    {
        self.draining.contains(&row.node)
    }

    /// Whether the node is suspect, and not draining.
    pub fn is_suspect(&self, row: &NodeRow) -> bool
        ensures { result ≡ is_suspect (known self.now) row.now }
    {
        !self.is_draining(row) && self.past.is_suspect(row.node)
    }

    /// Whether the node is neither.
    pub fn is_up(&self, row: &NodeRow) -> bool
        ensures { result ≡ is_up (known self.now) row.now }
    {
        !self.is_draining(row) && !self.past.is_suspect(row.node)
    }

    /// How many slots of the node are free.
    pub fn free_on(&self, row: &NodeRow) -> u64
        ensures { result ≡ free_on self.now.uses.items row.now }
    {
        free_on(self.uses.as_slice(), row)
    }

    /// Whether a session is started for the request.
    pub fn is_held(&self, request: ReqNo) -> bool
        ensures { result ≡ is_held self.now.uses.items request }
    {
        is_held(self.uses.as_slice(), request)
    }

    /// The slots by their states.
    pub fn slots(&self) -> SlotStates
        ensures { result ≡ slots_in_states (known self.now) }
    {
        let uses = self.uses.as_slice();
        SlotStates {
            free: free_in(uses, self.past.nodes()),
            starting: starting(uses),
            busy: busy(uses),
            closing: closing(uses),
        }
    }

    fn up_count(&self) -> u64
        ensures { result ≡ up_count (known self.now) }
    {
        self.past
            .nodes()
            .iter()
            .filter(|row| self.is_up(row))
            .count() as u64
    }

    fn suspect_count(&self) -> u64
        ensures { result ≡ suspect_count (known self.now) }
    {
        self.past
            .nodes()
            .iter()
            .filter(|row| self.is_suspect(row))
            .count() as u64
    }

    fn draining_count(&self) -> u64
        ensures { result ≡ draining_count (known self.now) }
    {
        self.past
            .nodes()
            .iter()
            .filter(|row| self.is_draining(row))
            .count() as u64
    }

    /// The registered nodes by their states.
    pub fn nodes(&self) -> NodeStates
        ensures { result ≡ nodes_in_states (known self.now) }
    {
        NodeStates {
            up: self.up_count(),
            suspect: self.suspect_count(),
            draining: self.draining_count(),
        }
    }

    /// How many requests wait: those that are not settled and for which no session is started.
    pub fn waiting(&self) -> u64
        ensures { result ≡ waiting_count (known self.now) }
    {
        let uses = self.uses.as_slice();
        self.past
            .unsettled()
            .iter()
            .filter(|row| !is_held(uses, row.request))
            .count() as u64
    }
}
