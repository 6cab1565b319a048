//! The tables of the hub, as they stand for the history that was read so far.
ghost use Rattle.std.specs.Prelude.{◌≡◌, [], nat_le, max};
ghost use Rattle.grid_types.specs.History.{clock};
ghost use Rattle.grid_types.specs.Tables.{OthersKeep, is_node_change, is_slot_change, is_request_change, is_session_change};
ghost use Rattle.node_registry.specs.Table as of_node;
ghost use Rattle.reservation.specs.Table as of_slot;
ghost use Rattle.session_queue.specs.Table as of_request;
ghost use Rattle.session_map.specs.Table as of_session;
ghost use Rattle.grid_ledger.specs.LedgerStands.{Stands, Keeps, LedgerTells};

mod changes;
mod looks;
mod nodes;
mod permits;
mod requests;
mod sessions;
mod starts;
mod tables;

use grid_types::{HubConfig, Moment, NodeNo, ReqNo};
use node_registry::NodeTable;
use reservation::SlotTable;
use session_map::LiveMap;
use session_queue::RequestTable;
use std::alloc::Global;

/// What stands for a history: the tables of nodes, slots, requests and sessions, the next numbers and the clock.
#[derive(Drop)]
pub struct GridLedger {
    config: HubConfig,
    nodes: NodeTable,
    slots: SlotTable,
    requests: RequestTable,
    sessions: LiveMap,
    next_node: NodeNo,
    next_request: ReqNo,
    clock: Moment,
}

/// Each table stands for a history with an entry of a kind that it doesn't take as for the history before it.
fn others_keep()
    ensures nodes { OthersKeep of_node.Stands is_node_change }
    ensures slots { OthersKeep of_slot.Stands is_slot_change }
    ensures requests { OthersKeep of_request.Stands is_request_change }
    ensures sessions { OthersKeep of_session.Stands is_session_change }
{
    node_registry::other_changes_keep();
    reservation::other_changes_keep();
    session_queue::other_changes_keep();
    session_map::other_changes_keep();
}

impl GridLedger {
    /// Nothing has happened yet. It takes no memory.
    pub fn new(alloc: Global, config: HubConfig) -> GridLedger
        ensures stands { Stands result [] }
        ensures config { result.config ≡ config }
    {
        GridLedger {
            config,
            nodes: NodeTable::new(alloc),
            slots: SlotTable::new(alloc),
            requests: RequestTable::new(alloc),
            sessions: LiveMap::new(alloc),
            next_node: config.first_node,
            next_request: config.first_request,
            clock: Moment(0),
        }
    }

    /// Whether the moment is not before that of the last entry.
    fn is_current(&self, at: Moment) -> bool
        ensures { LedgerTells self.now (λ H. result ≡ nat_le (clock H) at.0) }
    {
        self.clock.0 <= at.0
    }

    /// The later of the moment and the clock.
    fn raised(&self, at: Moment) -> Moment
        ensures { result.0 ≡ max at.0 self.now.clock.0 }
    {
        Moment(at.0.max(self.clock.0))
    }

    /// Lets what is known of a node go, where it is not listed any more.
    fn forget_unlisted(&mut self, node: NodeNo)
        ensures { Keeps self.old self.new }
    {
        if !self.nodes.is_registered(node) && !self.slots.has_slot_in_use(node) {
            self.nodes.forget(node);
            self.slots.forget(node);
        }
    }
}
