//! The tables of a hub in one value, with the next numbers and the clock.
ghost use Rattle.std.specs.Prelude.{◌≡◌, List, [], max};
ghost use Rattle.grid_types.specs.declared.config.HubConfig.{HubConfig};
ghost use Rattle.grid_types.specs.declared.entry.Entry.{Entry};
ghost use Rattle.grid_types.specs.History.{clock, next_node, next_request};
ghost use Rattle.hub_tables.specs.Tables.{EachStands, Forgets, IsNext, Keeps, Stands, Tells, TellsOf, node_number, request_number};

mod changes;
mod nodes;
mod requests;
mod searching;
mod sessions;

use grid_types::{HubConfig, Moment, NodeNo, ReqNo};
use node_registry::NodeTable;
use reservation::SlotTable;
use session_map::LiveMap;
use session_queue::RequestTable;
use std::alloc::Global;

/// The tables of nodes, slots, requests and sessions, the next numbers, the clock, and what is remembered of a search that
/// found nothing.
#[derive(Drop)]
pub struct HubTables {
    nodes: NodeTable,
    slots: SlotTable,
    requests: RequestTable,
    sessions: LiveMap,
    next_node: NodeNo,
    next_request: ReqNo,
    clock: Moment,
    /// No slot fits a request below this number, from the moment on.
    searched_below: ReqNo,
    searched_from: Moment,
}

impl HubTables {
    /// Tables without a node or a request, of a hub of this configuration. They take no memory.
    pub fn new(alloc: Global, config: &HubConfig) -> HubTables
        ensures { Stands config.now result [] }
    {
        HubTables {
            nodes: NodeTable::new(alloc),
            slots: SlotTable::new(alloc),
            requests: RequestTable::new(alloc),
            sessions: LiveMap::new(alloc),
            next_node: config.first_node,
            next_request: config.first_request,
            clock: Moment(0),
            searched_below: 0,
            searched_from: Moment(0),
        }
    }

    /// Tables that each stand for a history, in one value with its next numbers and its clock: they stand for it together.
    /// Nothing is remembered of a search. It takes no memory.
    pub fn resume(
        nodes: NodeTable,
        slots: SlotTable,
        requests: RequestTable,
        sessions: LiveMap,
        node: NodeNo,
        request: ReqNo,
        at: Moment,
    ) -> HubTables
        ensures { (c : HubConfig) (H : List Entry) → EachStands H nodes slots requests sessions →
            IsNext c H node request at.0 → Stands c result H }
    {
        HubTables {
            nodes,
            slots,
            requests,
            sessions,
            next_node: node,
            next_request: request,
            clock: at,
            searched_below: 0,
            searched_from: Moment(0),
        }
    }

    /// The number of the node that registers next.
    pub fn next_node_number(&self) -> NodeNo
        ensures number { result ≡ node_number self.now }
        ensures counts { TellsOf self.now (λ c H. node_number self.now ≡ next_node c H) }
    {
        self.next_node
    }

    /// The number of the request that is queued next.
    pub fn next_request_number(&self) -> ReqNo
        ensures number { result ≡ request_number self.now }
        ensures counts { TellsOf self.now (λ c H. request_number self.now ≡ next_request c H) }
    {
        self.next_request
    }

    /// The moment, raised to that of the last entry where it is earlier.
    pub fn raised(&self, at: Moment) -> Moment
        ensures { Tells self.now (λ H. result.0 ≡ max at.0 (clock H)) }
    {
        self.not_before(at)
    }

    /// The moment, raised to the clock where it is earlier.
    fn not_before(&self, at: Moment) -> Moment
        ensures { result.0 ≡ max at.0 self.now.clock.0 }
    {
        Moment(at.0.max(self.clock.0))
    }

    /// Lets what is known of a node go, where it is not listed any more.
    fn forget_unlisted(&mut self, node: NodeNo)
        ensures keeps { Keeps self.old self.new }
        ensures gone { Forgets self.new node }
    {
        if self.nodes.is_registered(node) {
            return;
        }
        if self.slots.has_slot_in_use(node) {
            return;
        }
        self.nodes.forget(node);
        self.slots.forget(node);
    }
}
