//! Sessions of closing slots are asked to end at their nodes.

use grid_ledger::GridLedger;
use grid_opening::Ender;
use grid_outside::{ExchangeFault, NodeLink};
use grid_replay::Replay;
use grid_types::{NodeAddress, SessionId, SlotId};
use node_client::{SessionPath, quit_request};
use std::alloc::Global;

/// Asks nodes to end sessions. One that could not be reached is asked no more, so that each node is waited for once at most.
#[derive(Drop)]
pub(crate) struct Asking<N: NodeLink + Drop> {
    alloc: Global,
    nodes: N,
    lost: Vec<NodeAddress>,
}

impl<N: NodeLink + Drop> Asking<N> {
    /// Asks by this link.
    pub(crate) fn new(alloc: Global, nodes: N) -> Self {
        Asking {
            alloc,
            nodes,
            lost: Vec::new(alloc),
        }
    }

    fn ask(&mut self, address: &NodeAddress, session: &SessionId) {
        let path = SessionPath::of(session);
        let came = self
            .nodes
            .exchange(self.alloc, address, &quit_request(path.as_bytes()));
        if let Err(ExchangeFault::Unreachable) = came {
            // Where there is no memory for it, it is waited for once more.
            let _ = self.lost.push(*address);
        }
    }
}

impl<N: NodeLink + Drop> Ender<Replay> for Asking<N> {
    fn end(&mut self, ledger: &GridLedger, listener: &Replay, slot: SlotId) {
        let (Some(session), Some(address)) = (
            listener.last_at(slot),
            ledger.node_address(slot.node),
        ) else {
            return;
        };
        if !self.lost.contains(&address) {
            self.ask(&address, &session);
        }
    }
}
