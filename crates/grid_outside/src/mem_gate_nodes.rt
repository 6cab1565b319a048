//! What reaches the nodes behind a gate in memory.
ghost use Rattle.std.specs.Prelude.{◌≡◌, List, [], None};
ghost use Rattle.grid_outside.specs.MemNodes.{NodesGive, exchanges_made, to_give};
ghost use Rattle.grid_outside.specs.declared.mem_nodes.MemNodes.{MemNodes};
ghost use Rattle.grid_outside.specs.UnderWay.{IsUnderWay, told_state};
ghost use Rattle.grid_outside.specs.UnderWayLaws.{one_under_way};

use crate::exchange::{ExchangeFault, Reply};
use crate::mem_node_line::MemNodeLine;
use crate::mem_nodes::MemNodes;
use crate::node_line::NodeLine;
use grid_types::NodeAddress;
use http_frames::NodeRequest;
use std::alloc::Global;

/// Nodes that have no reply to give, so each is unreachable. No question finds nothing there.
#[derive(Drop)]
pub struct MemGateNodes {
    line: MemNodeLine<MemNodes>,
}

impl MemGateNodes {
    pub(crate) fn new(alloc: Global) -> MemGateNodes
        ensures idle { result.line.came ≡ None }
        ensures give { to_give result.line.nodes ≡ [] }
        ensures made { exchanges_made result.line.nodes ≡ [] }
    {
        let nodes = MemNodes::new(alloc, Vec::new(alloc));
        MemGateNodes {
            line: MemNodeLine::new(nodes, Vec::new(alloc)),
        }
    }
}

impl NodeLine for MemGateNodes {
    ghost State = { MemNodes };

    ghost state = { λ x. told_state x.line.before.value x.line.came x.line.nodes };

    ghost faults = { λ n. n.failing.faults };

    ghost gives = { NodesGive };

    ghost asks = { λ x. IsUnderWay NodesGive (λ n. n.failing.faults)
        x.line.before.value x.line.came x.line.nodes };

    ghost one = { λ x. one_under_way NodesGive (λ n. n.failing.faults)
        x.line.before.value x.line.came x.line.nodes };

    fn allow(&mut self, ms: u64) {
        self.line.allow(ms);
    }

    fn ask(&mut self, alloc: Global, address: &NodeAddress, request: &NodeRequest<'_>) {
        self.line.ask(alloc, address, request);
    }

    fn came(&mut self, alloc: Global) -> Option<Result<Reply, ExchangeFault>> {
        self.line.came(alloc)
    }
}
