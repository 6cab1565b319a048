//! A node is asked to end a session.
ghost use Rattle.std.specs.Prelude.{◌≡◌, not};
ghost use Rattle.node_client.specs.Quitting.{AsksOnce};
ghost use Rattle.node_client.specs.Steps.{lacked};

use crate::path::SessionPath;
use crate::requests::quit_request;
use grid_outside::{ExchangeFault, NodeLink, Reply};
use hub_core::Closing;
use std::alloc::Global;

/// Whether a node was asked, by what came of it. False is out of memory.
pub fn was_sent(came: &Result<Reply, ExchangeFault>) -> bool
    ensures { result ≡ not (lacked came.now) }
{
    match came {
        Err(ExchangeFault::Memory) => false,
        Err(ExchangeFault::Unreachable) => true,
        Ok(_) => true,
    }
}

/// Asks the node of the closing to end its session, where that is called for. False is out of memory: it was not asked.
pub fn ask_to_end<N: NodeLink>(alloc: Global, closing: &Closing, nodes: &mut N) -> bool
    ensures { AsksOnce N.gives closing.now nodes.old result nodes.new }
{
    if closing.quit() {
        let path = SessionPath::of(&closing.session());
        let came = nodes.exchange(alloc, &closing.address(), &quit_request(path.as_bytes()));
        return was_sent(&came);
    }
    true
}
