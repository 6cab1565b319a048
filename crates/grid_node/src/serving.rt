//! Serving the links that come in.
ghost use Rattle.std.specs.Prelude.{◌≡◌, ◌≤◌, ◌⊎◌};
ghost use Rattle.grid_outside.specs.Counts.{Rose};
ghost use Rattle.grid_node.specs.Statuses.{HasServed, code};

use crate::beating::{Shared, beat_between};
use crate::node_end::NodeEnd;
use crate::single::SingleLink;
use grid_outside::{AwaitedLink, Clock, Door, Gate, Link};
use loop_node::{LoopNode, serve_node};
use std::alloc::Global;
use std::sync::Wait;
use std::sync::atomic::Ordering;

/// Serves one link, under the number that the hub answered last.
fn serve_link<L: Link>(alloc: Global, shared: &Shared<'_>, node: &mut LoopNode, link: &mut L) {
    let number = shared.number.load(Ordering::SeqCst);
    if number != node.number() {
        node.renumber(number);
    }
    // What ends one link concerns no other.
    let _ = serve_node(alloc, node, link);
}

/// Answers one request over the link of a connection, waited for by the gate, which is handed back. Where there is no room
/// for the link, its connection is closed.
fn serve_one<G: Gate + Drop>(
    alloc: Global,
    shared: &Shared<'_>,
    node: &mut LoopNode,
    gate: G,
    link: G::L,
) -> G {
    match AwaitedLink::new(alloc, gate, link) {
        Ok(link) => {
            let mut link = SingleLink::new(link);
            serve_link(alloc, shared, node, &mut link);
            link.into_link().into_gate()
        }
        Err(gate) => gate,
    }
}

fn accept_links<R: Wait, D: Door>(
    rt: &R,
    alloc: Global,
    shared: &Shared<'_>,
    node: &mut LoopNode,
    door: &mut D,
) -> NodeEnd
    ensures { HasServed (D.view door.old) (D.view door.new) (code result) }
{
    let Ok(mut gate) = door.gate() else {
        return NodeEnd::DoorFailed;
    };
    let mut nodes = door.nodes();
    let mut clock = door.clock();
    let mut last = clock.now().0;
    for _ in rt.forever() {
        last = beat_between(alloc, shared, &mut nodes, &mut clock, last);
        match door.accept() {
            Ok(Some(link)) => gate = serve_one(alloc, shared, node, gate, link),
            Ok(None) => return NodeEnd::Closed,
            Err(_) => return NodeEnd::DoorFailed,
        }
    }
    unreachable!()
}

/// Serves the links one after the other until the door is closed or fails, and tells the beats so.
pub(crate) fn serve_links<R: Wait, D: Door>(
    rt: &R,
    alloc: Global,
    shared: &Shared<'_>,
    node: &mut LoopNode,
    door: &mut D,
) -> NodeEnd
    ensures { HasServed (D.view door.old) (D.view door.new) (code result) }
{
    let end = accept_links(rt, alloc, shared, node, door);
    shared.closed.store(true, Ordering::SeqCst);
    end
}
