//! What goes before each request: own nodes give a sign of life, the hub sweeps, and idle sessions are ended.
ghost use Rattle.std.specs.Prelude.{◌≡◌, ◌≤◌, [], IfOk, OnOk};
ghost use Rattle.hub_core.specs.HubView.{past};
ghost use Rattle.hub_core.specs.Serves.{MayCall};
ghost use Rattle.grid_types.specs.Calls.{Call};
ghost use Rattle.local_driver.specs.World.{world_of, WentBy};
ghost use Rattle.local_driver.specs.Idles.{AsksAndFrees, Looked, EndsOne, live_count, found_by};
ghost use Rattle.local_driver.specs.Beginning.{BeginsOrLacks, ExpiresOrLacks};
ghost use Rattle.own_hub.specs.Own.{GoesOrStops};

use grid_outside::{Clock, NodeLink};
use grid_types::NodeNo;
use hub_core::{Closing, Expiring};
use node_client::ask_to_end;
use own_hub::OwnHub;
use std::alloc::Global;

/// What a look for an idle session came to.
#[derive(Clone, Copy)]
enum Idle {
    /// One was ended.
    Ended,
    /// There is none.
    Over,
    /// Out of memory, for the call or for the request to the node.
    Lacks,
}

/// Has the session of the closing ended at its node, and frees its slot. False is out of memory: the node was not asked.
fn finish<H: OwnHub, N: NodeLink, C: Clock>(
    alloc: Global,
    hub: &mut H,
    closing: Closing,
    nodes: &mut N,
    clock: &mut C,
) -> Result<bool, H::Fault>
    requires open { H.own.IsOpen hub.old }
    requires may { MayCall (past (H.own.shown hub.old)) 0 (Call.freed closing) }
    ensures finishes { IfOk result (λ sent. WentBy N.gives C.gives (AsksAndFrees closing sent)
        (world_of (H.own.shown hub.old) nodes.old clock.old (C.view clock.old))
        (world_of (H.own.shown hub.new) nodes.new clock.new (C.view clock.new))) }
    ensures live { OnOk result
        (live_count (past (H.own.shown hub.new)) ≤ live_count (past (H.own.shown hub.old))) }
    ensures goes { GoesOrStops H.own hub.old result hub.new }
{
    let sent = ask_to_end(alloc, &closing, nodes);
    let _now = clock.now();
    hub.freed(closing)?;
    Ok(sent)
}

/// Ends one idle session, if there is one.
fn end_idle<H: OwnHub, N: NodeLink, C: Clock>(
    alloc: Global,
    hub: &mut H,
    nodes: &mut N,
    clock: &mut C,
) -> Result<Idle, H::Fault>
    requires { H.own.IsOpen hub.old }
    ensures looked { IfOk result (λ found. WentBy N.gives C.gives (Looked found)
        (world_of (H.own.shown hub.old) nodes.old clock.old (C.view clock.old))
        (world_of (H.own.shown hub.new) nodes.new clock.new (C.view clock.new))) }
    ensures ends { IfOk result (λ found.
        EndsOne found (past (H.own.shown hub.old)) (past (H.own.shown hub.new))) }
    ensures goes { GoesOrStops H.own hub.old result hub.new }
{
    let at = clock.now();
    if !hub.has_room() {
        return Ok(Idle::Lacks);
    }
    match hub.expire(at)? {
        Expiring::Expired(closing) => {
            let sent = finish(alloc, hub, closing, nodes, clock)?;
            Ok(ended(sent))
        }
        Expiring::Nothing => Ok(Idle::Over),
    }
}

fn ended(sent: bool) -> Idle
    ensures { result ≡ found_by sent }
{
    if sent { Idle::Ended } else { Idle::Lacks }
}

/// Ends the idle sessions one after the other. False is out of memory.
fn end_all_idle<H: OwnHub, N: NodeLink, C: Clock>(
    alloc: Global,
    hub: &mut H,
    nodes: &mut N,
    clock: &mut C,
) -> Result<bool, H::Fault>
    requires { H.own.IsOpen hub.old }
    ensures ends { IfOk result (λ done. WentBy N.gives C.gives (ExpiresOrLacks done)
        (world_of (H.own.shown hub.old) nodes.old clock.old (C.view clock.old))
        (world_of (H.own.shown hub.new) nodes.new clock.new (C.view clock.new))) }
    ensures goes { GoesOrStops H.own hub.old result hub.new }
{
    'looks: loop {
        match end_idle(alloc, hub, nodes, clock)? {
            Idle::Ended => {}
            Idle::Over => return Ok(true),
            Idle::Lacks => return Ok(false),
        }
    }
}

/// Does what goes before a request in a program with nodes of its own: these give a sign of life, the hub sweeps, and idle
/// sessions are ended. The clock is asked for the moment of each call anew. False is out of memory.
pub fn begin<H: OwnHub, N: NodeLink, C: Clock>(
    alloc: Global,
    hub: &mut H,
    own: &[NodeNo],
    nodes: &mut N,
    clock: &mut C,
) -> Result<bool, H::Fault>
    requires { H.own.IsOpen hub.old }
    ensures begins { IfOk result (λ done. WentBy N.gives C.gives (BeginsOrLacks own.now done)
        (world_of (H.own.shown hub.old) nodes.old clock.old (C.view clock.old))
        (world_of (H.own.shown hub.new) nodes.new clock.new (C.view clock.new))) }
    ensures goes { GoesOrStops H.own hub.old result hub.new }
{
    for node in own {
        let at = clock.now();
        if !hub.has_room() {
            return Ok(false);
        }
        hub.beat(*node, at)?;
    }
    sweep_and_end(alloc, hub, nodes, clock)
}

/// Sweeps, and ends the idle sessions. False is out of memory.
fn sweep_and_end<H: OwnHub, N: NodeLink, C: Clock>(
    alloc: Global,
    hub: &mut H,
    nodes: &mut N,
    clock: &mut C,
) -> Result<bool, H::Fault>
    requires { H.own.IsOpen hub.old }
    ensures begins { IfOk result (λ done. WentBy N.gives C.gives (BeginsOrLacks [] done)
        (world_of (H.own.shown hub.old) nodes.old clock.old (C.view clock.old))
        (world_of (H.own.shown hub.new) nodes.new clock.new (C.view clock.new))) }
    ensures goes { GoesOrStops H.own hub.old result hub.new }
{
    let at = clock.now();
    if !hub.has_room() {
        return Ok(false);
    }
    hub.sweep(at)?;
    end_all_idle(alloc, hub, nodes, clock)
}
