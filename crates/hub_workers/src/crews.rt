//! Crews: workers beside each other.
ghost use Rattle.std.specs.Prelude.{◌≡◌, ◌≤◌, All, vec_len};
ghost use Rattle.std.specs.List.{AllZip};
ghost use Rattle.std.specs.Thread.{IsSync, IsSend};
ghost use Rattle.hub_cell.specs.Passes.{IsOf, knows, spares_of};
ghost use Rattle.hub_workers.specs.Hands.{IsReady, HandDid};
ghost use Rattle.hub_workers.specs.Crews.{CrewDid};

use crate::hands::{Hand, hire, take_back};
use crate::tools::{CrewFault, Tool};
use crate::working::worker;
use grid_outside::{Clock, NodeLink};
use hub_cell::{Pass, SharedHub};
use std::alloc::Global;
use std::sync::Wait;
use std::thread::{Threads, for_each_mut};

/// One worker makes its turns.
fn one_works<R: Wait, N: NodeLink + Drop, C: Clock + Drop>(
    rt: &R,
    alloc: Global,
    hub: &SharedHub,
    turns: u64,
    hand: &mut Hand<N, C>,
)
    requires { IsReady hub.now hand.old }
    ensures { HandDid hub.now N.gives C.gives C.view turns hand.old hand.new }
{
    hand.end = worker(
        rt,
        alloc,
        hub,
        &mut hand.pass,
        &mut hand.tool.nodes,
        &mut hand.tool.clock,
        turns,
    );
    // What it has seen is legal and safe.
    hand.pass.number();
}

/// All of them make their turns, each in a thread of its own where one can be made.
fn all_work<R: Threads + Wait + Sync, N: NodeLink + Send + Drop, C: Clock + Send + Drop>(
    rt: &R,
    alloc: Global,
    hub: &SharedHub,
    turns: u64,
    hands: &mut [Hand<N, C>],
)
    requires ready { All (IsReady hub.now) hands.old }
    ensures did { AllZip (HandDid hub.now N.gives C.gives C.view turns) hands.old hands.new }
{
    let count = hands.len();
    if count == 0 {
        return;
    }
    for_each_mut(
        rt,
        hands,
        count,
        &|_, hand: &mut Hand<N, C>|
            requires { IsReady hub.now hand.now }
            ensures { HandDid hub.entry.now N.gives C.gives C.view turns hand.entry.now
                hand.exit.now }
        { one_works(rt, alloc, hub, turns, hand) },
    );
}

/// The same for a list of them.
fn all_listed_work<R: Threads + Wait + Sync, N: NodeLink + Send + Drop, C: Clock + Send + Drop>(
    rt: &R,
    alloc: Global,
    hub: &SharedHub,
    turns: u64,
    hands: &mut Vec<Hand<N, C>>,
)
    requires ready { All (IsReady hub.now) hands.old.items }
    ensures did { AllZip (HandDid hub.now N.gives C.gives C.view turns) hands.old.items
        hands.new.items }
    ensures count { vec_len hands.new ≡ vec_len hands.old }
{
    all_work(rt, alloc, hub, turns, hands.as_mut_slice());
}

/// Runs a worker with each tool, all of them beside each other, and each for so many turns. Each has a
/// pass that is split from this one, and in the end they are all joined, in the order of the tools.
pub fn crew<R: Threads + Wait + Sync, N: NodeLink + Send + Drop, C: Clock + Send + Drop>(
    rt: &R,
    alloc: Global,
    hub: &SharedHub,
    pass: &mut Pass,
    tools: &mut Vec<Tool<N, C>>,
    turns: u64,
) -> Result<(), CrewFault>
    requires own { IsOf hub.now pass.old }
    requires spares { vec_len tools.old ≤ spares_of pass.old }
    ensures own { IsOf hub.now pass.new }
    ensures spares { spares_of pass.old ≤ spares_of pass.new }
    ensures count { vec_len tools.new ≡ vec_len tools.old }
    ensures did { CrewDid hub.now N.gives C.gives C.view turns (knows pass.old) tools.old.items
        result (knows pass.new) tools.new.items }
{
    // It has at most so many spare readers as fit into its count of them.
    pass.spares();
    let Ok(mut hands) = Vec::with_capacity(alloc, tools.len()) else {
        return Err(CrewFault::Memory);
    };
    if let Err(fault) = hire(rt, hub, pass, tools, &mut hands) {
        take_back(hub, pass, tools, hands);
        return Err(fault);
    }
    all_listed_work(rt, alloc, hub, turns, &mut hands);
    match take_back(hub, pass, tools, hands) {
        Some(spent) => Err(CrewFault::Spent(spent)),
        None => Ok(()),
    }
}
