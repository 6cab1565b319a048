//! Workers with a pass of their own: how they are taken on, and how their passes end.
ghost use Rattle.std.specs.Prelude.{◌≡◌, ◌<◌, ◌≤◌, ◌+◌, ◌-◌, ◌^◌, ℕ, [], All, OnErr, OnOk, vec_len, vec_capacity};
ghost use Rattle.hub_cell.specs.Passes.{IsOf, knows, spares_of};
ghost use Rattle.hub_workers.specs.Hands.{IsBack, IsHired, IsSplitOff, MayEnd, MayRise};
ghost use Rattle.hub_workers.specs.Turns.{spent_after};

use crate::ends::WorkerEnd;
use crate::tools::{CrewFault, Tool};
use grid_types::Spent;
use hub_cell::{Pass, SharedHub, SplitFault};
use std::sync::Wait;

/// A worker's pass and tool, and how the worker ended.
pub struct Hand<N: Drop, C: Drop> {
    pub(crate) pass: Pass,
    pub(crate) end: WorkerEnd,
    pub(crate) tool: Tool<N, C>,
}

/// A pass for a worker.
fn split_off<R: Wait>(rt: &R, hub: &SharedHub, pass: &mut Pass) -> Result<Pass, CrewFault>
    requires own { IsOf hub.now pass.old }
    requires spare { 1 ≤ spares_of pass.old }
    ensures own { IsOf hub.now pass.new }
    ensures split { IsSplitOff hub.now (knows pass.old) result (knows pass.new) }
    ensures spares { spares_of pass.old ≤ spares_of pass.new + 1 }
    ensures kept { OnErr result (spares_of pass.new ≡ spares_of pass.old) }
{
    match hub.split(rt, pass) {
        Ok(other) => Ok(other),
        Err(SplitFault::Spent(spent)) => Err(CrewFault::Spent(spent)),
        Err(SplitFault::Memory) => Err(CrewFault::Memory),
        Err(SplitFault::NoReader { passes: _ }) => unreachable!(),
    }
}

/// Gives each tool, from the last on, to a worker with a pass of its own.
pub(crate) fn hire<R: Wait, N: Drop, C: Drop>(
    rt: &R,
    hub: &SharedHub,
    pass: &mut Pass,
    tools: &mut Vec<Tool<N, C>>,
    hands: &mut Vec<Hand<N, C>>,
) -> Result<(), CrewFault>
    requires own { IsOf hub.now pass.old }
    requires room { (hands.old.items ≡ []) × (vec_len tools.old ≤ vec_capacity hands.old) }
    requires spares { vec_len tools.old ≤ spares_of pass.old }
    ensures own { IsOf hub.now pass.new }
    ensures hired { IsHired hub.now (knows pass.old) tools.old.items result (knows pass.new)
        tools.new.items hands.new.items }
    ensures spares { spares_of pass.old ≤ spares_of pass.new + vec_len hands.new }
    ensures room { (vec_len tools.new + vec_len hands.new ≡ vec_len tools.old)
        × (vec_capacity tools.new ≡ vec_capacity tools.old) }
    ensures all { OnOk result (tools.new.items ≡ []) }
{
    for _ in 0..tools.len() {
        match split_off(rt, hub, pass) {
            Ok(pass) => hands.push_reserved(Hand {
                pass,
                end: WorkerEnd::TurnsDone,
                tool: tools.take_last(),
            }),
            Err(fault) => return Err(fault),
        }
    }
    Ok(())
}

/// Why the crew stops, with one more worker that ended so.
fn also(spent: Option<Spent>, end: WorkerEnd) -> Option<Spent>
    ensures { (start count : ℕ) → MayRise start spent count →
        MayRise start result (count + spent_after 0 end) }
{
    match end {
        WorkerEnd::TurnsDone => spent,
        WorkerEnd::Spent(spent) => Some(spent),
    }
}

/// Takes the tools back, from the last worker on, and joins the passes. Some says that one of them
/// found the hub spent.
pub(crate) fn take_back<N: Drop, C: Drop>(
    hub: &SharedHub,
    pass: &mut Pass,
    tools: &mut Vec<Tool<N, C>>,
    mut hands: Vec<Hand<N, C>>,
) -> Option<Spent>
    requires own { IsOf hub.now pass.old }
    requires each { All (MayEnd hub.now) hands.items }
    requires room { vec_len tools.old + vec_len hands ≤ vec_capacity tools.old }
    ensures own { IsOf hub.now pass.new }
    ensures count { vec_len tools.new ≡ vec_len tools.old + vec_len hands }
    ensures back { IsBack (knows pass.old) tools.old.items hands.items result (knows pass.new)
        tools.new.items }
    ensures spares { (s : ℕ) → s ≤ 2 ^ 32 - 1 → s ≤ spares_of pass.old + vec_len hands →
        s ≤ spares_of pass.new }
{
    let mut spent = None;
    for _ in 0..hands.len() {
        let Hand {
            pass: other,
            end,
            tool,
        } = hands.take_last();
        hub.join(pass, other);
        tools.push_reserved(tool);
        spent = also(spent, end);
    }
    hands.destroy_empty();
    spent
}
