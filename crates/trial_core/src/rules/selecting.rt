//! Which slot is chosen.
ghost use Rattle.std.specs.Prelude.{◌≡◌, ◌<◌, ◌≤◌, length};
ghost use Rattle.grid_types.specs.Nodes.{stereotypes};

use crate::rules::members::{Kind, put};
use grid_types::{Caps, NoMemory, SlotGroup, SlotId};
use slot_match::Steps;
use slot_select::*;
use std::alloc::Global;
use std::marker::Brand;
use std::slice;
use std::sync::ledger::{Blank, Ledger};

fn counted<L: Ledger>(
    wanted: &Caps,
    best: Option<Best>,
    facts: NodeFacts,
    group: SlotGroup,
    blank: Blank,
) -> Option<Best>
    requires name { blank.name ≡ L.name }
    requires parts { blank.parts ≡ L.parts }
    requires some { 0 < L.parts }
{
    let mut steps = Steps::<L>::new(blank);
    if group.count != 2 {
        return best;
    }
    select(
        wanted,
        best,
        facts,
        slice::from_ref(&group),
        &[false, true],
        &mut steps,
    )
}

/// A node of two slots, of which the second is free.
fn choose(wanted: &Caps, best: Option<Best>, facts: NodeFacts, group: SlotGroup) -> Option<Best> {
    counted::<Brand>(wanted, best, facts, group, Blank::new(1))
}

fn chrome(alloc: Global) -> Result<Caps, NoMemory> {
    let mut caps = Caps::new(alloc);
    put(alloc, &mut caps, &("browserName", Kind::Text, "chrome"))?;
    Ok(caps)
}

/// Two nodes, and the number of the one that is chosen.
type Case = (NodeFacts, NodeFacts, Option<u32>);

/// A node's number, load, most sessions and last reservation.
macro_rules! node {
    ($node:expr, $load:expr, $max:expr, $last_reserved:expr) => {
        NodeFacts {
            node: $node,
            load: $load,
            max: $max,
            last_reserved: $last_reserved,
        }
    };
}

const CASES: &[Case] = &[
    (node!(1, 1, 2, 0), node!(2, 1, 2, 0), Some(1)),
    (node!(1, 1, 2, 1), node!(2, 1, 2, 0), Some(2)),
    (node!(1, 1, 2, 1), node!(2, 1, 2, 2), Some(1)),
    (node!(1, 1, 2, 0), node!(2, 1, 3, 9), Some(2)),
    (node!(1, 1, 2, 1), node!(2, 2, 4, 0), Some(2)),
    (node!(1, 2, 2, 0), node!(2, 1, 2, 0), Some(2)),
    (node!(1, 2, 2, 0), node!(2, 3, 2, 0), None),
    (node!(1, 0, 65_535, 0), node!(2, 0, 1, 0), Some(1)),
    (
        node!(1, 65_534, 65_535, 0),
        node!(2, 65_533, 65_534, 0),
        Some(2),
    ),
];

/// The best slot once this node was gone over too.
fn after(
    alloc: Global,
    wanted: &Caps,
    best: Option<Best>,
    facts: NodeFacts,
) -> Result<Option<Best>, NoMemory> {
    let group = SlotGroup {
        stereotype: chrome(alloc)?,
        count: 2,
    };
    Ok(choose(wanted, best, facts, group))
}

/// Whether the second slot of that node is the best.
fn is_slot_of(best: Option<Best>, node: Option<u32>) -> bool {
    match (best, node) {
        (Some(best), Some(node)) => best.slot == SlotId { node, index: 1 },
        (None, None) => true,
        _ => false,
    }
}

fn holds(alloc: Global, wanted: &Caps, case: &Case) -> Result<bool, NoMemory> {
    let (first, second, answer) = *case;
    let best = after(alloc, wanted, None, first)?;
    let best = after(alloc, wanted, best, second)?;
    Ok(is_slot_of(best, answer))
}

fn all_hold(alloc: Global, wanted: &Caps, cases: &[Case]) -> bool {
    for case in cases {
        if holds(alloc, wanted, case) != Ok(true) {
            return false;
        }
    }
    true
}

#[test]
fn chooses_a_node(rt: HostRuntime) -> Result<(), NoMemory> {
    let wanted = chrome(rt.alloc())?;
    assert!(rt; all_hold(rt.alloc(), &wanted, CASES));
    Ok(())
}
