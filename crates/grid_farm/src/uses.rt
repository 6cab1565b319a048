//! Which slots are in use, and which nodes are draining.
ghost use Rattle.std.specs.Prelude.{◌≡◌, ◌≤◌, ◌++◌, ◌∷◌, [], not, nat_eq, filter, length, IfSome, OnOk, option_copied};
ghost use Rattle.std.specs.List.{position_from};
ghost use Rattle.grid_types.specs.Slots.{slot_eq};
ghost use Rattle.grid_log.specs.Recalls.{recalled};
ghost use Rattle.grid_farm.specs.Uses.{comes_before, draining_after, is_busy_on, place_of, uses_after, with_ended, with_slot, without_slot};

use crate::rows::{SlotUse, UseRow};
use grid_log::{Recall, SessionRow};
use grid_types::{Change, NoMemory, NodeNo, SlotId};

fn is_slot(slot: SlotId, row: &UseRow) -> bool
    ensures { result ≡ slot_eq row.now.slot slot }
{
    row.slot.node == slot.node && row.slot.index == slot.index
}

fn drop_slot(uses: &mut Vec<UseRow>, slot: SlotId)
    ensures { uses.new.items ≡ without_slot slot uses.old.items }
{
    uses.retain(|row| !is_slot(slot, row));
}

/// Slots stand by the numbers of their nodes, and those of a node by their own.
fn comes_before(slot: SlotId, other: SlotId) -> bool
    ensures { result ≡ comes_before slot other }
{
    slot.node < other.node || (slot.node == other.node && slot.index < other.index)
}

/// The place of the first row whose slot comes behind this one.
fn first_behind(slot: SlotId, rows: &[UseRow]) -> Option<usize>
    ensures place { result ≡ position_from (λ row. comes_before slot row.slot) 0 rows.now }
    ensures within { IfSome result (λ place. place ≤ length rows.now) }
{
    rows.iter().position(|row| comes_before(slot, row.slot))
}

/// How many rows stand before the first whose slot comes behind this one.
fn place_of(slot: SlotId, rows: &[UseRow]) -> usize
    ensures place { result ≡ place_of slot rows.now }
    ensures within { result ≤ length rows.now }
{
    match first_behind(slot, rows) {
        Some(place) => place,
        None => rows.len(),
    }
}

/// The slot is used so from here on.
fn put_slot(uses: &mut Vec<UseRow>, slot: SlotId, state: SlotUse) -> Result<(), NoMemory>
    ensures { OnOk result (uses.new.items ≡ with_slot slot state uses.old.items) }
{
    drop_slot(uses, slot);
    let place = place_of(slot, uses.as_slice());
    match uses.insert(place, UseRow { slot, state }) {
        Ok(()) => Ok(()),
        Err(_) => Err(NoMemory),
    }
}

/// The slot of a session that has ended is closed, where it ran.
fn close_slot(uses: &mut Vec<UseRow>, row: Option<&SessionRow>) -> Result<(), NoMemory>
    ensures { OnOk result (uses.new.items ≡ with_ended (option_copied row.entry) uses.old.items) }
{
    match row {
        Some(row) => put_slot(uses, row.slot, SlotUse::Closing),
        None => Ok(()),
    }
}

fn is_busy_on(node: NodeNo, row: &UseRow) -> bool
    ensures { result ≡ is_busy_on node row.now }
{
    row.slot.node == node && matches!(row.state, SlotUse::Busy)
}

fn drop_busy_on(uses: &mut Vec<UseRow>, node: NodeNo)
    ensures { uses.new.items ≡ filter (λ row. not (is_busy_on node row)) uses.old.items }
{
    uses.retain(|row| !is_busy_on(node, row));
}

/// Takes note of what a change means for slots. The sessions are those before it.
pub(crate) fn note_uses(
    uses: &mut Vec<UseRow>,
    past: &Recall,
    change: &Change,
) -> Result<(), NoMemory>
    ensures { OnOk result (uses.new.items
        ≡ uses_after (recalled past.now).sessions uses.old.items change.now) }
{
    match change {
        Change::Reserved { request, slot, .. } => {
            put_slot(uses, *slot, SlotUse::Starting(*request))
        }
        Change::Bound { slot, .. } => put_slot(uses, *slot, SlotUse::Busy),
        Change::Failed { slot, orphan, .. } => {
            if orphan.is_some() {
                put_slot(uses, *slot, SlotUse::Closing)
            } else {
                drop_slot(uses, *slot);
                Ok(())
            }
        }
        Change::Ended { binding, .. } => close_slot(uses, past.session_of(*binding)),
        Change::Lapsed { node, .. } => {
            drop_busy_on(uses, *node);
            Ok(())
        }
        Change::Freed { slot } => {
            drop_slot(uses, *slot);
            Ok(())
        }
        _ => Ok(()),
    }
}

fn drop_node(nodes: &mut Vec<NodeNo>, node: NodeNo)
    ensures { nodes.new.items ≡ filter (λ other. not (nat_eq other node)) nodes.old.items }
{
    nodes.retain(|other| *other != node);
}

/// Puts the node last.
fn add_node(nodes: &mut Vec<NodeNo>, node: NodeNo) -> Result<(), NoMemory>
    ensures { OnOk result (nodes.new.items
        ≡ filter (λ other. not (nat_eq other node)) nodes.old.items ++ node ∷ []) }
{
    drop_node(nodes, node);
    match nodes.push(node) {
        Ok(()) => Ok(()),
        Err(_) => Err(NoMemory),
    }
}

/// Takes note of what a change means for which nodes are draining.
pub(crate) fn note_draining(nodes: &mut Vec<NodeNo>, change: &Change) -> Result<(), NoMemory>
    ensures { OnOk result (nodes.new.items ≡ draining_after nodes.old.items change.now) }
{
    match change {
        Change::Draining { node, .. } => {
            add_node(nodes, *node)?;
            Ok(())
        }
        Change::Removed { node, .. } | Change::Lapsed { node, .. } => {
            drop_node(nodes, *node);
            Ok(())
        }
        _ => Ok(()),
    }
}
