//! The tables of nodes and of requests.
ghost use Rattle.std.specs.Prelude.{◌≡◌, OnOk};
ghost use Rattle.grid_farm.specs.Known.{known};
ghost use Rattle.grid_page.specs.Nodes.{state_word, use_word, with_node, with_node_front, with_node_table, with_nodes, with_use, with_uses, with_wait, with_wait_table, with_waits};

use crate::escapes::put_escaped;
use crate::parts::{
    CELL, CLASS_CELL, CLASS_END, NODE_TABLE, REQUEST_TABLE, ROW, ROW_END, ROW_SECONDS, SLOT,
    SLOT_END, TABLE_END,
};
use grid_farm::{KnownFarm, SlotUse, UseRow};
use grid_log::{NodeRow, WaitRow};
use grid_types::{NoMemory, NodeNo};
use text_sheet::Sheet;

fn use_word(state: SlotUse) -> &'static str
    ensures { result.now ≡ use_word state }
{
    match state {
        SlotUse::Starting(_) => "starting",
        SlotUse::Busy => "busy",
        SlotUse::Closing => "closing",
    }
}

fn state_word(farm: &KnownFarm, row: &NodeRow) -> &'static str
    ensures { result.now ≡ state_word (known farm.now) row.now }
{
    if farm.is_draining(row) {
        "draining"
    } else if farm.is_suspect(row) {
        "suspect"
    } else {
        "up"
    }
}

fn put_use(sheet: &mut Sheet, row: &UseRow) -> Result<(), NoMemory>
    ensures { OnOk result (sheet.new.bytes.items ≡ with_use sheet.old.bytes.items row.now) }
{
    sheet.text(SLOT)?;
    sheet.text(use_word(row.state))?;
    sheet.text(CLASS_END)?;
    sheet.number(u64::from(row.slot.index))?;
    sheet.text(SLOT_END)
}

/// The slots in use on a node.
fn put_uses(sheet: &mut Sheet, node: NodeNo, rows: &[UseRow]) -> Result<(), NoMemory>
    ensures { OnOk result (sheet.new.bytes.items
        ≡ with_uses sheet.old.bytes.items node rows.now) }
{
    for row in rows {
        if row.slot.node == node {
            put_use(sheet, row)?;
        }
    }
    Ok(())
}

/// A node's number, its name and its state.
fn put_node_front(sheet: &mut Sheet, farm: &KnownFarm, row: &NodeRow) -> Result<(), NoMemory>
    ensures { OnOk result (sheet.new.bytes.items
        ≡ with_node_front sheet.old.bytes.items (known farm.now) row.now) }
{
    let state = state_word(farm, row);
    sheet.text(ROW)?;
    sheet.number(u64::from(row.node))?;
    sheet.text(CELL)?;
    put_escaped(sheet, row.name.as_str().as_bytes())?;
    sheet.text(CLASS_CELL)?;
    sheet.text(state)?;
    sheet.text(CLASS_END)?;
    sheet.text(state)?;
    sheet.text(CELL)
}

fn put_node(sheet: &mut Sheet, farm: &KnownFarm, row: &NodeRow) -> Result<(), NoMemory>
    ensures { OnOk result (sheet.new.bytes.items
        ≡ with_node sheet.old.bytes.items (known farm.now) row.now) }
{
    put_node_front(sheet, farm, row)?;
    put_uses(sheet, row.node, farm.uses.as_slice())?;
    sheet.text(CELL)?;
    sheet.number(farm.free_on(row))?;
    sheet.text(ROW_END)
}

fn put_nodes(sheet: &mut Sheet, farm: &KnownFarm, rows: &[NodeRow]) -> Result<(), NoMemory>
    ensures { OnOk result (sheet.new.bytes.items
        ≡ with_nodes sheet.old.bytes.items (known farm.now) rows.now) }
{
    for row in rows {
        put_node(sheet, farm, row)?;
    }
    Ok(())
}

/// The table of nodes.
pub(crate) fn put_node_table(sheet: &mut Sheet, farm: &KnownFarm) -> Result<(), NoMemory>
    ensures { OnOk result (sheet.new.bytes.items
        ≡ with_node_table sheet.old.bytes.items (known farm.now)) }
{
    sheet.text(NODE_TABLE)?;
    put_nodes(sheet, farm, farm.past.nodes())?;
    sheet.text(TABLE_END)
}

/// A request, and how long it has waited at this moment, in milliseconds.
fn put_wait(sheet: &mut Sheet, at: u64, row: &WaitRow) -> Result<(), NoMemory>
    ensures { OnOk result (sheet.new.bytes.items ≡ with_wait sheet.old.bytes.items at row.now) }
{
    sheet.text(ROW)?;
    sheet.number(row.request)?;
    sheet.text(CELL)?;
    sheet.seconds(at.saturating_sub(row.at.0))?;
    sheet.text(ROW_SECONDS)
}

/// Those of these requests that wait.
fn put_waits(sheet: &mut Sheet, farm: &KnownFarm, rows: &[WaitRow]) -> Result<(), NoMemory>
    ensures { OnOk result (sheet.new.bytes.items
        ≡ with_waits sheet.old.bytes.items (known farm.now) rows.now) }
{
    for row in rows {
        if !farm.is_held(row.request) {
            put_wait(sheet, farm.at, row)?;
        }
    }
    Ok(())
}

/// The table of requests.
pub(crate) fn put_wait_table(sheet: &mut Sheet, farm: &KnownFarm) -> Result<(), NoMemory>
    ensures { OnOk result (sheet.new.bytes.items
        ≡ with_wait_table sheet.old.bytes.items (known farm.now)) }
{
    sheet.text(REQUEST_TABLE)?;
    put_waits(sheet, farm, farm.past.unsettled())?;
    sheet.text(TABLE_END)
}
