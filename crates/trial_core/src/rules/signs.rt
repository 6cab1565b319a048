//! Whether a node may have been silent for too long, or may drain, is told without a look at each node where it can be.
use grid_types::{Groups, Moment, NoMemory, NodeAddress, Registration, Text};
use node_registry::NodeTable;
use std::alloc::Global;

fn registration(alloc: Global, name: &str) -> Option<Registration> {
    let address = NodeAddress::from_bytes(b"127.0.0.1:5555")?;
    let name = Text::of(alloc, name).ok()?;
    Some(Registration::new(name, address, 1, Groups::new(alloc)))
}

fn register(alloc: Global, table: &mut NodeTable, node: u32, name: &str) -> Option<()> {
    let registration = registration(alloc, name)?;
    table.registered(node, &registration, Moment(10)).ok()
}

/// What a node does.
#[derive(Clone, Copy)]
enum Does {
    Nothing,
    Beats(u32, u64),
    Suspected(u32, u64),
    Drains(u32, u64),
    Removed(u32, u64),
}

use Does::{Beats, Drains, Nothing, Removed, Suspected};

/// What a node does, whether the signs are noted then, from which moment on nodes that are not suspect are heard for 30
/// milliseconds and no longer, from which all of them are for 60, and whether a node may drain.
type Row = (Does, bool, u64, u64, bool);

/// Nodes 1 and 2 beat, node 2 is suspected and beats again at an earlier moment, drains and is removed.
const ROWS: &[Row] = &[
    (Nothing, true, 10, 10, false),
    (Beats(1, 50), false, 10, 10, false),
    (Beats(2, 40), true, 40, 40, false),
    (Suspected(2, 70), true, 50, 40, false),
    (Beats(2, 20), false, 20, 20, false),
    (Drains(2, 80), true, 20, 20, true),
    (Removed(2, 81), true, 50, 50, false),
];

fn act(table: &mut NodeTable, what: Does) {
    match what {
        Nothing => {}
        Beats(node, at) => table.beaten(node, Moment(at)),
        Suspected(node, at) => table.suspected(node, Moment(at)),
        Drains(node, at) => table.draining(node, Moment(at)),
        Removed(node, at) => table.removed(node, Moment(at)),
    }
}

fn are_heard_since(table: &NodeTable, heard: u64, all: u64) -> bool {
    table.is_heard(Moment(heard.saturating_add(29)), 30)
        && !table.is_heard(Moment(heard.saturating_add(30)), 30)
        && table.is_quiet(Moment(all.saturating_add(59)), 60)
        && !table.is_quiet(Moment(all.saturating_add(60)), 60)
}

fn goes_so(table: &mut NodeTable, row: &Row) -> bool {
    let (what, is_noted, heard, all, may_drain) = *row;
    act(table, what);
    if is_noted {
        table.note_quiet(Moment(120), 30, 60);
    }
    are_heard_since(table, heard, all) && table.may_drain() == may_drain
}

fn all_go_so(alloc: Global, table: &mut NodeTable, rows: &[Row]) -> Option<bool> {
    register(alloc, table, 1, "one")?;
    register(alloc, table, 2, "two")?;
    for row in rows {
        if !goes_so(table, row) {
            return Some(false);
        }
    }
    Some(true)
}

#[test]
fn signs_are_noted(rt: HostRuntime) -> Result<(), NoMemory> {
    let mut table = NodeTable::new(rt.alloc());
    let so = all_go_so(rt.alloc(), &mut table, ROWS).ok_or(NoMemory)?;
    assert!(rt; so);
    Ok(())
}
