//! One call of the outside fails: a read, a write or an exchange.
use crate::grid::Wanted;
use crate::local::grid::{are_behind, asked, serves};
use crate::tables::{
    AFTER, FailingRow, REGISTERS, client_of, five_requests, foretold, front, nodes_failing,
};
use grid_types::HubConfig;
use hub_core::LocalHub;
use std::alloc::Global;

/// Whether the five requests are served so, and the hub makes these entries.
fn serves_five(
    alloc: Global,
    hub: &mut LocalHub,
    row: &FailingRow,
    wanted: &Wanted<'_>,
) -> Option<bool> {
    let first = hub.journal().len();
    let sends = five_requests(alloc)?;
    let client = client_of(sends.as_slice(), row.fails);
    let mut nodes = nodes_failing(alloc, row.fails)?;
    let is_seen = serves(alloc, hub, &[1], &mut nodes, &client, wanted);
    drop(nodes);
    Some(is_seen? && are_behind(hub.journal(), first, row.entries))
}

/// Whether the hub says this afterwards.
fn says(alloc: Global, hub: &mut LocalHub, state: &str) -> bool {
    match asked(alloc, hub, AFTER) {
        Some(link) => {
            let is_said = link.taken() == state.as_bytes();
            drop(link);
            is_said
        }
        None => false,
    }
}

fn goes_over(alloc: Global, hub: &mut LocalHub, row: &FailingRow) -> Option<bool> {
    drop(asked(alloc, hub, REGISTERS)?);
    let (told, state) = foretold(alloc, row.told, row.slot)?;
    let wanted = Wanted {
        written: front(told.as_bytes(), row.written),
        ended: row.ended,
        asks: row.asks,
    };
    let is_served = serves_five(alloc, hub, row, &wanted) == Some(true);
    Some(is_served && says(alloc, hub, state.as_str()))
}

/// Over a hub of its own.
fn goes(alloc: Global, row: &FailingRow) -> Option<bool> {
    let mut hub = LocalHub::new(alloc, HubConfig::default()).ok()?;
    let so = goes_over(alloc, &mut hub, row);
    drop(hub);
    so
}

/// Whether each row goes so over a hub of its own.
pub(crate) fn rows_go(alloc: Global, rows: &[FailingRow]) -> bool {
    for row in rows {
        if goes(alloc, row) != Some(true) {
            return false;
        }
    }
    true
}
