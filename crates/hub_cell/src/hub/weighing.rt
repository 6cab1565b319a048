//! How much memory a piece is to have for an entry of no fixed size, before the change is made.
ghost use Rattle.grid_types.specs.HistoryLaws.{Known};
ghost use Rattle.hub_cell.specs.Lacking.{LacksAlone};

use grid_types::{Caps, Registration, history_laws, request_bytes};
use std::slice::from_ref;

/// So many bytes at most has an entry beside its capabilities.
const BESIDE_BYTES: u64 = 512;

/// So many bytes at most has an entry with these capabilities: each of their texts stands behind at most nine bytes, where
/// JSON has at least four around it.
pub(crate) fn entry_bytes(choices: &[Caps]) -> usize {
    request_bytes(choices)
        .saturating_mul(2)
        .saturating_add(BESIDE_BYTES) as usize
}

/// So many bytes at most has the entry of a registration.
pub(crate) fn registered_bytes(node: &Registration) -> usize {
    let mut bytes: usize = 0;
    for group in node.groups.items() {
        bytes = bytes.saturating_add(entry_bytes(from_ref(&group.stereotype)));
    }
    bytes.saturating_add(entry_bytes(&[]))
}

/// A call that may lack memory, and found none before it was made, has changed nothing and entered nothing. This does nothing
/// when it runs.
pub(crate) fn lacks_change_nothing()
    ensures { LacksAlone }
{
    history_laws();
}
