//! Rows that can't be made again.
use grid_keeper::{KeptHub, OpenFault};
use grid_types::HubConfig;
use row_keeper::{Keeper, MemKeeper};
use std::alloc::Global;

/// Rows that no call kept.
const ROWS: &[&[u8]] = &[
    &[99],
    &[],
    // An expiry that finds no idle session makes no entry.
    &[14, 0, 0, 0, 0, 0, 0, 0, 1],
    // A poll without a ticket.
    &[6, 0, 0, 0, 0, 0, 0, 0, 1, 0, 0, 0, 0, 0, 0, 0, 1],
    // A slot that is not closing.
    &[12, 0, 0, 0, 1, 0, 0],
];

/// Whether no hub is made of the keeper's rows, since the first is bad.
fn is_refused<K: Keeper + Drop>(alloc: Global, keeper: K) -> bool {
    match KeptHub::open(alloc, HubConfig::default(), keeper) {
        Ok(_) => false,
        Err((fault, _)) => fault == OpenFault::BadRow { index: 0 },
    }
}

fn is_bad(alloc: Global, row: &[u8]) -> bool {
    let mut keeper = MemKeeper::new(alloc, Vec::new(alloc));
    match keeper.keep(row) {
        Ok(()) => is_refused(alloc, keeper),
        Err(_) => false,
    }
}

fn are_bad(alloc: Global, rows: &[&[u8]]) -> bool {
    for row in rows {
        if !is_bad(alloc, row) {
            return false;
        }
    }
    true
}

#[test]
fn a_row_that_cannot_be_made_again_is_told(rt: HostRuntime) {
    assert!(rt; are_bad(rt.alloc(), ROWS));
}
