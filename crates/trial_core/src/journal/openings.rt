//! A hub that goes on from a front of a journal, wherever that ends.
use crate::journal::plays::{front_of, journal, verdict};
use grid_ledger::NoListener;
use grid_opening::{NoEnder, Opening, Settled};
use grid_outside::MemSource;
use grid_types::{Bytes, Moment};
use journal_keeper::{Keeper, MemKeeper};
use journal_verdicts::{Journal, Verdict, read_in};
use std::alloc::Global;

/// What stands for the whole entries at the front of the bytes.
fn read(alloc: Global, bytes: &[u8]) -> Option<Journal<NoListener>> {
    let mut input = MemSource::new(Bytes::of(alloc, bytes).ok()?, 64, Vec::new(alloc));
    let found = read_in(alloc, &mut input, NoListener);
    drop(input);
    found.ok()?.journal
}

/// A file with the whole entries at the front of the bytes, of which the call with the number of `fails` does.
fn kept(alloc: Global, bytes: &[u8], whole: u64, fails: u64) -> Option<MemKeeper> {
    let mut planned = Vec::new(alloc);
    planned.push(fails).ok()?;
    let mut keeper = MemKeeper::new(alloc, 7, planned);
    match keeper.append(front_of(bytes, whole as usize)).ok() {
        Some(()) => Some(keeper),
        None => {
            drop(keeper);
            None
        }
    }
}

fn settled(
    alloc: Global,
    found: Journal<NoListener>,
    keeper: MemKeeper,
) -> Option<Settled<MemKeeper, NoListener>> {
    let at = Moment(found.ledger.clock().0.saturating_add(1));
    let opening = Opening::new(
        alloc,
        found.ledger,
        found.listener,
        keeper,
        found.most_caller,
    );
    opening.settle(&mut NoEnder, at).ok()
}

// Let go by a call: the check of a value that ends by itself writes out all its fields.
/// What the opening of the bytes leaves.
fn opened(alloc: Global, bytes: &[u8], fails: u64) -> Option<Settled<MemKeeper, NoListener>> {
    let found = read(alloc, bytes)?;
    match kept(alloc, bytes, found.whole, fails) {
        Some(keeper) => settled(alloc, found, keeper),
        None => {
            drop(found);
            None
        }
    }
}

/// Whether the opening of the bytes leaves a legal journal with nothing open.
fn opens(alloc: Global, bytes: &[u8]) -> bool {
    match opened(alloc, bytes, u64::MAX) {
        Some(settled) => {
            let verdict = verdict(alloc, settled.keeper.bytes(), 64);
            drop(settled);
            matches!(verdict, Some(Verdict::Legal { .. }))
        }
        None => false,
    }
}

fn all_open(alloc: Global, bytes: &[u8]) -> bool {
    for count in 57..bytes.len() {
        if !opens(alloc, front_of(bytes, count)) {
            return false;
        }
    }
    opens(alloc, bytes)
}

#[test]
fn each_front_behind_the_head_is_opened(rt: HostRuntime) {
    let so = match journal(rt.alloc()) {
        Some(bytes) => all_open(rt.alloc(), bytes.as_slice()),
        None => false,
    };
    assert!(rt; so);
}
