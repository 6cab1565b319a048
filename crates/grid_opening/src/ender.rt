//! Who ends the sessions of closing slots.
use grid_ledger::GridLedger;
use grid_types::SlotId;

/// Whoever ends sessions at their nodes.
pub trait Ender<L> {
    /// The slot is closing, and is freed next: its session is to be ended at its node, where that can be. The listener was told
    /// of each entry, so that it may know which session it is.
    fn end(&mut self, ledger: &GridLedger, listener: &L, slot: SlotId);
}

/// Ends no session: whatever a node has runs there until the node ends it.
#[derive(Clone, Copy, Debug)]
pub struct NoEnder;

impl<L> Ender<L> for NoEnder {
    fn end(&mut self, _ledger: &GridLedger, _listener: &L, _slot: SlotId) {}
}
