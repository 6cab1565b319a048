//! A history that goes on before anybody has a pass.
ghost use Rattle.std.specs.Prelude.{◌≡◌, max};
ghost use Rattle.grid_types.specs.History.{clock};
ghost use Rattle.grid_ledger.specs.LedgerStands.{LedgerTells};
ghost use Rattle.grid_opening.specs.Openings.{Entered, Is};

use crate::fault::OpeningFault;
use grid_journal::{Piece, PieceFault};
use grid_ledger::{GridLedger, Listener};
use grid_types::{Change, Moment};
use hub_tellers::told_change;
use journal_keeper::Keeper;
use std::alloc::Global;

/// What stands for the history of a journal, who was told of its entries, the greatest number of their callers, and what keeps the
/// journal.
#[derive(Drop)]
pub struct Opening<K: Drop, L: Drop> {
    pub(crate) ledger: GridLedger,
    pub(crate) listener: L,
    pub(crate) keeper: K,
    pub(crate) most_caller: u64,
    alloc: Global,
}

impl<K: Keeper + Drop, L: Listener + Drop> Opening<K, L> {
    /// An opening of what the keeper keeps.
    pub fn new(
        alloc: Global,
        ledger: GridLedger,
        listener: L,
        keeper: K,
        most_caller: u64,
    ) -> Opening<K, L>
        ensures { Is ledger listener keeper most_caller result }
    {
        Opening {
            ledger,
            listener,
            keeper,
            most_caller,
            alloc,
        }
    }

    /// What stands for the history.
    pub fn ledger(&self) -> &GridLedger
        ensures { result.now ≡ self.now.ledger }
    {
        &self.ledger
    }

    /// Who was told of each entry.
    pub fn listener(&self) -> &L
        ensures { result.now ≡ self.now.listener }
    {
        &self.listener
    }

    /// The moment, or that of the last entry where that is later.
    pub(crate) fn raised(&self, at: Moment) -> Moment
        ensures { LedgerTells self.now.ledger (λ H. result.0 ≡ max at.0 (clock H)) }
    {
        Moment(at.0.max(self.ledger.clock().0))
    }

    /// Makes the caller's change, where it may follow, and does nothing where it may not.
    pub(crate) fn enter(&mut self, caller: u64, change: Change) -> Result<(), OpeningFault>
        ensures { Entered K.kept L.heard K.faults self.old self.new caller change result }
    {
        if !self.ledger.permits(caller, &change) {
            return Ok(());
        }
        let mut piece = Piece::new(self.alloc);
        match told_change(&mut piece, caller, &change) {
            Ok(()) => {}
            Err(PieceFault::Memory) => return Err(OpeningFault::Memory),
            Err(PieceFault::Unreadable) => return Err(OpeningFault::Late),
        }
        if self.listener.hear(&self.ledger, caller, &change).is_err() {
            return Err(OpeningFault::Memory);
        }
        if self.keeper.append(piece.as_bytes()).is_err() {
            return Err(OpeningFault::Unkept);
        }
        self.most_caller = self.most_caller.max(caller);
        if self.ledger.note(caller, change).is_err() {
            return Err(OpeningFault::Memory);
        }
        Ok(())
    }
}
