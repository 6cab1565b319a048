//! Who is told of each entry beside the ledger.

use crate::ledger::GridLedger;
use grid_types::{Change, NoMemory};

/// Whoever is told of each entry of a history, in order, before the ledger notes it.
pub trait Listener {
    ghost use Rattle.std.specs.Prelude.{ℕ, List, OnOk};
    ghost use Rattle.grid_types.specs.declared.entry.Entry.{Entry};
    ghost use Rattle.grid_ledger.specs.LedgerStands.{Hears};

    /// What it was told of is this history.
    ghost heard: { Self → List Entry → Type 0 };

    /// The caller's change is to follow the history that the ledger stands for. Without memory there is no more use for it.
    fn hear(&mut self, ledger: &GridLedger, caller: u64, change: &Change) -> Result<(), NoMemory>
        ensures { OnOk result (Hears heard self.old self.new ledger.now caller change.now) };
}

/// Pays no heed.
#[derive(Clone, Copy, Debug)]
pub struct NoListener;

impl Listener for NoListener {
    ghost heard = { λ l H. Unit {0} };

    fn hear(
        &mut self,
        _ledger: &GridLedger,
        _caller: u64,
        _change: &Change,
    ) -> Result<(), NoMemory> {
        Ok(())
    }
}
