//! What keeps rows.
ghost use Rattle.std.specs.Prelude.{◌≡◌, ◌≤◌, ℕ, Option, IfSome, IfOk, OnOk, IsErrOf};
ghost use Rattle.grid_outside.specs.Counts.{Rose};
ghost use Rattle.row_keeper.specs.Disks.{Disk, HasKept, KeepsTold, row_at};

use grid_types::Bytes;
use std::alloc::Global;

/// Why a keeper did not do what it was to.
#[derive(Clone, Copy, Debug, PartialEq, Eq)]
pub enum KeepFault {
    /// The disk failed.
    Failed,
    /// There was no memory.
    Memory,
}

/// Keeps rows, one behind the other, over a crash at any moment.
pub trait Keeper {
    /// How often it failed; it stays at 2^64 - 1 once it is there.
    ghost faults: { Self → ℕ };

    /// Its rows and what crashes might have left, where it tells them.
    ghost disk: { Self → Option Disk };

    /// Puts the row behind all others. Once it is Ok, each crash leaves it there. After an Err it is there or not.
    fn keep(&mut self, row: &[u8]) -> Result<(), KeepFault>
        ensures went { KeepsTold row.now (disk self.old) (disk self.new) }
        ensures kept { OnOk result (HasKept row.now (disk self.old) (disk self.new)) }
        ensures later { faults self.old ≤ faults self.new }
        ensures cause { IsErrOf result KeepFault.Failed →
            Rose (faults self.old) (faults self.new) };

    /// The row with this number, from 0; None exactly past the last one. It changes no row.
    fn row(&mut self, alloc: Global, index: u64) -> Result<Option<Bytes>, KeepFault>
        ensures row { IfSome (disk self.old)
            (λ d. IfOk result (λ found. found ≡ row_at d.rows index)) }
        ensures same { disk self.new ≡ disk self.old }
        ensures later { faults self.old ≤ faults self.new }
        ensures cause { IsErrOf result KeepFault.Failed →
            Rose (faults self.old) (faults self.new) };
}
