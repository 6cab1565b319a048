//! A keeper in memory, with a record of all its calls and a plan of those that are to fail.
ghost use Rattle.std.specs.Prelude.{◌≡◌, ◌≤◌, ℕ, List, [], Some, IfOk, OnOk, true, false};
ghost use Rattle.grid_outside.specs.Counts.{Rose};
ghost use Rattle.row_keeper.specs.Disks.{row_at};
ghost use Rattle.row_keeper.specs.MemDisks.{MemView, disk_told};

use crate::keeper::{KeepFault, Keeper};
use grid_types::Bytes;
use std::alloc::Global;
use std::marker::Model;

/// What a call of `keep` is to do.
#[derive(Clone, Copy, Debug, PartialEq, Eq)]
pub enum Planned {
    Keeps,
    /// It fails, and the row stands there.
    FailsWithRow,
    /// It fails, and the row does not stand there.
    FailsWithout,
}

/// A call of `keep` that was made.
#[derive(Debug, Drop)]
pub struct KeepCall {
    row: Bytes,
    written: bool,
}

/// Keeps rows in memory. What the call with a number is to do, from 0, tells its plan; past its end each keeps.
#[derive(Drop)]
pub struct MemKeeper {
    alloc: Global,
    rows: Vec<Bytes>,
    calls: Vec<KeepCall>,
    plan: Vec<Planned>,
    faults: u64,
}

impl Model for MemKeeper {
    ghost use Rattle.std.specs.Prelude.{◌≡◌};
    ghost use Rattle.row_keeper.specs.MemDisks.{MemView, disk_told};

    ghost Value = { MemView };

    ghost view = { λ m. record { calls = m.calls.items; plan = m.plan.items; faults = m.faults } };

    ghost invariant = { λ m. m.rows.items ≡ (disk_told m.calls.items).rows };
}

impl KeepCall {
    /// The row that was handed in.
    pub fn row(&self) -> &[u8]
        ensures { result.now ≡ self.now.row }
    {
        self.row.as_bytes()
    }

    /// Whether the row stands there since.
    pub fn was_written(&self) -> bool
        ensures { result ≡ self.now.written }
    {
        self.written
    }
}

impl MemKeeper {
    /// A keeper with no row.
    pub fn new(alloc: Global, plan: Vec<Planned>) -> MemKeeper
        ensures { result ≡ record { calls = []; plan = plan.items; faults = 0 } }
    {
        MemKeeper {
            alloc,
            rows: Vec::new(alloc),
            calls: Vec::new(alloc),
            plan,
            faults: 0,
        }
    }

    /// All calls of `keep` that were made, the oldest first.
    pub fn calls(&self) -> &[KeepCall]
        ensures { result.now ≡ self.now.calls }
    {
        self.calls.as_slice()
    }

    /// What the next call is to do.
    fn planned(&self) -> Planned {
        match self.plan.get(self.calls.len()) {
            Some(planned) => *planned,
            None => Planned::Keeps,
        }
    }
}

impl Keeper for MemKeeper {
    ghost use Rattle.std.specs.Prelude.{Some};
    ghost use Rattle.row_keeper.specs.MemDisks.{disk_told};

    ghost faults = { λ m. m.faults };

    ghost disk = { λ m. Some (disk_told m.calls) };

    fn keep(&mut self, row: &[u8]) -> Result<(), KeepFault> {
        let planned = self.planned();
        let written = planned != Planned::FailsWithout;
        let (Ok(stored), Ok(noted)) = (Bytes::of(self.alloc, row), Bytes::of(self.alloc, row))
        else {
            return Err(KeepFault::Memory);
        };
        if self.rows.reserve(1).is_err() || self.calls.reserve(1).is_err() {
            return Err(KeepFault::Memory);
        }
        if written {
            self.rows.push(stored).unwrap();
        }
        self.calls
            .push(KeepCall {
                row: noted,
                written,
            })
            .unwrap();
        if planned == Planned::Keeps {
            return Ok(());
        }
        self.faults = self.faults.saturating_add(1);
        Err(KeepFault::Failed)
    }

    fn row(&mut self, alloc: Global, index: u64) -> Result<Option<Bytes>, KeepFault> {
        match self.rows.get(index as usize) {
            None => Ok(None),
            Some(row) => match Bytes::of(alloc, row.as_bytes()) {
                Ok(copy) => Ok(Some(copy)),
                Err(_) => Err(KeepFault::Memory),
            },
        }
    }
}
