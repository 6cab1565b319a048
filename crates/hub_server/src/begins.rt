//! How a hub begins.
ghost use Rattle.std.specs.Prelude.{◌≡◌};
ghost use Rattle.hub_server.specs.Statuses.{status_of};

use grid_types::HubConfig;
use hub_cell::{Pass, SharedHub};
use server_words::JournalWords;
use std::alloc::Global;
use std::sync::Wait;

/// Why a hub has not begun.
#[derive(Clone, Copy, Debug, PartialEq, Eq)]
pub enum Unbegun {
    /// There was no memory.
    Memory,
    /// What keeps its journal failed, or nothing does.
    Failed,
    /// Another hub keeps the same journal.
    Held,
    /// What is kept is no journal from which a hub can go on.
    NoJournal,
}

impl Unbegun {
    /// The program's status: 5, 6, 7 and 11.
    pub fn status(self) -> u8
        ensures status { result ≡ status_of self }
        ensures neither { (result ≡ 0 → ⊥) × (result ≡ 3 → ⊥) }
    {
        match self {
            Unbegun::Memory => 5,
            Unbegun::Failed => 6,
            Unbegun::Held => 7,
            Unbegun::NoJournal => 11,
        }
    }
}

/// Whoever makes the hub that a program serves.
pub trait Begins {
    ghost use Rattle.std.specs.Prelude.{◌≡◌, ◌+◌, ◌≤◌, IfOk, IfErr};
    ghost use Rattle.grid_types.specs.Config.{IsValid};
    ghost use Rattle.hub_cell.specs.Passes.{IsOf, config_of, spares_of};
    ghost use Rattle.hub_server.specs.Statuses.{IsSetUpAs};
    ghost use Rattle.hub_server.specs.declared.begins.Unbegun.{Unbegun};

    /// Why it may make none.
    ghost may: { Unbegun → Type 0 };

    /// A hub of the configuration for so many passes, and its first pass, with a spare reader for each other pass. It keeps the
    /// journal that is asked for, and where it goes on from one its numbers do too.
    fn begin<R: Wait>(
        &mut self,
        rt: &R,
        alloc: Global,
        config: HubConfig,
        journal: &JournalWords,
        passes: u32,
    ) -> Result<(SharedHub, Pass), Unbegun>
        requires valid { IsValid config }
        requires passes { (1 ≤ passes) × (passes ≤ 256) }
        ensures own { IfOk result (λ r. IsOf r.0 r.1) }
        ensures config { IfOk result (λ r. IsSetUpAs config (config_of r.0)) }
        ensures pass { IfOk result (λ r. spares_of r.1 + 1 ≡ passes) }
        ensures may { IfErr result may };
}

/// A hub without a node or a request, which keeps no journal. Where one is asked for it does not begin.
#[derive(Clone, Copy, Debug)]
pub struct NewHub;

impl Begins for NewHub {
    ghost use Rattle.hub_server.specs.Statuses.{MayNotBeNew};

    ghost may = { MayNotBeNew };

    fn begin<R: Wait>(
        &mut self,
        rt: &R,
        alloc: Global,
        config: HubConfig,
        journal: &JournalWords,
        passes: u32,
    ) -> Result<(SharedHub, Pass), Unbegun> {
        if journal.file.is_some() {
            return Err(Unbegun::Failed);
        }
        match SharedHub::new(rt, alloc, config, 0, passes) {
            Ok(begun) => Ok(begun),
            Err(_) => Err(Unbegun::Memory),
        }
    }
}
