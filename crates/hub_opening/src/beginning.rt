//! A hub that begins a journal.
ghost use Rattle.std.specs.Prelude.{◌≡◌, ◌+◌, ◌≤◌, [], IfOk, IfSome, option_map};
ghost use Rattle.grid_types.specs.Config.{IsValid};
ghost use Rattle.grid_journal.specs.Spelled.{head_bytes};
ghost use Rattle.journal_keeper.specs.Keepings.{kept_by};
ghost use Rattle.hub_cell.specs.Passes.{BeginsAs, IsOf, config_of, keeping_of, spares_of};

use grid_journal::write_head;
use grid_types::{HubConfig, NoMemory};
use hub_cell::{Pass, SharedHub};
use hub_core::HubCore;
use journal_keeper::{Keeping, keep_all};
use std::alloc::Global;
use std::sync::Wait;

/// A hub without a node or a request that keeps its journal from its beginning, for so many passes, and its first pass, whose
/// number is `first`. It waits until the head of the journal stands there.
pub fn begin<R: Wait>(
    rt: &R,
    alloc: Global,
    config: HubConfig,
    mut keeping: Keeping,
    first: u64,
    passes: u32,
) -> Result<(SharedHub, Pass), NoMemory>
    requires valid { IsValid config }
    requires empty { IfSome (kept_by keeping) (λ bytes. bytes ≡ []) }
    requires passes { (1 ≤ passes) × (passes ≤ 256) }
    ensures own { IfOk result (λ r. IsOf r.0 r.1) }
    ensures pass { IfOk result (λ r. BeginsAs first r.1 × (spares_of r.1 + 1 ≡ passes)) }
    ensures config { IfOk result (λ r. config_of r.0 ≡ config) }
    ensures kept { IfOk result (λ r. kept_by (keeping_of r.0)
        ≡ option_map (λ _. head_bytes config) (kept_by keeping)) }
{
    let core = HubCore::new(alloc, config)?;
    let head = write_head(alloc, &config)?;
    let (map, readers) = map_view::new(rt, alloc, passes)?;
    // A reader has a place only from when it is told on.
    drop(readers);
    keep_all(rt, &mut keeping, head.as_bytes());
    SharedHub::resume(rt, alloc, core, map, keeping, first, passes)
}
