//! From what an opening hands over to a hub that threads share.
ghost use Rattle.std.specs.Prelude.{◌≡◌, ◌+◌, ◌≤◌, [], ◌∷◌, List, IfOk, OnOk};
ghost use Rattle.grid_types.specs.declared.entry.Entry.{Entry};
ghost use Rattle.grid_types.specs.Config.{IsValid};
ghost use Rattle.grid_types.specs.LookupMap as lookup;
ghost use Rattle.hub_core.specs.CoreStands as of_core;
ghost use Rattle.grid_ledger.specs.LedgerStands as of_ledger;
ghost use Rattle.map_view.specs.Lists.{listed};
ghost use Rattle.map_view.specs.Maps.{published, pending};
ghost use Rattle.hub_cell.specs.Passes.{BeginsAs, IsOf, core_of, first_of, keeping_of, spares_of};
ghost use Rattle.hub_opening.specs.Handed.{IsHanded};

use grid_opening::Settled;
use grid_replay::Replay;
use grid_types::NoMemory;
use hub_cell::{Pass, SharedHub};
use hub_core::HubCore;
use journal_keeper::{Keeping, written_is_journal};
use map_view::{Item, Items, MapWriter};
use std::alloc::Global;
use std::sync::Wait;

/// Shows one item.
fn show_item<R: Wait>(
    rt: &R,
    alloc: Global,
    map: &mut MapWriter,
    item: Item,
) -> Result<(), NoMemory>
    requires { pending map.old ≡ [] }
    ensures shown { OnOk result (published map.new
        ≡ lookup.published (published map.old) (listed (item ∷ []))) }
    ensures none { OnOk result (pending map.new ≡ []) }
{
    let mut items = Items::new(alloc);
    if items.push(item).is_err() {
        return Err(NoMemory);
    }
    if map.append(items).is_err() {
        return Err(NoMemory);
    }
    map.publish(rt);
    Ok(())
}

/// Shows the items in order.
fn show_all<R: Wait>(
    rt: &R,
    alloc: Global,
    map: &mut MapWriter,
    items: &[Item],
) -> Result<(), NoMemory>
    requires { pending map.old ≡ [] }
    ensures shown { OnOk result (published map.new
        ≡ lookup.published (published map.old) (listed items.now)) }
    ensures none { OnOk result (pending map.new ≡ []) }
{
    for item in items {
        show_item(rt, alloc, map, *item)?;
    }
    Ok(())
}

/// The hub that goes on from what an opening handed over, for so many passes, and its first pass, which has seen nothing yet and
/// has a spare reader for each other pass. Its core stands for each history that the ledger stands for.
pub fn go_on<R: Wait>(
    rt: &R,
    alloc: Global,
    settled: Settled<Keeping, Replay>,
    passes: u32,
) -> Result<(SharedHub, Pass), NoMemory>
    requires valid { IsValid settled.ledger.config }
    requires handed { IsHanded settled }
    requires passes { (1 ≤ passes) × (passes ≤ 256) }
    ensures own { IfOk result (λ r. IsOf r.0 r.1) }
    ensures pass { IfOk result (λ r. BeginsAs settled.first_caller r.1
        × (spares_of r.1 + 1 ≡ passes)) }
    ensures config { IfOk result (λ r. (core_of r.0).config ≡ settled.ledger.config) }
    ensures stands { IfOk result (λ r. (H : List Entry) → of_ledger.Stands settled.ledger H →
        of_core.Stands (core_of r.0) H) }
    ensures keeping { IfOk result (λ r. keeping_of r.0 ≡ settled.keeper) }
    ensures first { IfOk result (λ r. first_of r.0 ≡ settled.first_caller) }
{
    // For the proof alone: the bytes of a log are the journal of its history.
    written_is_journal();
    let Settled {
        ledger,
        listener,
        keeper,
        first_caller,
    } = settled;
    let config = ledger.config();
    let core = HubCore::resume(alloc, config, ledger.into_tables());
    let (mut map, readers) = map_view::new(rt, alloc, passes)?;
    // A reader has a place only from when it is told on.
    drop(readers);
    if show_all(rt, alloc, &mut map, listener.items()).is_err() {
        map.close(rt);
        return Err(NoMemory);
    }
    SharedHub::resume(rt, alloc, core, map, keeper, first_caller, passes)
}
