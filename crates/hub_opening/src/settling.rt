//! From what was read of a journal to a hub that threads share.
ghost use Rattle.std.specs.Prelude.{◌≡◌, ◌+◌, ◌≤◌, IfOk, IfErr};
ghost use Rattle.grid_types.specs.Config.{IsValid};
ghost use Rattle.hub_cell.specs.Passes.{BeginsAs, IsOf, core_of, first_of, keeping_of, spares_of};
ghost use Rattle.hub_opening.specs.Handed.{GoesOnFrom, IsRead, WhyNot};

use crate::going::go_on;
use grid_ledger::GridLedger;
use grid_opening::{Ender, Opening, OpeningFault, Unsettled};
use grid_replay::Replay;
use grid_types::Moment;
use hub_cell::{Pass, SharedHub};
use journal_keeper::Keeping;
use std::alloc::Global;
use std::sync::Wait;

/// The hub that goes on from the journal which was read, for so many passes, and its first pass: what was under way is settled at
/// the moment by entries behind it, under the numbers of those that had it.
///
/// # Errors
/// As those of `Opening::settle`, and `Memory`. What the journal has then is legal, and another opening goes on from there. What keeps it
/// comes back, but where there was no memory for the hub.
pub fn settle_and_go_on<R: Wait, E: Ender<Replay>>(
    rt: &R,
    alloc: Global,
    ledger: GridLedger,
    listener: Replay,
    keeping: Keeping,
    most_caller: u64,
    ender: &mut E,
    at: Moment,
    passes: u32,
) -> Result<(SharedHub, Pass), Unsettled<Keeping>>
    requires valid { IsValid ledger.config }
    requires read { IsRead ledger listener keeping most_caller }
    requires passes { (1 ≤ passes) × (passes ≤ 256) }
    ensures own { IfOk result (λ r. IsOf r.0 r.1) }
    ensures pass { IfOk result (λ r. BeginsAs (first_of r.0) r.1
        × (spares_of r.1 + 1 ≡ passes)) }
    ensures config { IfOk result (λ r. (core_of r.0).config ≡ ledger.config) }
    ensures goes_on { IfOk result (λ r. GoesOnFrom ledger listener keeping most_caller
        (core_of r.0) (keeping_of r.0) (first_of r.0)) }
    ensures next { IfOk result (λ r. first_of r.0 ≡ most_caller + 1) }
    ensures reason { IfErr result (λ e.
        WhyNot ledger listener keeping most_caller at.0 e.keeper e.fault) }
{
    let opening = Opening::new(alloc, ledger, listener, keeping, most_caller);
    let settled = opening.settle(ender, at)?;
    match go_on(rt, alloc, settled, passes) {
        Ok(begun) => Ok(begun),
        Err(_) => Err(Unsettled {
            fault: OpeningFault::Memory,
            keeper: Keeping::Nothing,
        }),
    }
}
