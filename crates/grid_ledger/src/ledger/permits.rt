//! Whether a change is permitted.
ghost use Rattle.std.specs.Prelude.{◌≡◌, ℕ, true};
ghost use Rattle.grid_types.specs.Permitted.{permitted};
ghost use Rattle.grid_ledger.specs.LedgerStands.{LedgerTells, MayNote};

use crate::ledger::GridLedger;
use grid_types::Change;

impl GridLedger {
    /// Whether the caller may make the change after the history that the tables stand for.
    pub fn permits(&self, caller: u64, change: &Change) -> bool
        ensures exact { LedgerTells self.now
            (λ H. result ≡ permitted self.now.config H caller change.now) }
        ensures may { result ≡ true → MayNote change.now }
    {
        match change {
            Change::Registered {
                node,
                registration,
                at,
            } => self.permits_registered(*node, registration, *at),
            Change::Beaten { node, at } => self.permits_beaten(*node, *at),
            Change::Draining { node, at } => self.permits_draining(*node, *at),
            Change::Removed { node, at } => self.permits_removed(*node, *at),
            Change::Lapsed { node, at } => self.permits_lapsed(*node, *at),
            Change::Queued {
                request,
                choices,
                deadline,
                at,
            } => self.permits_queued(*request, choices, *deadline, *at),
            Change::Reserved {
                request,
                slot,
                choice,
                at,
            } => self.permits_reserved(*request, *slot, *choice, *at),
            Change::Bound {
                request,
                slot,
                session,
                caps,
                at,
            } => self.permits_bound(caller, *request, *slot, session, caps, *at),
            Change::Failed {
                request,
                slot,
                why,
                orphan,
                last,
                at,
            } => self.permits_failed(caller, *request, *slot, why, orphan.as_ref(), *last, *at),
            Change::TimedOut { request, at } => self.permits_timed_out(*request, *at),
            Change::Cleared { request, at } => self.permits_cleared(*request, *at),
            Change::Taken { request, at } => self.permits_taken(caller, *request, *at),
            Change::Touched { binding, at } => self.permits_touched(*binding, *at),
            Change::Ended { binding, cause, at } => self.permits_ended(*binding, *cause, *at),
            Change::Freed { slot } => self.permits_freed(caller, *slot),
            Change::Suspected { node, at } => self.permits_suspected(*node, *at),
        }
    }
}
