//! Which changes of sessions and of their slots are permitted.
ghost use Rattle.std.specs.Prelude.{◌≡◌, ◌&&◌, ℕ, true};
ghost use Rattle.grid_types.specs.declared.entry.Change.TheVariants as change;
ghost use Rattle.grid_types.specs.Sessions.{is_live};
ghost use Rattle.grid_types.specs.Slots.{is_closing, holder, owner};
ghost use Rattle.grid_types.specs.Permitted.{is_caller, may_end, permitted};
ghost use Rattle.grid_ledger.specs.LedgerStands.{LedgerTells};

use crate::ledger::GridLedger;
use grid_types::{EndCause, Moment, ReqNo, SlotId};
use moment_rules::idle;
use reservation::SlotUse;

impl GridLedger {
    fn is_live(&self, binding: ReqNo) -> bool
        ensures { LedgerTells self.now (λ H. result ≡ is_live H binding) }
    {
        match self.sessions.run_of(binding) {
            Some(_) => true,
            None => false,
        }
    }

    /// Whether the live session may end for this cause: if it is idleness, it has been idle for long enough.
    fn may_end(&self, binding: ReqNo, cause: EndCause, at: Moment) -> bool
        ensures { LedgerTells self.now (λ H. is_live H binding ≡ true →
            result ≡ may_end self.now.config H binding cause at.0) }
    {
        match cause {
            EndCause::Quit => true,
            EndCause::Idle => match self.sessions.run_of(binding) {
                Some((_, used)) => idle(used, at, &self.config),
                None => false,
            },
        }
    }

    /// Whether the slot is closing since an entry of the caller.
    fn is_closing_of(&self, caller: u64, slot: SlotId) -> bool
        ensures { LedgerTells self.now (λ H. result
            ≡ (is_closing (holder H slot) && is_caller caller (owner H slot))) }
    {
        match self.slots.slot_use(slot) {
            SlotUse::Closing { owner } => owner == caller,
            SlotUse::Free => false,
            SlotUse::Held { .. } => false,
            SlotUse::Busy { .. } => false,
        }
    }

    /// A live session is used.
    #[tactic(auto, unfolding(grid_types::specs::Permitted::permitted))]
    pub(super) fn permits_touched(&self, binding: ReqNo, at: Moment) -> bool
        ensures { (caller : ℕ) → LedgerTells self.now
            (λ H. result ≡ permitted self.now.config H caller (change.Touched binding at)) }
    {
        self.is_current(at) && self.is_live(binding)
    }

    /// A live session ends, if it is for idleness after it was idle for long enough.
    #[tactic(auto, unfolding(grid_types::specs::Permitted::permitted))]
    pub(super) fn permits_ended(&self, binding: ReqNo, cause: EndCause, at: Moment) -> bool
        ensures { (caller : ℕ) → LedgerTells self.now
            (λ H. result ≡ permitted self.now.config H caller (change.Ended binding cause at)) }
    {
        self.is_current(at) && self.is_live(binding) && self.may_end(binding, cause, at)
    }

    /// A closing slot is freed by the caller of the entry since which it is closing.
    #[tactic(auto, unfolding(grid_types::specs::Permitted::permitted))]
    pub(super) fn permits_freed(&self, caller: u64, slot: SlotId) -> bool
        ensures { LedgerTells self.now (λ H. result
            ≡ permitted self.now.config H caller (change.Freed slot)) }
    {
        self.is_closing_of(caller, slot)
    }
}
