//! What a call tells of each change that it makes, beside the tables. So each decision stands once, for the hub without a
//! history and for the one with its journal.
ghost use Rattle.std.specs.Prelude.{ℕ, false};

use grid_types::Change;

/// Whoever is told each change after the tables noted it.
pub trait Recorder {
    ghost use Rattle.std.specs.Prelude.{◌≡◌, ℕ, Bool, true, List, ◌∷◌};
    ghost use Rattle.grid_types.specs.declared.entry.Entry.{Entry};
    ghost use Rattle.grid_types.specs.Tables.{entry};
    ghost use Rattle.hub_core.specs.Recorded.{MayRecord};

    /// Whose history is meant, and what else of it stays from the first change on.
    ghost Whose: { Type 0 };

    ghost caller_of: { Whose → ℕ };

    /// It has to find that the change goes on some history which it holds.
    ghost asks: { Bool };

    /// What it recorded is this history.
    ghost holds: { Self → Whose → List Entry → Type 0 };

    fn record(&mut self, change: Change)
        requires { asks ≡ true → MayRecord Whose caller_of (holds self.old) change }
        ensures { (whose : Whose) (past : List Entry) → holds self.old whose past →
            holds self.new whose (entry (caller_of whose) change ∷ past) };
}

/// Nothing is recorded: whatever the history is.
#[derive(Drop)]
pub(crate) struct Unrecorded;

impl Recorder for Unrecorded {
    ghost Whose = { ℕ };

    ghost caller_of = { λ caller. caller };

    ghost asks = { false };

    ghost holds = { λ r caller past. Unit {0} };

    fn record(&mut self, _change: Change) {}
}
