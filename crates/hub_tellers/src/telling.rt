//! Whoever is told each change of a call, and writes it down.
ghost use Rattle.std.specs.Prelude.{List, ◌∷◌};
ghost use Rattle.grid_types.specs.declared.entry.Entry.{Entry};
ghost use Rattle.grid_types.specs.Tables.{entry};
ghost use Rattle.hub_tellers.specs.Records.{Since, ToldSince};

use crate::changes::told_change;
use grid_journal::{Piece, PieceFault};
use grid_types::Change;
use hub_core::Recorder;

/// The piece of one call, its caller, and whether all that came so far is told.
#[derive(Drop)]
pub(crate) struct Telling {
    pub(crate) piece: Piece,
    pub(crate) caller: u64,
    pub(crate) told: Result<(), PieceFault>,
}

/// What is told once one more change came: nothing more where telling failed before.
fn told_next(
    piece: &mut Piece,
    caller: u64,
    told: Result<(), PieceFault>,
    change: &Change,
) -> Result<(), PieceFault>
    ensures { (since : Since) (past : List Entry) →
        ToldSince caller piece.old told since past →
        ToldSince caller piece.new result since (entry since.caller change.now ∷ past) }
{
    match told {
        Ok(()) => told_change(piece, caller, change),
        Err(fault) => Err(fault),
    }
}

impl Recorder for Telling {
    ghost use Rattle.std.specs.Prelude.{false};
    ghost use Rattle.hub_tellers.specs.Records.{Since, ToldSince};

    ghost Whose = { Since };

    ghost caller_of = { λ since. since.caller };

    ghost asks = { false };

    ghost holds = { λ t since past. ToldSince t.caller t.piece t.told since past };

    fn record(&mut self, change: Change) {
        let told = told_next(&mut self.piece, self.caller, self.told, &change);
        self.told = told;
    }
}
