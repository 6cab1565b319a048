//! What is kept of the journal.
ghost use Rattle.std.specs.Prelude.{◌≡◌, [], IfOk, IfErr, IfSome, OnOk, Some, is_some};
ghost use Rattle.turn_cell.specs.Steps.{after, IsExact};
ghost use Rattle.turn_cell.specs.Cells.{view_of, origin_of, IsFree, HasTurn};
ghost use Rattle.turn_cell.specs.Cells as cells;
ghost use Rattle.journal_keeper.specs.Images.{written};
ghost use Rattle.journal_keeper.specs.Keepings.{kept_by};
ghost use Rattle.hub_cell.specs.Passes.{knows, config_of, keeping_of, GoesOn, IsAlone, IsFault, IsOf, SameSpares};
ghost use Rattle.hub_cell.specs.Published.{GridStands, JournalStands, KnowsChanges};
ghost use Rattle.hub_cell.specs.Shared.{past, LooksOnce};

use crate::grid::Grid;
use crate::hub::asking::token_laws;
use crate::hub::{CellFault, Pass, SharedHub};
use grid_types::{Bytes, NoMemory};
use map_view::MapReader;
use std::alloc::Global;
use std::marker::Brand;
use std::sync::Wait;
use turn_cell::{Turn, TurnCell};

/// A copy of the bytes.
fn copied(alloc: Global, bytes: &[u8]) -> Result<Bytes, NoMemory>
    ensures { IfOk result (λ copy. copy ≡ bytes.now) }
{
    let mut copy = Vec::new(alloc);
    match copy.extend_from_slice(bytes) {
        Ok(()) => Ok(Bytes::from_vec(copy)),
        Err(_) => Err(NoMemory),
    }
}

/// The part of the call that has the value.
fn kept_there(
    alloc: Global,
    cell: &TurnCell<Grid>,
    mut turn: Turn<Grid>,
    pass: &mut turn_cell::Pass<Grid>,
    reader: &mut MapReader,
) -> Result<Option<Bytes>, NoMemory>
    requires own { cells.IsOf cell.now pass.old × HasTurn pass.old turn }
    requires stands { GridStands turn.value.core.value turn.value.map (past (view_of pass.old))
        × (turn.value.core.value.config ≡ (origin_of cell.now).core.value.config) }
    requires journal { JournalStands turn.value.core.value.config (view_of pass.old).seen
        (kept_by turn.value.keeping) turn.value.piece }
    requires tells { is_some (kept_by turn.value.keeping)
        ≡ is_some (kept_by (origin_of cell.now).keeping) }
    ensures own { cells.IsOf cell.now pass.new × IsFree pass.new }
    ensures view { (view_of pass.new ≡ after [] (view_of pass.old)) × IsExact (view_of pass.new) }
    ensures kept { IfOk result (λ copy. IfSome copy (λ bytes. bytes
        ≡ written (origin_of cell.now).core.value.config (view_of pass.old).seen)) }
    ensures none { IfOk result (λ copy. is_some copy
        ≡ is_some (kept_by (origin_of cell.now).keeping)) }
    ensures reader { KnowsChanges reader.new (past (view_of pass.new)) }
{
    let grid = turn.value();
    grid.map.tell(reader);
    let copy = match grid.keeping.bytes() {
        Some(bytes) => match copied(alloc, bytes) {
            Ok(copy) => Ok(Some(copy)),
            Err(lack) => Err(lack),
        },
        None => Ok(None),
    };
    cell.leave::<Brand>(turn, pass);
    copy
}

impl SharedHub {
    /// A copy of the bytes that are kept in memory, made in a turn: the journal of all that the pass has seen then, which goes on
    /// from what the hub was made with. None: the hub keeps no journal, or in a file, whose bytes are not told. Err: no turn is
    /// left, or out of memory.
    pub fn kept<R: Wait>(&self, rt: &R, pass: &mut Pass) -> Result<Option<Bytes>, CellFault>
        requires own { IsOf self.now pass.old }
        ensures own { IsOf self.now pass.new }
        ensures spares { SameSpares pass.old pass.new }
        ensures turn { OnOk result (LooksOnce (knows pass.old) (knows pass.new)) }
        ensures goes_on { OnOk result (GoesOn self.now (knows pass.new).seen) }
        ensures kept { IfOk result (λ copy. IfSome copy (λ bytes.
            bytes ≡ written (config_of self.now) (knows pass.new).seen)) }
        ensures none { IfOk result (λ copy. is_some copy
            ≡ is_some (kept_by (keeping_of self.now))) }
        ensures fault { IfErr result (IsFault self.now (knows pass.old) (knows pass.new)) }
    {
        let copy = self.kept_alone(rt, pass);
        self.keep_up(pass);
        copy
    }

    /// The same, but what becomes of a lender.
    fn kept_alone<R: Wait>(&self, rt: &R, pass: &mut Pass) -> Result<Option<Bytes>, CellFault>
        requires own { IsAlone self.now pass.old }
        ensures own { IsAlone self.now pass.new }
        ensures spares { SameSpares pass.old pass.new × (pass.new.lender ≡ pass.old.lender) }
        ensures turn { OnOk result (LooksOnce (knows pass.old) (knows pass.new)) }
        ensures goes_on { OnOk result (GoesOn self.now (knows pass.new).seen) }
        ensures kept { IfOk result (λ copy. IfSome copy (λ bytes.
            bytes ≡ written (config_of self.now) (knows pass.new).seen)) }
        ensures none { IfOk result (λ copy. is_some copy
            ≡ is_some (kept_by (keeping_of self.now))) }
        ensures fault { IfErr result (IsFault self.now (knows pass.old) (knows pass.new)) }
    {
        // For the proof alone: the pass's tokens stay good.
        token_laws();
        match self.cell.enter(rt, &mut pass.inner) {
            Ok(turn) => {
                let kept = kept_there(
                    self.alloc,
                    &self.cell,
                    turn,
                    &mut pass.inner,
                    &mut pass.reader,
                );
                match kept {
                    Ok(copy) => Ok(copy),
                    Err(_) => Err(CellFault::Memory),
                }
            }
            Err(spent) => Err(CellFault::Spent(spent)),
        }
    }
}
