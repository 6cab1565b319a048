//! What the calls that may change the published map have in common: each takes one turn, in which it makes its items
//! pending before its change, and shows them once its entries are kept.
ghost use Rattle.std.specs.Prelude.{◌≡◌, ℕ, [], ◌∷◌, true, OnOk, OnErr, IfOk, IfErr, is_some};
ghost use Rattle.turn_cell.specs.Cells.{view_of, origin_of, IsFree, HasTurn};
ghost use Rattle.turn_cell.specs.Cells as cells;
ghost use Rattle.grid_types.specs.HubAnswers.{hub};
ghost use Rattle.hub_core.specs.Answers.{may_lack};
ghost use Rattle.hub_core.specs.Ahead.{Publishes};
ghost use Rattle.hub_core.specs.Serves.{MayCall};
ghost use Rattle.hub_core.specs.CoreStands.{CoreKeeps, CoreTells};
ghost use Rattle.map_view.specs.Maps.{published, pending};
ghost use Rattle.journal_keeper.specs.Keepings.{kept_by};
ghost use Rattle.hub_cell.specs.Published.{GridStands, JournalStands, KnowsChanges};
ghost use Rattle.hub_cell.specs.Passes.{knows, config_of, IsAlone, IsOf, SameSpares};
ghost use Rattle.hub_cell.specs.Shared.{made_by, past, PassMay, SharedServes};
ghost use Rattle.hub_cell.specs.Unanswered.{IsUnanswered, fault_of};
ghost use Rattle.hub_cell.specs.Turning.{ServesThere, LacksThere};

use crate::grid::{Grid, let_entries_go};
use crate::hub::asking::token_laws;
use crate::hub::{CellFault, Pass, SharedHub, Stopped};
use grid_journal::{Piece, PieceFault};
use grid_types::NoMemory;
use hub_core::HubCore;
use journal_keeper::keep_told;
use map_view::{Item, Items, MapReader};
use std::alloc::Global;
use std::marker::Brand;
use std::sync::Wait;
use turn_cell::{Made, Turn, TurnCell};

/// A call of the core that may change the map, with its arguments.
pub(crate) trait Announces: Drop {
    ghost use Rattle.std.specs.Prelude.{◌≡◌, ℕ, true, List, Option, is_some, OnOk, IfOk};
    ghost use Rattle.grid_types.specs.HubAnswers.{hub};
    ghost use Rattle.hub_core.specs.Answers.{may_lack};
    ghost use Rattle.grid_types.specs.declared.config.HubConfig.{HubConfig};
    ghost use Rattle.grid_types.specs.declared.entry.Entry.{Entry};
    ghost use Rattle.grid_types.specs.Calls.{Call, Reply};
    ghost use Rattle.hub_core.specs.declared.hub.HubCore.{HubCore};
    ghost use Rattle.hub_core.specs.Ahead.{Publishes};
    ghost use Rattle.hub_core.specs.Serves.{MayCall};
    ghost use Rattle.hub_core.specs.CoreStands.{CoreServes, CoreKeeps, CoreTells};
    ghost use Rattle.hub_tellers.specs.Records.{TellsCall};
    ghost use Rattle.map_view.specs.Lists.{listed};
    ghost use Rattle.hub_cell.specs.Published.{MayLack};

    type Answer;

    ghost call: { Self → Call };

    ghost at: { Self → ℕ };

    ghost reply: { Self.Answer → Option Reply };

    /// What of the arguments comes back in an answer.
    ghost back: { Self → Self.Answer → Type 0 };

    /// What the core has then, so that the call finds its memory.
    ghost ready: { Self → HubCore → Type 0 };

    /// What is so where there is no memory for the items, or for the entry.
    ghost lacks: { Self → HubConfig → List Entry → ℕ → Type 0 };

    /// The items that the call publishes.
    fn items(&self, core: &mut HubCore, alloc: Global) -> Result<Items, NoMemory>
        ensures keeps { CoreKeeps core.old core.new }
        ensures items { IfOk result (λ items.
            CoreTells core.old (λ H. (caller : ℕ) → MayCall H caller (call self.now) →
            Publishes core.old.config H caller (call self.now) (at self.now) (listed items))) }
        ensures ready { OnOk result (CoreTells core.old
            (λ H. (caller : ℕ) → MayCall H caller (call self.now) →
            may_lack (call self.now) (hub core.old.config H caller (call self.now)
            (at self.now)).reply ≡ true → ready self.now core.new)) }
        ensures lacks { CoreTells core.old (λ H. (caller : ℕ) → MayCall H caller (call self.now) →
            MayLack result → lacks self.now core.old.config H caller) };

    /// So many bytes at most has what it enters, beside what stands ready.
    fn weight(&self) -> usize;

    /// Makes the call, and tells what it enters behind the piece.
    fn answer(
        self,
        core: &mut HubCore,
        piece: &mut Piece,
        caller: u64,
    ) -> (Self::Answer, Result<(), PieceFault>)
        ensures serves { CoreServes core.old core.new caller (call self) (at self)
            (reply result.0) }
        ensures told { TellsCall core.old caller (call self) (at self) (reply result.0) piece.old
            piece.new result.1 }
        ensures there { ready self core.old → is_some (reply result.0) ≡ true }
        ensures back { back self result.0 };
}

/// Why a call was not answered; what was asked comes back.
#[derive(Drop)]
pub(crate) enum Unanswered<Q> {
    Spent(Stopped<Q>),
    Memory(Q),
}

impl<Q: Drop> Unanswered<Q> {
    /// The fault, without what was asked.
    pub(crate) fn fault(self) -> CellFault
        ensures { result ≡ fault_of self }
    {
        match self {
            Unanswered::Spent(stopped) => CellFault::Spent(stopped.spent),
            Unanswered::Memory(_) => CellFault::Memory,
        }
    }
}

/// A list of one item.
pub(crate) fn one_item(alloc: Global, item: Item) -> Result<Items, NoMemory>
    ensures { IfOk result (λ items. items ≡ item ∷ []) }
{
    let mut items = Items::new(alloc);
    match items.push(item) {
        Ok(()) => Ok(items),
        Err(_) => Err(NoMemory),
    }
}

/// Makes the call's items pending, where there is memory for them and for its entry. A call that publishes nothing needs none.
fn prepare<Q: Announces>(grid: &mut Grid, question: &Q, alloc: Global) -> Result<(), NoMemory>
    requires none { pending grid.old.map ≡ [] }
    ensures keeps { CoreKeeps grid.old.core.value grid.new.core.value }
    ensures shown { published grid.new.map ≡ published grid.old.map }
    ensures journal { (grid.new.keeping ≡ grid.old.keeping) × (grid.new.piece ≡ grid.old.piece) }
    ensures items { OnOk result (CoreTells grid.old.core.value
        (λ H. (caller : ℕ) → MayCall H caller (Q.call question.now) →
        Publishes grid.old.core.value.config H caller (Q.call question.now) (Q.at question.now)
        (pending grid.new.map))) }
    ensures ready { OnOk result (CoreTells grid.old.core.value
        (λ H. (caller : ℕ) → MayCall H caller (Q.call question.now) →
        may_lack (Q.call question.now) (hub grid.old.core.value.config H caller
        (Q.call question.now) (Q.at question.now)).reply ≡ true →
        Q.ready question.now grid.new.core.value)) }
    ensures none { OnErr result (pending grid.new.map ≡ []) }
    ensures lacks { OnErr result (CoreTells grid.old.core.value
        (λ H. (caller : ℕ) → MayCall H caller (Q.call question.now) →
        Q.lacks question.now grid.old.core.value.config H caller)) }
{
    let items = question.items(&mut *grid.core, alloc)?;
    if items.items().is_empty() {
        return Ok(());
    }
    if grid.piece.reserve(question.weight()).is_err() {
        return Err(NoMemory);
    }
    match grid.map.append(items) {
        Ok(()) => Ok(()),
        Err(_) => Err(NoMemory),
    }
}

/// The part of a call that has the value. Its caller picks the entries by the history that the pass has seen then.
fn announce_there<Q: Announces, E: Made, R: Wait>(
    rt: &R,
    alloc: Global,
    cell: &TurnCell<Grid>,
    mut turn: Turn<Grid>,
    pass: &mut turn_cell::Pass<Grid>,
    reader: &mut MapReader,
    question: Q,
) -> Result<Q::Answer, Q>
    requires own { cells.IsOf cell.now pass.old × HasTurn pass.old turn }
    requires stands { GridStands turn.value.core.value turn.value.map (past (view_of pass.old))
        × (turn.value.core.value.config ≡ (origin_of cell.now).core.value.config) }
    requires journal { JournalStands turn.value.core.value.config (view_of pass.old).seen
        (kept_by turn.value.keeping) turn.value.piece }
    requires tells { is_some (kept_by turn.value.keeping)
        ≡ is_some (kept_by (origin_of cell.now).keeping) }
    requires may { PassMay (view_of pass.old) (Q.call question) }
    requires made { E.entries ≡ made_by (origin_of cell.now).core.value.config
        (past (view_of pass.old)) (view_of pass.old).number (Q.call question) (Q.at question) }
    ensures own { cells.IsOf cell.now pass.new × IsFree pass.new }
    ensures serves { IfOk result (λ a. ServesThere (origin_of cell.now).core.value.config
        (view_of pass.old) (Q.call question) (Q.at question) (Q.reply a) (view_of pass.new)) }
    ensures back { IfOk result (λ a. Q.back question a) }
    ensures lacks { IfErr result (λ q. (q ≡ question)
        × LacksThere (origin_of cell.now).core.value.config (view_of pass.old) (Q.lacks question)
        (view_of pass.new)) }
    ensures reader { KnowsChanges reader.new (past (view_of pass.new)) }
{
    let caller = pass.number();
    let grid = turn.value();
    if prepare(grid, &question, alloc).is_err() {
        grid.map.tell(reader);
        cell.leave::<Brand>(turn, pass);
        return Err(question);
    }
    let answered = question.answer(&mut *grid.core, &mut grid.piece, caller);
    let (answer, told) = answered;
    keep_told(rt, &mut grid.keeping, grid.piece.as_bytes(), told);
    let_entries_go(&mut grid.piece, alloc);
    grid.map.publish(rt);
    grid.map.tell(reader);
    cell.leave::<E>(turn, pass);
    Ok(answer)
}

impl SharedHub {
    /// Asks in a turn of its own, and shows what the call changes of the map.
    pub(crate) fn announce<Q: Announces, R: Wait>(
        &self,
        rt: &R,
        pass: &mut Pass,
        question: Q,
    ) -> Result<Q::Answer, Unanswered<Q>>
        requires own { IsOf self.now pass.old }
        requires may { PassMay (knows pass.old) (Q.call question) }
        ensures own { IsOf self.now pass.new }
        ensures spares { SameSpares pass.old pass.new }
        ensures serves { IfOk result (λ a. SharedServes (config_of self.now) (knows pass.old)
            (Q.call question) (Q.at question) (Q.reply a) (knows pass.new)) }
        ensures back { IfOk result (λ a. Q.back question a) }
        ensures unanswered { IfErr result (IsUnanswered self.now (knows pass.old) question
            (Q.call question) (Q.lacks question) (knows pass.new)) }
    {
        let asked = self.announce_alone(rt, pass, question);
        self.keep_up(pass);
        asked
    }

    /// The same, but what becomes of a lender.
    fn announce_alone<Q: Announces, R: Wait>(
        &self,
        rt: &R,
        pass: &mut Pass,
        question: Q,
    ) -> Result<Q::Answer, Unanswered<Q>>
        requires own { IsAlone self.now pass.old }
        requires may { PassMay (knows pass.old) (Q.call question) }
        ensures own { IsAlone self.now pass.new }
        ensures spares { SameSpares pass.old pass.new × (pass.new.lender ≡ pass.old.lender) }
        ensures serves { IfOk result (λ a. SharedServes (config_of self.now) (knows pass.old)
            (Q.call question) (Q.at question) (Q.reply a) (knows pass.new)) }
        ensures back { IfOk result (λ a. Q.back question a) }
        ensures unanswered { IfErr result (IsUnanswered self.now (knows pass.old) question
            (Q.call question) (Q.lacks question) (knows pass.new)) }
    {
        // For the proof alone: the caller's other tokens stay good.
        token_laws();
        match self.cell.enter(rt, &mut pass.inner) {
            Ok(turn) => {
                match announce_there::<Q, Brand, R>(
                    rt,
                    self.alloc,
                    &self.cell,
                    turn,
                    &mut pass.inner,
                    &mut pass.reader,
                    question,
                ) {
                    Ok(answer) => Ok(answer),
                    Err(question) => Err(Unanswered::Memory(question)),
                }
            }
            Err(spent) => Err(Unanswered::Spent(Stopped {
                spent,
                token: question,
            })),
        }
    }
}
