//! Any change, told to a piece.
ghost use Rattle.std.specs.Prelude.{List};
ghost use Rattle.grid_types.specs.declared.entry.Entry.{Entry};
ghost use Rattle.grid_types.specs.Tables.{entry};
ghost use Rattle.grid_journal.specs.Pieces.{Told};
ghost use Rattle.hub_tellers.specs.Tells.{ToldAll};

use grid_journal::{Piece, PieceFault};
use grid_types::Change;

/// The caller's entry of the change.
pub fn told_change(piece: &mut Piece, caller: u64, change: &Change) -> Result<(), PieceFault>
    ensures { Told piece.old piece.new (entry caller change.now) result }
{
    match change {
        Change::Registered {
            node,
            registration,
            at,
        } => piece.registered(caller, *node, registration, *at),
        Change::Beaten { node, at } => piece.beaten(caller, *node, *at),
        Change::Draining { node, at } => piece.draining(caller, *node, *at),
        Change::Removed { node, at } => piece.removed(caller, *node, *at),
        Change::Lapsed { node, at } => piece.lapsed(caller, *node, *at),
        Change::Queued {
            request,
            choices,
            deadline,
            at,
        } => piece.queued(caller, *request, choices, *deadline, *at),
        Change::Reserved {
            request,
            slot,
            choice,
            at,
        } => piece.reserved(caller, *request, *slot, *choice, *at),
        Change::Bound {
            request,
            slot,
            session,
            caps,
            at,
        } => piece.bound(caller, *request, *slot, *session, caps, *at),
        Change::Failed {
            request,
            slot,
            why,
            orphan,
            last,
            at,
        } => piece.failed(caller, *request, *slot, why, *orphan, *last, *at),
        Change::TimedOut { request, at } => piece.timed_out(caller, *request, *at),
        Change::Cleared { request, at } => piece.cleared(caller, *request, *at),
        Change::Taken { request, at } => piece.taken(caller, *request, *at),
        Change::Touched { binding, at } => piece.touched(caller, *binding, *at),
        Change::Ended { binding, cause, at } => piece.ended(caller, *binding, *cause, *at),
        Change::Freed { slot } => piece.freed(caller, *slot),
        Change::Suspected { node, at } => piece.suspected(caller, *node, *at),
    }
}

/// Nothing is told: the piece is emptied. It serves where a row is missing, which never happens in a core that stands for a
/// history.
pub(crate) fn untold(piece: &mut Piece) -> Result<(), PieceFault>
    ensures { (entries : List Entry) → ToldAll piece.old piece.new entries result }
{
    piece.clear();
    Err(PieceFault::Memory)
}
