//! Calls that spend a reservation.
ghost use Rattle.std.specs.Prelude.{◌≡◌, ◌∷◌, ◌&&◌, [], IfSome, List, cond, not};
ghost use Rattle.grid_types.specs.declared.capabilities.Cap.{Cap};
ghost use Rattle.grid_types.specs.declared.entry.Change.TheVariants as change;
ghost use Rattle.grid_types.specs.Calls.{Call};
ghost use Rattle.grid_types.specs.Tables.{entry};
ghost use Rattle.grid_types.specs.Tokens as told;
ghost use Rattle.grid_journal.specs.Pieces.{Told};
ghost use Rattle.hub_core.specs.Replies.{binding_reply, failing_reply};
ghost use Rattle.hub_tellers.specs.Tells.{Nothing, Tells, ToldAll};
ghost use Rattle.hub_tellers.specs.Starts.{IsOf, Stood};
ghost use Rattle.reply_laws.specs.Made.{is_refusal};

use crate::changes::untold;
use grid_journal::{Piece, PieceFault};
use grid_types::{Caps, FailWhy, Moment, NodeNo, ReqNo, SessionId, SlotId};
use hub_core::{Binding, Failing};
use reply_laws::calls_make;

/// A start, of which the call takes the reservation.
#[derive(Clone, Copy, Debug)]
pub struct Start {
    pub request: ReqNo,
    pub slot: SlotId,
}

/// How the node and the request of a start stand.
#[derive(Clone, Copy, Debug)]
pub struct Standing {
    /// The node took new sessions before the call.
    pub was_up: bool,
    /// It takes some after it.
    pub is_up: bool,
    /// The request is settled after it.
    pub is_settled: bool,
}

/// A node drains, or not.
fn told_drained(
    piece: &mut Piece,
    caller: u64,
    node: NodeNo,
    drains: bool,
    now: Moment,
) -> Result<(), PieceFault>
    ensures { ToldAll piece.old piece.new
        (cond drains (entry caller (change.Draining node now) ∷ []) []) result }
{
    if drains {
        piece.draining(caller, node, now)
    } else {
        Ok(())
    }
}

/// A session is kept, and the node drains where it does so with it.
fn told_bound(
    piece: &mut Piece,
    caller: u64,
    start: Start,
    session: SessionId,
    caps: &Caps,
    drains: bool,
    now: Moment,
) -> Result<(), PieceFault>
    ensures { ToldAll piece.old piece.new
        (entry caller (change.Bound start.request start.slot session caps.now now)
        ∷ cond drains (entry caller (change.Draining start.slot.node now) ∷ []) []) result }
{
    match piece.bound(caller, start.request, start.slot, session, caps, now) {
        Ok(()) => told_drained(piece, caller, start.slot.node, drains, now),
        Err(fault) => Err(fault),
    }
}

/// A start failed, after which the node may have a session that is not kept.
fn told_failed(
    piece: &mut Piece,
    caller: u64,
    start: Start,
    why: &FailWhy,
    orphan: Option<SessionId>,
    last: bool,
    now: Moment,
) -> Result<(), PieceFault>
    ensures { Told piece.old piece.new
        (entry caller (change.Failed start.request start.slot why.now orphan last now)) result }
{
    piece.failed(caller, start.request, start.slot, why, orphan, last, now)
}

/// The node drains with the session that is kept.
fn drains_then(standing: Standing) -> bool
    ensures { result ≡ (standing.was_up && not standing.is_up) }
{
    standing.was_up && !standing.is_up
}

/// A session was started in the slot and is not kept. One that is kept is told by `told_bind`, since its capabilities are.
pub fn told_unkept(
    piece: &mut Piece,
    caller: u64,
    start: Start,
    session: SessionId,
    standing: Standing,
    now: Moment,
    answer: &Binding,
) -> Result<(), PieceFault>
    ensures { (capabilities : List Cap) (reservation : told.Reservation) → IsOf start reservation →
        Tells (Stood caller reservation session capabilities standing (binding_reply answer.now))
        caller (Call.bind reservation session capabilities) (binding_reply answer.now) now
        piece.old piece.new result }
{
    calls_make();
    let orphan = Some(session);
    let last = standing.is_settled;
    match answer {
        Binding::Bound(_) => untold(piece),
        Binding::Late(_) => {
            told_failed(piece, caller, start, &FailWhy::Late, orphan, false, now)
        }
        Binding::NodeGone(_) => {
            told_failed(piece, caller, start, &FailWhy::NodeGone, orphan, last, now)
        }
        Binding::Duplicate(_) => {
            told_failed(piece, caller, start, &FailWhy::Duplicate, orphan, last, now)
        }
        Binding::Mismatch(_) => {
            told_failed(piece, caller, start, &FailWhy::Mismatch, orphan, last, now)
        }
        Binding::Memory(_, _) => Ok(()),
    }
}

/// A session was started in the slot.
pub fn told_bind(
    piece: &mut Piece,
    caller: u64,
    start: Start,
    session: SessionId,
    caps: &Caps,
    standing: Standing,
    now: Moment,
    answer: &Binding,
) -> Result<(), PieceFault>
    ensures { (reservation : told.Reservation) → IsOf start reservation →
        Tells (Stood caller reservation session caps.now standing (binding_reply answer.now)) caller
        (Call.bind reservation session caps.now) (binding_reply answer.now) now piece.old piece.new
        result }
{
    calls_make();
    match answer {
        Binding::Bound(_) => {
            let drains = drains_then(standing);
            told_bound(piece, caller, start, session, caps, drains, now)
        }
        _ => told_unkept(piece, caller, start, session, standing, now, answer),
    }
}

/// The failure settled the request.
fn refuses(answer: Failing) -> bool
    ensures { IfSome (failing_reply answer) (λ reply. result ≡ is_refusal reply) }
{
    match answer {
        Failing::Refused => true,
        Failing::Again => false,
        Failing::Late => false,
    }
}

/// A start failed.
pub fn told_fail(
    piece: &mut Piece,
    caller: u64,
    start: Start,
    why: &FailWhy,
    now: Moment,
    answer: Failing,
) -> Result<(), PieceFault>
    ensures { (reservation : told.Reservation) → IsOf start reservation →
        Tells Nothing caller (Call.fail reservation why.now) (failing_reply answer) now piece.old
        piece.new result }
{
    calls_make();
    let last = refuses(answer);
    told_failed(piece, caller, start, why, None, last, now)
}
