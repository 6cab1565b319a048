//! Calls of sessions that run.
ghost use Rattle.std.specs.Prelude.{◌≡◌, ℕ, List, max, nat_lt, Some};
ghost use Rattle.grid_types.specs.Calls.{Call, Reply};
ghost use Rattle.grid_types.specs.History.{clock};
ghost use Rattle.grid_types.specs.HubAnswers.{idle_bindings};
ghost use Rattle.grid_types.specs.Lists.{least};
ghost use Rattle.grid_types.specs.Tokens as told;
ghost use Rattle.hub_core.specs.Replies.{touching_reply, ending_reply, expiring_reply};
ghost use Rattle.hub_tellers.specs.Tells.{Nothing, Tells, ToldAll, idle_ended};

use grid_journal::{Piece, PieceFault};
use grid_types::{EndCause, Moment, ReqNo, SlotId};
use hub_core::{Ending, Expiring, Touching};
use reply_laws::calls_make;

/// A session is used.
pub fn told_touch(
    piece: &mut Piece,
    caller: u64,
    binding: ReqNo,
    now: Moment,
    answer: Touching,
) -> Result<(), PieceFault>
    ensures { (session : List ℕ) → Tells Nothing caller (Call.touch session binding)
        (touching_reply answer) now piece.old piece.new result }
{
    calls_make();
    match answer {
        Touching::Touched => piece.touched(caller, binding, now),
        Touching::NoSession => Ok(()),
    }
}

/// A session is ended.
pub fn told_end(
    piece: &mut Piece,
    caller: u64,
    binding: ReqNo,
    now: Moment,
    answer: &Ending,
) -> Result<(), PieceFault>
    ensures { (session : List ℕ) → Tells Nothing caller (Call.end session binding)
        (ending_reply answer.now) now piece.old piece.new result }
{
    calls_make();
    match answer {
        Ending::Ended(_) => piece.ended(caller, binding, EndCause::Quit, now),
        Ending::NoSession => Ok(()),
    }
}

/// A closing slot is freed.
pub fn told_freed(
    piece: &mut Piece,
    caller: u64,
    slot: SlotId,
    now: Moment,
) -> Result<(), PieceFault>
    ensures { (closing : told.Closing) → closing.slot ≡ slot →
        Tells Nothing caller (Call.freed closing) (Some Reply.is_freed) now piece.old piece.new
        result }
{
    calls_make();
    piece.freed(caller, slot)
}

/// The session that was idle for too long is ended, if there is one.
fn told_idle(
    piece: &mut Piece,
    caller: u64,
    idle: Option<ReqNo>,
    now: Moment,
) -> Result<(), PieceFault>
    ensures { ToldAll piece.old piece.new (idle_ended caller idle now) result }
{
    match idle {
        Some(binding) => piece.ended(caller, binding, EndCause::Idle, now),
        None => Ok(()),
    }
}

/// The idle session with the least binding is ended, if there is one.
pub fn told_expire(
    piece: &mut Piece,
    caller: u64,
    idle: Option<ReqNo>,
    now: Moment,
    answer: &Expiring,
) -> Result<(), PieceFault>
    ensures { Tells (λ c H at. idle ≡ least nat_lt (idle_bindings c H (max at (clock H)))) caller
        Call.expire (expiring_reply answer.now) now piece.old piece.new result }
{
    calls_make();
    match answer {
        Expiring::Expired(_) => told_idle(piece, caller, idle, now),
        Expiring::Nothing => Ok(()),
    }
}
