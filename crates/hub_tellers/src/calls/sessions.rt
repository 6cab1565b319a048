//! Calls of sessions that run.
ghost use Rattle.std.specs.Prelude.{ℕ, Some};
ghost use Rattle.grid_types.specs.Calls.{Call, Reply};
ghost use Rattle.hub_core.specs.CoreStands.{CoreServes};
ghost use Rattle.hub_core.specs.Replies.{touching_reply, ending_reply, expiring_reply};
ghost use Rattle.hub_tellers.specs.Records.{TellsCall};

use crate::sessions::{told_end, told_expire, told_freed, told_touch};
use grid_journal::{Piece, PieceFault};
use grid_types::{Moment, ReqNo, SessionId};
use hub_core::{Closing, Ending, Expiring, HubCore, Touching};

/// A session is used.
pub fn touch_told(
    core: &mut HubCore,
    piece: &mut Piece,
    caller: u64,
    session: &SessionId,
    binding: ReqNo,
    at: Moment,
) -> (Touching, Result<(), PieceFault>)
    ensures serves { CoreServes core.old core.new caller (Call.touch session.now binding) at.0
        (touching_reply result.0) }
    ensures told { TellsCall core.old caller (Call.touch session.now binding) at.0
        (touching_reply result.0) piece.old piece.new result.1 }
{
    let now = core.raised(at);
    let answer = core.touch(caller, session, binding, at);
    let told = told_touch(piece, caller, binding, now, answer);
    (answer, told)
}

/// A session is ended.
pub fn end_told(
    core: &mut HubCore,
    piece: &mut Piece,
    caller: u64,
    session: &SessionId,
    binding: ReqNo,
    at: Moment,
) -> (Ending, Result<(), PieceFault>)
    ensures serves { CoreServes core.old core.new caller (Call.end session.now binding) at.0
        (ending_reply result.0) }
    ensures told { TellsCall core.old caller (Call.end session.now binding) at.0
        (ending_reply result.0) piece.old piece.new result.1 }
{
    let now = core.raised(at);
    let answer = core.end(caller, session, binding, at);
    let told = told_end(piece, caller, binding, now, &answer);
    (answer, told)
}

/// A closing slot is freed.
pub fn freed_told(
    core: &mut HubCore,
    piece: &mut Piece,
    caller: u64,
    closing: Closing,
    at: Moment,
) -> Result<(), PieceFault>
    ensures serves { CoreServes core.old core.new caller (Call.freed closing) at.0
        (Some Reply.is_freed) }
    ensures told { TellsCall core.old caller (Call.freed closing) at.0 (Some Reply.is_freed)
        piece.old piece.new result }
{
    let now = core.raised(at);
    let slot = closing.slot();
    core.freed(caller, closing);
    told_freed(piece, caller, slot, now)
}

/// The idle session with the least binding is ended, if there is one.
pub fn expire_told(
    core: &mut HubCore,
    piece: &mut Piece,
    caller: u64,
    at: Moment,
) -> (Expiring, Result<(), PieceFault>)
    ensures serves { CoreServes core.old core.new caller Call.expire at.0
        (expiring_reply result.0) }
    ensures told { TellsCall core.old caller Call.expire at.0 (expiring_reply result.0) piece.old
        piece.new result.1 }
{
    let now = core.raised(at);
    let idle = core.idle_binding(at);
    let answer = core.expire(caller, at);
    let told = told_expire(piece, caller, idle, now, &answer);
    (answer, told)
}
