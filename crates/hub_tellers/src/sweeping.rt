//! The calls that go over all nodes or all requests, with what they enter.
ghost use Rattle.std.specs.Prelude.{◌≡◌, IsOk, Some};
ghost use Rattle.grid_types.specs.Calls.{Call, Reply};
ghost use Rattle.hub_core.specs.CoreStands.{CoreServes};
ghost use Rattle.hub_core.specs.Replies.{swept_reply};
ghost use Rattle.hub_tellers.specs.Records.{TellsCall};

use crate::telling::Telling;
use grid_journal::{Piece, PieceFault};
use grid_types::Moment;
use hub_core::{HubCore, Swept};

/// A piece with nothing told of the caller's next call.
fn begun(piece: Piece, caller: u64) -> Telling
    ensures piece { result.piece ≡ piece }
    ensures caller { result.caller ≡ caller }
    ensures told { IsOk result.told }
{
    Telling {
        piece,
        caller,
        told: Ok(()),
    }
}

/// Sweeps the nodes and the requests, and tells what that enters to the piece, which comes back.
pub fn sweep_told(
    core: &mut HubCore,
    piece: Piece,
    caller: u64,
    at: Moment,
) -> (Swept, Piece, Result<(), PieceFault>)
    ensures serves { CoreServes core.old core.new caller Call.sweep at.0 (swept_reply result.0) }
    ensures told { TellsCall core.old caller Call.sweep at.0 (swept_reply result.0) piece result.1
        result.2 }
{
    let mut telling = begun(piece, caller);
    let swept = core.sweep_by(&mut telling, at);
    (swept, telling.piece, telling.told)
}

/// Clears the queue, and tells what that enters to the piece, which comes back.
pub fn clear_told(
    core: &mut HubCore,
    piece: Piece,
    caller: u64,
    at: Moment,
) -> (u32, Piece, Result<(), PieceFault>)
    ensures serves { CoreServes core.old core.new caller Call.clear at.0
        (Some (Reply.cleared result.0)) }
    ensures told { TellsCall core.old caller Call.clear at.0 (Some (Reply.cleared result.0)) piece
        result.1 result.2 }
{
    let mut telling = begun(piece, caller);
    let cleared = core.clear_by(&mut telling, at);
    (cleared, telling.piece, telling.told)
}
