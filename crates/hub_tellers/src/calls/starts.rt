//! Calls that spend a reservation.
ghost use Rattle.std.specs.Prelude.{◌≡◌, ℕ, List, max, true, is_some};
ghost use Rattle.grid_types.specs.declared.capabilities.Cap.{Cap};
ghost use Rattle.grid_types.specs.declared.entry.Entry.{Entry};
ghost use Rattle.grid_types.specs.Calls.{Call};
ghost use Rattle.grid_types.specs.History.{clock};
ghost use Rattle.grid_types.specs.Tokens.{Reservation};
ghost use Rattle.hub_core.specs.Ahead.{HasRoomFor};
ghost use Rattle.hub_core.specs.declared.hub.HubCore.{HubCore};
ghost use Rattle.hub_core.specs.CoreStands.{Stands, CoreServes, CoreTells};
ghost use Rattle.hub_core.specs.Replies.{binding_reply, failing_reply, KeepsReservation};
ghost use Rattle.hub_core.specs.Serves.{MayCall};
ghost use Rattle.hub_tellers.specs.Records.{TellsCall};
ghost use Rattle.hub_tellers.specs.Starts.{IsOf, StoodSo};

use crate::changes::untold;
use crate::starts::{Standing, Start, told_bind, told_fail, told_unkept};
use grid_journal::{Piece, PieceFault};
use grid_types::{Caps, FailWhy, Moment, SessionId, history_laws};
use hub_core::{Binding, Failing, HubCore, Reservation};
use reply_laws::calls_make;
use slot_match::Steps;
use std::sync::ledger::Ledger;

/// The start that the reservation is for.
fn start_of(reservation: &Reservation) -> Start
    ensures { IsOf result reservation.now }
{
    Start {
        request: reservation.request(),
        slot: reservation.slot(),
    }
}

/// A start failed.
pub fn fail_told<L: Ledger>(
    core: &mut HubCore,
    piece: &mut Piece,
    caller: u64,
    reservation: Reservation,
    why: FailWhy,
    at: Moment,
    steps: &mut Steps<L>,
) -> (Failing, Result<(), PieceFault>)
    ensures serves { CoreServes core.old core.new caller (Call.fail reservation why) at.0
        (failing_reply result.0) }
    ensures told { TellsCall core.old caller (Call.fail reservation why) at.0
        (failing_reply result.0) piece.old piece.new result.1 }
{
    let now = core.raised(at);
    let start = start_of(&reservation);
    let cause = &why;
    let answer = core.fail(caller, reservation, *cause, at, steps);
    let told = told_fail(piece, caller, start, cause, now, answer);
    (answer, told)
}

/// A session was started in the slot: the capabilities of one that is kept are read from the row that the core keeps of
/// its request.
pub fn bind_told<L: Ledger>(
    core: &mut HubCore,
    piece: &mut Piece,
    caller: u64,
    reservation: Reservation,
    session: SessionId,
    caps: Caps,
    at: Moment,
    steps: &mut Steps<L>,
) -> (Binding, Result<(), PieceFault>)
    ensures serves { CoreServes core.old core.new caller (Call.bind reservation session caps) at.0
        (binding_reply result.0) }
    ensures told { TellsCall core.old caller (Call.bind reservation session caps) at.0
        (binding_reply result.0) piece.old piece.new result.1 }
    ensures back { KeepsReservation reservation session result.0 }
    ensures sure { HasRoomFor core.old session → is_some (binding_reply result.0) ≡ true }
{
    history_laws();
    let now = core.raised(at);
    let start = start_of(&reservation);
    let was_up = core.is_base_up(start.slot.node);
    let answer = core.bind(caller, reservation, session, caps, at, steps);
    let is_up = core.is_base_up(start.slot.node);
    let is_settled = core.is_settled(start.request);
    let standing = Standing {
        was_up,
        is_up,
        is_settled,
    };
    let told = told_start(core, piece, caller, start, session, standing, now, &answer);
    (answer, told)
}

/// What a bind entered that the core answered so, by how its node and its request stood.
fn told_start(
    core: &HubCore,
    piece: &mut Piece,
    caller: u64,
    start: Start,
    session: SessionId,
    standing: Standing,
    now: Moment,
    answer: &Binding,
) -> Result<(), PieceFault>
    ensures { (before : HubCore) (reservation : Reservation) (capabilities : List Cap) (at : ℕ) →
        IsOf start reservation →
        CoreServes before core.now caller (Call.bind reservation session capabilities) at
        (binding_reply answer.now) → CoreTells before (λ H. now.0 ≡ max at (clock H)) →
        ((H : List Entry) → Stands before H →
        MayCall H caller (Call.bind reservation session capabilities) →
        StoodSo caller reservation session capabilities standing (binding_reply answer.now)
        before.config H at) →
        TellsCall before caller (Call.bind reservation session capabilities) at
        (binding_reply answer.now) piece.old piece.new result }
{
    calls_make();
    match answer {
        Binding::Bound(_) => match core.created_caps(start.request) {
            Some(caps) => told_bind(piece, caller, start, session, caps, standing, now, answer),
            None => untold(piece),
        },
        _ => told_unkept(piece, caller, start, session, standing, now, answer),
    }
}
