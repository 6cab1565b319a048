//! The calls of the core that compare capabilities, each with a counter of its own.
ghost use Rattle.std.specs.Prelude.{◌≡◌, ◌<◌, true, is_some};
ghost use Rattle.grid_types.specs.Calls.{Call};
ghost use Rattle.hub_core.specs.Ahead.{HasRoomFor};
ghost use Rattle.hub_core.specs.CoreStands.{CoreServes};
ghost use Rattle.hub_tellers.specs.Records.{TellsCall};
ghost use Rattle.hub_core.specs.Replies.{binding_reply, dispatched_reply, enqueued_reply, failing_reply, polled_reply, KeepsReservation, KeepsTicket};

use grid_journal::{Piece, PieceFault};
use grid_types::{Caps, Choices, FailWhy, Moment, SessionId};
use hub_core::{Binding, Dispatched, Enqueued, Failing, HubCore, Polled, Reservation, Ticket};
use hub_tellers::{bind_told, dispatch_told, enqueue_told, fail_told, poll_told};
use slot_match::Steps;
use std::sync::ledger::{Blank, Ledger};

pub(crate) fn counted_enqueue<L: Ledger>(
    core: &mut HubCore,
    piece: &mut Piece,
    caller: u64,
    choices: Choices,
    at: Moment,
    blank: Blank,
) -> (Enqueued, Result<(), PieceFault>)
    requires name { blank.name ≡ L.name }
    requires parts { blank.parts ≡ L.parts }
    requires some { 0 < L.parts }
    ensures serves { CoreServes core.old core.new caller (Call.enqueue choices) at.0
        (enqueued_reply result.0) }
    ensures told { TellsCall core.old caller (Call.enqueue choices) at.0 (enqueued_reply result.0)
        piece.old piece.new result.1 }
{
    let mut steps = Steps::<L>::new(blank);
    enqueue_told(core, piece, caller, choices, at, &mut steps)
}

pub(crate) fn counted_poll<L: Ledger>(
    core: &mut HubCore,
    piece: &mut Piece,
    caller: u64,
    ticket: Ticket,
    at: Moment,
    blank: Blank,
) -> (Polled, Result<(), PieceFault>)
    requires name { blank.name ≡ L.name }
    requires parts { blank.parts ≡ L.parts }
    requires some { 0 < L.parts }
    ensures serves { CoreServes core.old core.new caller (Call.poll ticket) at.0
        (polled_reply result.0) }
    ensures told { TellsCall core.old caller (Call.poll ticket) at.0 (polled_reply result.0)
        piece.old piece.new result.1 }
    ensures back { KeepsTicket ticket result.0 }
{
    let mut steps = Steps::<L>::new(blank);
    poll_told(core, piece, caller, ticket, at, &mut steps)
}

pub(crate) fn counted_dispatch<L: Ledger>(
    core: &mut HubCore,
    piece: &mut Piece,
    caller: u64,
    at: Moment,
    blank: Blank,
) -> (Dispatched, Result<(), PieceFault>)
    requires name { blank.name ≡ L.name }
    requires parts { blank.parts ≡ L.parts }
    requires some { 0 < L.parts }
    ensures serves { CoreServes core.old core.new caller Call.dispatch at.0
        (dispatched_reply result.0) }
    ensures told { TellsCall core.old caller Call.dispatch at.0 (dispatched_reply result.0)
        piece.old piece.new result.1 }
{
    let mut steps = Steps::<L>::new(blank);
    dispatch_told(core, piece, caller, at, &mut steps)
}

pub(crate) fn counted_bind<L: Ledger>(
    core: &mut HubCore,
    piece: &mut Piece,
    caller: u64,
    reservation: Reservation,
    session: SessionId,
    caps: Caps,
    at: Moment,
    blank: Blank,
) -> (Binding, Result<(), PieceFault>)
    requires name { blank.name ≡ L.name }
    requires parts { blank.parts ≡ L.parts }
    requires some { 0 < L.parts }
    ensures serves { CoreServes core.old core.new caller (Call.bind reservation session caps) at.0
        (binding_reply result.0) }
    ensures told { TellsCall core.old caller (Call.bind reservation session caps) at.0
        (binding_reply result.0) piece.old piece.new result.1 }
    ensures back { KeepsReservation reservation session result.0 }
    ensures sure { HasRoomFor core.old session → is_some (binding_reply result.0) ≡ true }
{
    let mut steps = Steps::<L>::new(blank);
    bind_told(
        core,
        piece,
        caller,
        reservation,
        session,
        caps,
        at,
        &mut steps,
    )
}

pub(crate) fn counted_fail<L: Ledger>(
    core: &mut HubCore,
    piece: &mut Piece,
    caller: u64,
    reservation: Reservation,
    why: FailWhy,
    at: Moment,
    blank: Blank,
) -> (Failing, Result<(), PieceFault>)
    requires name { blank.name ≡ L.name }
    requires parts { blank.parts ≡ L.parts }
    requires some { 0 < L.parts }
    ensures serves { CoreServes core.old core.new caller (Call.fail reservation why) at.0
        (failing_reply result.0) }
    ensures told { TellsCall core.old caller (Call.fail reservation why) at.0
        (failing_reply result.0) piece.old piece.new result.1 }
{
    let mut steps = Steps::<L>::new(blank);
    fail_told(core, piece, caller, reservation, why, at, &mut steps)
}
