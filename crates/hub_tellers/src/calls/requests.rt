//! Calls of requests.
ghost use Rattle.std.specs.Prelude.{◌≡◌, ℕ, List, max};
ghost use Rattle.grid_types.specs.declared.capabilities.Cap.{Cap};
ghost use Rattle.grid_types.specs.Calls.{Call};
ghost use Rattle.grid_types.specs.History.{clock};
ghost use Rattle.hub_core.specs.CoreStands.{CoreServes, CoreTells};
ghost use Rattle.hub_core.specs.Replies.{enqueued_reply, polled_reply, withdrawing_reply, dispatched_reply, KeepsTicket};
ghost use Rattle.hub_core.specs.declared.hub.HubCore.{HubCore};
ghost use Rattle.hub_tellers.specs.Records.{TellsCall};

use crate::changes::untold;
use crate::requests::{told_dispatch, told_enqueue, told_poll, told_withdraw};
use grid_journal::{Piece, PieceFault};
use grid_types::{Choices, Moment, history_laws};
use hub_core::{Dispatched, Enqueued, HubCore, Polled, Ticket, Withdrawing};
use reply_laws::calls_make;
use slot_match::Steps;
use std::sync::ledger::Ledger;

/// It is asked how a request stands.
pub fn poll_told<L: Ledger>(
    core: &mut HubCore,
    piece: &mut Piece,
    caller: u64,
    ticket: Ticket,
    at: Moment,
    steps: &mut Steps<L>,
) -> (Polled, Result<(), PieceFault>)
    ensures serves { CoreServes core.old core.new caller (Call.poll ticket) at.0
        (polled_reply result.0) }
    ensures told { TellsCall core.old caller (Call.poll ticket) at.0 (polled_reply result.0)
        piece.old piece.new result.1 }
    ensures back { KeepsTicket ticket result.0 }
{
    let now = core.raised(at);
    let request = ticket.request();
    let settled = core.is_settled(request);
    let answer = core.poll(caller, ticket, at, steps);
    let told = told_poll(piece, caller, request, settled, now, &answer);
    (answer, told)
}

/// A request is given up.
pub fn withdraw_told(
    core: &mut HubCore,
    piece: &mut Piece,
    caller: u64,
    ticket: Ticket,
    at: Moment,
) -> (Withdrawing, Result<(), PieceFault>)
    ensures serves { CoreServes core.old core.new caller (Call.withdraw ticket) at.0
        (withdrawing_reply result.0) }
    ensures told { TellsCall core.old caller (Call.withdraw ticket) at.0
        (withdrawing_reply result.0) piece.old piece.new result.1 }
{
    let now = core.raised(at);
    let request = ticket.request();
    let answer = core.withdraw(caller, ticket, at);
    let told = told_withdraw(piece, caller, request, now, &answer);
    (answer, told)
}

/// The next assignment is asked for.
pub fn dispatch_told<L: Ledger>(
    core: &mut HubCore,
    piece: &mut Piece,
    caller: u64,
    at: Moment,
    steps: &mut Steps<L>,
) -> (Dispatched, Result<(), PieceFault>)
    ensures serves { CoreServes core.old core.new caller Call.dispatch at.0
        (dispatched_reply result.0) }
    ensures told { TellsCall core.old caller Call.dispatch at.0 (dispatched_reply result.0)
        piece.old piece.new result.1 }
{
    let now = core.raised(at);
    let answer = core.dispatch(caller, at, steps);
    let told = told_dispatch(piece, caller, now, &answer);
    (answer, told)
}

/// A request is queued: its choices are read from the row that the core keeps of it.
pub fn enqueue_told<L: Ledger>(
    core: &mut HubCore,
    piece: &mut Piece,
    caller: u64,
    choices: Choices,
    at: Moment,
    steps: &mut Steps<L>,
) -> (Enqueued, Result<(), PieceFault>)
    ensures serves { CoreServes core.old core.new caller (Call.enqueue choices) at.0
        (enqueued_reply result.0) }
    ensures told { TellsCall core.old caller (Call.enqueue choices) at.0 (enqueued_reply result.0)
        piece.old piece.new result.1 }
{
    let now = core.raised(at);
    let answer = core.enqueue(caller, choices, at, steps);
    let told = told_waiting(core, piece, caller, now, &answer);
    (answer, told)
}

/// What a request entered that the core answered so.
fn told_waiting(
    core: &HubCore,
    piece: &mut Piece,
    caller: u64,
    now: Moment,
    answer: &Enqueued,
) -> Result<(), PieceFault>
    ensures { (before : HubCore) (choices : List (List Cap)) (at : ℕ) →
        CoreServes before core.now caller (Call.enqueue choices) at (enqueued_reply answer.now) →
        CoreTells before (λ H. now.0 ≡ max at (clock H)) →
        TellsCall before caller (Call.enqueue choices) at (enqueued_reply answer.now) piece.old
        piece.new result }
{
    history_laws();
    calls_make();
    match answer {
        Enqueued::Queued(ticket) => match core.choices(ticket.request()) {
            Some(choices) => told_enqueue(piece, caller, choices, now, answer),
            None => untold(piece),
        },
        _ => Ok(()),
    }
}
