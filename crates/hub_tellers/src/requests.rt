//! Calls of requests.
ghost use Rattle.std.specs.Prelude.{◌≡◌, ◌∷◌, [], ℕ, cond};
ghost use Rattle.grid_types.specs.declared.entry.Change.TheVariants as change;
ghost use Rattle.grid_types.specs.Calls.{Call};
ghost use Rattle.grid_types.specs.Tables.{entry};
ghost use Rattle.grid_types.specs.Requests.{is_settled};
ghost use Rattle.grid_types.specs.Tokens as told;
ghost use Rattle.hub_core.specs.Replies.{enqueued_reply, polled_reply, withdrawing_reply, dispatched_reply};
ghost use Rattle.grid_journal.specs.Pieces.{Told};
ghost use Rattle.hub_tellers.specs.Tells.{Nothing, Tells, ToldAll};

use grid_journal::{Piece, PieceFault};
use grid_types::{Choices, Moment, ReqNo};
use hub_core::{Dispatched, Enqueued, Polled, Reservation, Withdrawing};
use reply_laws::calls_make;

/// A slot is held for a request.
fn told_reserved(
    piece: &mut Piece,
    caller: u64,
    reservation: &Reservation,
    now: Moment,
) -> Result<(), PieceFault>
    ensures { Told piece.old piece.new (entry caller (change.Reserved reservation.now.request
        reservation.now.slot reservation.now.choice now)) result }
{
    let (request, slot) = (reservation.request(), reservation.slot());
    piece.reserved(caller, request, slot, reservation.choice(), now)
}

/// A request is settled by its deadline, and its outcome handed out.
fn told_late(piece: &mut Piece, caller: u64, request: ReqNo, now: Moment) -> Result<(), PieceFault>
    ensures { ToldAll piece.old piece.new (entry caller (change.TimedOut request now)
        ∷ entry caller (change.Taken request now) ∷ []) result }
{
    match piece.timed_out(caller, request, now) {
        Ok(()) => piece.taken(caller, request, now),
        Err(fault) => Err(fault),
    }
}

/// The outcome of a request is handed out, which was settled before or is by its deadline.
fn told_settled(
    piece: &mut Piece,
    caller: u64,
    request: ReqNo,
    was_settled: bool,
    now: Moment,
) -> Result<(), PieceFault>
    ensures { ToldAll piece.old piece.new (cond was_settled
        (entry caller (change.Taken request now) ∷ [])
        (entry caller (change.TimedOut request now) ∷ entry caller (change.Taken request now) ∷ []))
        result }
{
    if was_settled {
        piece.taken(caller, request, now)
    } else {
        told_late(piece, caller, request, now)
    }
}

/// A waiting request is cleared and its outcome handed out.
fn told_given_up(
    piece: &mut Piece,
    caller: u64,
    request: ReqNo,
    now: Moment,
) -> Result<(), PieceFault>
    ensures { ToldAll piece.old piece.new (entry caller (change.Cleared request now)
        ∷ entry caller (change.Taken request now) ∷ []) result }
{
    match piece.cleared(caller, request, now) {
        Ok(()) => piece.taken(caller, request, now),
        Err(fault) => Err(fault),
    }
}

/// A request is queued.
pub fn told_enqueue(
    piece: &mut Piece,
    caller: u64,
    choices: &Choices,
    now: Moment,
    answer: &Enqueued,
) -> Result<(), PieceFault>
    ensures { Tells Nothing caller (Call.enqueue choices.now) (enqueued_reply answer.now) now
        piece.old piece.new result }
{
    calls_make();
    match answer {
        Enqueued::Queued(ticket) => {
            piece.queued(caller, ticket.request(), choices, ticket.deadline(), now)
        }
        _ => Ok(()),
    }
}

/// It is asked how a request stands, which was settled before or not.
pub fn told_poll(
    piece: &mut Piece,
    caller: u64,
    request: ReqNo,
    was_settled: bool,
    now: Moment,
    answer: &Polled,
) -> Result<(), PieceFault>
    ensures { (ticket : told.Ticket) → ticket.request ≡ request →
        Tells (λ c H at. was_settled ≡ is_settled H request) caller (Call.poll ticket)
        (polled_reply answer.now) now piece.old piece.new result }
{
    calls_make();
    match answer {
        Polled::Yours(_, reservation) => told_reserved(piece, caller, reservation, now),
        Polled::Settled(_) => told_settled(piece, caller, request, was_settled, now),
        _ => Ok(()),
    }
}

/// A request is given up.
pub fn told_withdraw(
    piece: &mut Piece,
    caller: u64,
    request: ReqNo,
    now: Moment,
    answer: &Withdrawing,
) -> Result<(), PieceFault>
    ensures { (ticket : told.Ticket) → ticket.request ≡ request →
        Tells Nothing caller (Call.withdraw ticket) (withdrawing_reply answer.now) now piece.old
        piece.new result }
{
    calls_make();
    match answer {
        Withdrawing::Withdrawn => told_given_up(piece, caller, request, now),
        Withdrawing::Settled(_) => piece.taken(caller, request, now),
        Withdrawing::NotYet(_) => Ok(()),
    }
}

/// The next assignment is asked for.
pub fn told_dispatch(
    piece: &mut Piece,
    caller: u64,
    now: Moment,
    answer: &Dispatched,
) -> Result<(), PieceFault>
    ensures { Tells Nothing caller Call.dispatch (dispatched_reply answer.now) now piece.old
        piece.new result }
{
    calls_make();
    match answer {
        Dispatched::Assigned(reservation) => told_reserved(piece, caller, reservation, now),
        _ => Ok(()),
    }
}
