//! A request for a new session (WebDriver §8.1).
ghost use Rattle.std.specs.Prelude.{◌≡◌, Some, true, false, is_some, [], ◌∷◌, ◌++◌};
ghost use Rattle.conn_script.specs.declared.turn.Run.TheVariants as run;
ghost use Rattle.conn_script.specs.declared.wants.HubAnswer.TheVariants as answers;
ghost use Rattle.hub_core.specs.declared.answers.Polled.TheVariants as told;
ghost use Rattle.conn_script.specs.Running.{run_held, IsTaken, IsTakenOfStart};
ghost use Rattle.conn_script.specs.Creating.{carry_awaits, IsOverNow, IsLeft, IsOther, EnqueueTurns, PollTurns, PauseTurns, StartTurns, StartMoves};
ghost use Rattle.conn_script.specs.Wanted.{FitsKind, tokens_after, Kind, enqueued_tokens, polled_tokens};
ghost use Rattle.conn_script.specs.Moving.{IsReady};
ghost use Rattle.conn_script.specs.Work.{IsOverTurn, QueuesLess, PollsLess, StartsLess, StartAnswersLess};
ghost use Rattle.conn_script.specs.declared.turn.Turn.TheVariants as turn;
ghost use Rattle.conn_script.specs.declared.creating.Creating.TheVariants as creating;
ghost use Rattle.node_client.specs.Held.{of_ticket, told_tokens, carry_tokens};
ghost use Rattle.node_client.specs.Carrying.{awaited, held, is_fresh, kind_of};

use crate::responses::{enqueue_refusal, hub_spent, settled};
use crate::turn::{Run, Turn, respond, respond_last, unanswered};
use crate::wants::{HubAnswer, HubCall};
use grid_types::{Choices, Outcome, ReqNo};
use hub_core::{Enqueued, Polled, Ticket};
use node_client::{Carry, CarryAnswer, CarryWant, starts_are_short};
use std::alloc::Global;

/// A New Session under way, once its choices are known.
#[derive(Drop)]
pub enum Creating {
    Enqueue(Choices),
    Enqueuing,
    Poll(Ticket),
    /// The request of this number is polled.
    Polling(ReqNo),
    /// It waits to be polled again.
    Pausing(Ticket),
    /// A start is under way, and not over.
    Starting(Ticket, Carry),
}

/// The call that is to be made, and the run that waits for its answer.
pub fn take_create(creating: Creating) -> (HubCall, Run)
    requires { is_some (run_held (run.Creating creating)) ≡ true }
    ensures { IsTaken (run.Creating creating) result.0 result.1 }
{
    match creating {
        Creating::Enqueue(choices) => (
            HubCall::Enqueue(choices),
            Run::Creating(Creating::Enqueuing),
        ),
        Creating::Poll(ticket) => {
            let request = ticket.request();
            (
                HubCall::Poll(ticket),
                Run::Creating(Creating::Polling(request)),
            )
        }
        Creating::Starting(ticket, carry) => take_of_start(ticket, carry),
        _ => unreachable!(),
    }
}

fn take_of_start(ticket: Ticket, mut carry: Carry) -> (HubCall, Run)
    requires fresh { is_fresh carry ≡ true }
    requires held { is_some (held carry) ≡ true }
    ensures { IsTakenOfStart ticket carry result.0 result.1 }
{
    match carry.next() {
        CarryWant::Bind => {
            let (reservation, session, caps) = carry.take_bind();
            let call = HubCall::Bind(reservation, session, caps);
            (call, Run::Creating(Creating::Starting(ticket, carry)))
        }
        CarryWant::Fail => {
            let (reservation, why) = carry.take_fail();
            let call = HubCall::Fail(reservation, why);
            (call, Run::Creating(Creating::Starting(ticket, carry)))
        }
        CarryWant::Freed => {
            let call = HubCall::Freed(carry.take_closing());
            (call, Run::Creating(Creating::Starting(ticket, carry)))
        }
        CarryWant::Node { .. } => unreachable!(),
        CarryWant::Done(_) => unreachable!(),
    }
}

/// What the answer to the new request leads to.
pub fn enqueued(alloc: Global, answer: HubAnswer, close: bool) -> Turn
    requires { FitsKind answer Kind.enqueue }
    ensures turns { EnqueueTurns answer result close }
    ensures ready { IsReady result (tokens_after answer []) }
    ensures less { QueuesLess answer result }
{
    match answer {
        HubAnswer::Enqueue(answer) => enqueue_told(alloc, answer, close),
        other => unanswered(alloc, other),
    }
}

fn enqueue_told(alloc: Global, answer: Enqueued, close: bool) -> Turn
    ensures turns { EnqueueTurns (answers.Enqueue answer) result close }
    ensures ready { IsReady result (enqueued_tokens answer) }
    ensures less { QueuesLess (answers.Enqueue answer) result }
{
    match answer {
        Enqueued::Queued(ticket) => Turn::Go(Run::Creating(Creating::Poll(ticket)), false),
        other => respond(enqueue_refusal(alloc, &other, close)),
    }
}

/// What the answer to a poll of this request leads to.
pub fn polled(alloc: Global, request: ReqNo, answer: HubAnswer, close: bool) -> Turn
    requires { FitsKind answer Kind.poll }
    ensures turns { PollTurns request answer result close }
    ensures ready { IsReady result (tokens_after answer []) }
    ensures less { PollsLess answer result }
{
    match answer {
        HubAnswer::Poll(answer) => poll_told(alloc, request, answer, close),
        other => unanswered(alloc, other),
    }
}

fn poll_told(alloc: Global, request: ReqNo, answer: Polled, close: bool) -> Turn
    ensures turns { PollTurns request (answers.Poll answer) result close }
    ensures ready { IsReady result (polled_tokens answer) }
    ensures less { PollsLess (answers.Poll answer) result }
{
    starts_are_short();
    match answer {
        Polled::NotYet(ticket) => Turn::Go(Run::Creating(Creating::Pausing(ticket)), false),
        Polled::Memory(ticket) => Turn::Go(Run::Creating(Creating::Pausing(ticket)), true),
        Polled::Yours(ticket, reservation) => {
            let carry = Carry::new(alloc, reservation);
            Turn::Go(Run::Creating(Creating::Starting(ticket, carry)), false)
        }
        Polled::Settled(outcome) => outcome_told(alloc, request, &outcome, close),
    }
}

/// What the outcome leads to.
fn outcome_told(alloc: Global, request: ReqNo, outcome: &Outcome, close: bool) -> Turn
    ensures turns { PollTurns request (answers.Poll (told.Settled outcome.now)) result close }
    ensures ready { IsReady result [] }
    ensures over { IsOverTurn result }
{
    let response = settled(alloc, request, outcome, close);
    match outcome {
        Outcome::Created {
            session,
            binding,
            ..
        } => match response {
            Ok(bytes) => Turn::Created(bytes, *session, *binding),
            Err(_) => Turn::Undo(*session, *binding),
        },
        _ => respond(response),
    }
}

/// What the end of a pause leads to.
pub fn polls_again(ticket: Ticket) -> Turn
    ensures turns { PauseTurns ticket result }
    ensures ready { IsReady result (of_ticket ticket ∷ []) }
    ensures next { result ≡ turn.Go (run.Creating (creating.Poll ticket)) false }
{
    Turn::Go(Run::Creating(Creating::Poll(ticket)), false)
}

/// What the hub's answer to a call of a start leads to.
pub fn start_answered(alloc: Global, ticket: Ticket, carry: Carry, answer: HubAnswer) -> Turn
    requires { FitsKind answer (carry_awaits carry) }
    ensures turns { StartTurns ticket carry answer result }
    ensures ready { IsReady result (tokens_after answer
        (carry_tokens carry ++ of_ticket ticket ∷ [])) }
    ensures less { StartAnswersLess carry answer result }
{
    match answer {
        HubAnswer::Bind(binding) => start_told(ticket, carry, CarryAnswer::Bound(binding)),
        HubAnswer::Fail(failing) => start_told(ticket, carry, CarryAnswer::Failed(failing)),
        other => freed_or_spent(alloc, ticket, carry, &other),
    }
}

fn freed_or_spent(alloc: Global, ticket: Ticket, carry: Carry, answer: &HubAnswer) -> Turn
    requires fits { FitsKind answer.now (carry_awaits carry) }
    requires other { IsOther answer.now }
    ensures turns { StartTurns ticket carry answer.now result }
    ensures ready { IsReady result (tokens_after answer.now
        (carry_tokens carry ++ of_ticket ticket ∷ [])) }
    ensures less { StartAnswersLess carry answer.now result }
{
    match answer {
        HubAnswer::Freed => start_told(ticket, carry, CarryAnswer::Freed),
        HubAnswer::Spent(_) => respond_last(hub_spent(alloc), carry.short()),
        _ => unreachable!(),
    }
}

/// What an answer to a start leads to.
pub fn start_told(ticket: Ticket, mut carry: Carry, answer: CarryAnswer) -> Turn
    requires { awaited carry ≡ Some (kind_of answer) }
    ensures turns { StartMoves ticket carry answer result }
    ensures ready { IsReady result (told_tokens answer ++ carry_tokens carry ++ of_ticket
        ticket ∷ []) }
    ensures less { StartsLess carry result }
{
    carry.feed(answer);
    if is_over(&carry) {
        let short = carry.short();
        Turn::Go(Run::Creating(Creating::Poll(ticket)), short)
    } else {
        Turn::Go(Run::Creating(Creating::Starting(ticket, carry)), false)
    }
}

fn is_over(carry: &Carry) -> bool
    requires { is_fresh carry.now ≡ true }
    ensures over { IsOverNow carry.now result }
    ensures left { IsLeft result carry.now }
{
    matches!(carry.next(), CarryWant::Done(_))
}
