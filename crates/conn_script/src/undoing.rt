//! What is left to do for a client that can't be told what came of its request: a session that was created is ended, and a
//! request that waits for one is withdrawn.
ghost use Rattle.std.specs.Prelude.{◌≡◌, ℕ, [], true, false, is_some};
ghost use Rattle.conn_script.specs.declared.wants.HubAnswer.TheVariants as answers;
ghost use Rattle.hub_core.specs.declared.answers.Withdrawing.TheVariants as withdrawing;
ghost use Rattle.conn_script.specs.declared.undoing.Undoing.TheVariants as undoing;
ghost use Rattle.conn_script.specs.declared.wants.Answer.TheVariants as told;
ghost use Rattle.conn_script.specs.Undo.{undo_held, undo_awaits, undo_goes_on, IsUndoTaken, undo_leaves, UndoEndLeads, WithdrawLeads, WithdrawWaits, IsUndoReady, UndoMoves, UndoAsksFor};
ghost use Rattle.conn_script.specs.Work.{UndoesBelow, WithdrawsLess};
ghost use Rattle.conn_script.specs.Wanted.{FitsKind, Kind, IsAwaited, tokens_after, ending_tokens, withdrawing_tokens};

use crate::wants::{HubAnswer, HubCall, PAUSE, Want};
use grid_outside::{ExchangeFault, Reply};
use grid_types::{Outcome, ReqNo, SessionId};
use hub_core::{Closing, Ending, Ticket, Withdrawing};
use node_client::{SessionPath, quit_request};

/// What is left to do.
#[derive(Drop)]
pub enum Undoing {
    /// The request is to be withdrawn.
    Withdraw(Ticket),
    Withdrawing,
    /// A start for it is under way: it is to be withdrawn after a pause.
    Waiting(Ticket),
    End(SessionId, ReqNo),
    Ending(SessionId, ReqNo),
    /// The node is to be asked to end the session.
    Quit(Closing, SessionPath),
    Free(Closing),
    Freeing,
    Over,
}

/// The call that is to be made, and what waits for its answer.
pub fn take_undo(undoing: Undoing) -> (HubCall, Undoing)
    requires { is_some (undo_held undoing) ≡ true }
    ensures { IsUndoTaken undoing result.0 result.1 }
{
    match undoing {
        Undoing::Withdraw(ticket) => (HubCall::Withdraw(ticket), Undoing::Withdrawing),
        Undoing::End(session, binding) => (
            HubCall::End(session, binding),
            Undoing::Ending(session, binding),
        ),
        Undoing::Free(closing) => (HubCall::Freed(closing), Undoing::Freeing),
        _ => unreachable!(),
    }
}

/// What the answer to the withdrawal leads to.
pub fn withdrawn(answer: HubAnswer) -> Undoing
    requires { FitsKind answer Kind.withdraw }
    ensures leads { WithdrawLeads answer result }
    ensures waits { WithdrawWaits answer result }
    ensures ready { IsUndoReady result (tokens_after answer []) }
    ensures less { WithdrawsLess answer result }
{
    match answer {
        HubAnswer::Withdraw(withdrawing) => withdrawal_told(withdrawing),
        other => let_go(other),
    }
}

fn withdrawal_told(withdrawing: Withdrawing) -> Undoing
    ensures leads { WithdrawLeads (answers.Withdraw withdrawing) result }
    ensures waits { WithdrawWaits (answers.Withdraw withdrawing) result }
    ensures ready { IsUndoReady result (withdrawing_tokens withdrawing) }
    ensures less { WithdrawsLess (answers.Withdraw withdrawing) result }
{
    match withdrawing {
        Withdrawing::Withdrawn => Undoing::Over,
        Withdrawing::Settled(outcome) => outcome_untold(&outcome),
        Withdrawing::NotYet(ticket) => Undoing::Waiting(ticket),
    }
}

/// What an outcome leads to that its client is not told.
fn outcome_untold(outcome: &Outcome) -> Undoing
    ensures leads { WithdrawLeads (answers.Withdraw (withdrawing.Settled outcome.now)) result }
    ensures ready { IsUndoReady result [] }
    ensures stays { undo_leaves result ≡ false }
    ensures less { UndoesBelow 5 result }
{
    match outcome {
        Outcome::Created {
            session,
            binding,
            ..
        } => Undoing::End(*session, *binding),
        _ => Undoing::Over,
    }
}

/// What the answer to the end leads to.
pub fn undo_ended(session: SessionId, binding: ReqNo, answer: HubAnswer) -> Undoing
    requires { FitsKind answer Kind.end }
    ensures leads { UndoEndLeads session binding answer result }
    ensures ready { IsUndoReady result (tokens_after answer []) }
    ensures stays { undo_leaves result ≡ false }
    ensures less { UndoesBelow 3 result }
{
    match answer {
        HubAnswer::End(ending) => undo_told(&session, ending),
        other => let_go(other),
    }
}

fn undo_told(session: &SessionId, ending: Ending) -> Undoing
    ensures leads { (binding : ℕ) → UndoEndLeads session.now binding (answers.End ending) result }
    ensures ready { IsUndoReady result (ending_tokens ending) }
    ensures stays { undo_leaves result ≡ false }
    ensures less { UndoesBelow 3 result }
{
    match ending {
        Ending::Ended(closing) => {
            let path = SessionPath::of(session);
            Undoing::Quit(closing, path)
        }
        Ending::NoSession => Undoing::Over,
    }
}

/// The session is gone, or stays until it is idle; or the hub is spent.
fn let_go(_: HubAnswer) -> Undoing
    ensures { result ≡ undoing.Over }
{
    Undoing::Over
}

impl Undoing {
    /// The call that is to be made, and what waits for its answer.
    pub fn take(self) -> (HubCall, Undoing)
        requires { is_some (undo_held self) ≡ true }
        ensures { IsUndoTaken self result.0 result.1 }
    {
        take_undo(self)
    }

    /// What the hub's answer leads to.
    pub fn answered(self, answer: HubAnswer) -> Undoing
        requires { IsAwaited (told.Hub answer) (undo_awaits self) }
        ensures { UndoMoves self (told.Hub answer) result }
    {
        match self {
            Undoing::Withdrawing => withdrawn(answer),
            Undoing::Ending(session, binding) => undo_ended(session, binding, answer),
            Undoing::Freeing => let_go(answer),
            _ => unreachable!(),
        }
    }

    /// What the end of the exchange leads to, whatever came of it.
    pub fn exchanged(self, came: &Result<Reply, ExchangeFault>) -> Undoing
        requires { IsAwaited (told.Node came.now) (undo_awaits self) }
        ensures { UndoMoves self (told.Node came.now) result }
    {
        match self {
            Undoing::Quit(closing, _) => Undoing::Free(closing),
            _ => unreachable!(),
        }
    }

    /// What the end of a pause leads to.
    pub fn paused(self) -> Undoing
        requires { IsAwaited told.Paused (undo_awaits self) }
        ensures { UndoMoves self told.Paused result }
    {
        match self {
            Undoing::Waiting(ticket) => Undoing::Withdraw(ticket),
            _ => unreachable!(),
        }
    }

    /// What is wanted.
    pub fn wanted(&self) -> Want<'_>
        requires { undo_goes_on self.now ≡ true }
        ensures { UndoAsksFor self.now result }
    {
        match self {
            Undoing::Waiting(_) => Want::Pause(PAUSE),
            Undoing::Quit(closing, path) => {
                Want::Node(closing.address(), quit_request(path.as_bytes()))
            }
            _ => Want::Hub,
        }
    }
}
