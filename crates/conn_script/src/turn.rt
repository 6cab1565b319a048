//! What an answer leads to in the script of a request.
ghost use Rattle.std.specs.Prelude.{◌≡◌, true, is_some, []};
ghost use Rattle.conn_script.specs.Moving.{IsReady};
ghost use Rattle.conn_script.specs.Running.{call_held, run_held, IsTaken};
ghost use Rattle.conn_script.specs.declared.turn.Run.TheVariants as run;
ghost use Rattle.conn_script.specs.Work.{IsOverTurn};
ghost use Rattle.conn_script.specs.Turns.{responded, responded_last, IsUnanswered};

use crate::calling::Calling;
use crate::creating::{Creating, take_create};
use crate::deleting::Deleting;
use crate::relaying::Relaying;
use crate::responses::hub_spent;
use crate::wants::{HubAnswer, HubCall};
use grid_types::{Bytes, NoMemory, ReqNo, SessionId};
use std::alloc::Global;

/// A script under way.
#[derive(Drop)]
pub enum Run {
    Calling(Calling),
    Deleting(Deleting),
    Relaying(Relaying),
    Creating(Creating),
}

/// What comes next in a script. It is told whether the steps that are settled by it were out of memory.
#[derive(Drop)]
pub enum Turn {
    Go(Run, bool),
    /// The script is over, and this is its response.
    Respond(Bytes),
    /// The script is over, and this is the response of a session that was created, under this binding.
    Created(Bytes, SessionId, ReqNo),
    /// There was no memory for that response: the session is to be ended.
    Undo(SessionId, ReqNo),
    /// The hub is spent: the connection ends after this response.
    RespondLast(Bytes, bool),
    /// Memory was wanted, and no token is left.
    Lacks,
}

/// The response, where memory for it was found.
pub fn respond(response: Result<Bytes, NoMemory>) -> Turn
    ensures turn { result ≡ responded response }
    ensures ready { IsReady result [] }
    ensures over { IsOverTurn result }
{
    match response {
        Ok(bytes) => Turn::Respond(bytes),
        Err(_) => Turn::Lacks,
    }
}

/// The last response, where memory for it was found.
pub fn respond_last(response: Result<Bytes, NoMemory>, short: bool) -> Turn
    ensures turn { result ≡ responded_last response short }
    ensures ready { IsReady result [] }
    ensures over { IsOverTurn result }
{
    match response {
        Ok(bytes) => Turn::RespondLast(bytes, short),
        Err(_) => Turn::Lacks,
    }
}

/// What comes of an answer that is none of the call's own: the hub is spent, or there was no memory to make the call.
pub fn unanswered(alloc: Global, answer: HubAnswer) -> Turn
    ensures turn { IsUnanswered answer result }
    ensures ready { IsReady result [] }
    ensures over { IsOverTurn result }
{
    match answer {
        HubAnswer::Spent(_) => respond_last(hub_spent(alloc), false),
        _ => Turn::Lacks,
    }
}

impl Run {
    /// The call that is to be made, and the run that waits for its answer.
    pub fn take(self) -> (HubCall, Run)
        requires { is_some (run_held self) ≡ true }
        ensures { IsTaken self result.0 result.1 }
    {
        match self {
            Run::Calling(calling) => take_call(calling),
            Run::Deleting(deleting) => take_delete(deleting),
            Run::Relaying(relaying) => take_relay(relaying),
            Run::Creating(creating) => take_create(creating),
        }
    }
}

fn take_call(calling: Calling) -> (HubCall, Run)
    requires { is_some (call_held calling) ≡ true }
    ensures { IsTaken (run.Calling calling) result.0 result.1 }
{
    match calling {
        Calling::Ask(call, asked) => (call, Run::Calling(Calling::Asked(asked))),
        Calling::Asked(_) => unreachable!(),
    }
}

fn take_delete(deleting: Deleting) -> (HubCall, Run)
    requires { is_some (run_held (run.Deleting deleting)) ≡ true }
    ensures { IsTaken (run.Deleting deleting) result.0 result.1 }
{
    match deleting {
        Deleting::Lookup(session) => (
            HubCall::Lookup(session),
            Run::Deleting(Deleting::LookingUp(session)),
        ),
        Deleting::End(session, binding) => (
            HubCall::End(session, binding),
            Run::Deleting(Deleting::Ending(session, binding)),
        ),
        Deleting::Free(closing, quitted) => (
            HubCall::Freed(closing),
            Run::Deleting(Deleting::Freeing(quitted)),
        ),
        _ => unreachable!(),
    }
}

fn take_relay(relaying: Relaying) -> (HubCall, Run)
    requires { is_some (run_held (run.Relaying relaying)) ≡ true }
    ensures { IsTaken (run.Relaying relaying) result.0 result.1 }
{
    match relaying {
        Relaying::Lookup(session, target) => (
            HubCall::Lookup(session),
            Run::Relaying(Relaying::LookingUp(session, target)),
        ),
        Relaying::Touch(session, binding, address, target) => (
            HubCall::Touch(session, binding),
            Run::Relaying(Relaying::Touching(session, binding, address, target)),
        ),
        _ => unreachable!(),
    }
}
