//! Requests that one call of the hub answers.
ghost use Rattle.std.specs.Prelude.{◌≡◌, false, IfOk, []};
ghost use Rattle.hub_core.specs.Replies.{beating_reply, draining_reply, removal_reply, viewed_reply};
ghost use Rattle.conn_script.specs.Messages.{node_response};
ghost use Rattle.conn_script.specs.Wanted.{FitsKind, tokens_after, Kind, is_spent, reply_of};
ghost use Rattle.conn_script.specs.Build.{Responds};
ghost use Rattle.conn_script.specs.Moving.{IsReady};
ghost use Rattle.conn_script.specs.Work.{IsOverTurn};
ghost use Rattle.conn_script.specs.Calling.{kind_asked, respond_of, CallTurns};

use crate::responses::{cleared, hub_spent, no_such_node, queue, registered, status, success};
use crate::turn::{Turn, respond, respond_last};
use crate::wants::{HubAnswer, HubCall};
use grid_types::{Bytes, NoMemory, View};
use hub_core::{Beating, Draining, Removal};
use std::alloc::Global;

/// What was asked.
#[derive(Clone, Copy)]
pub enum Asked {
    Register,
    Beat,
    Drain,
    Remove,
    Clear,
    Status,
    Queue,
}

/// A request that is one call of the hub: the call is to be made, or was handed out.
#[derive(Drop)]
pub enum Calling {
    /// The call is to be handed out.
    Ask(HubCall, Asked),
    Asked(Asked),
}

/// The response to what the hub answered; none where it is out of memory.
fn response_to(
    alloc: Global,
    asked: Asked,
    answer: &HubAnswer,
    close: bool,
) -> Result<Bytes, NoMemory>
    requires { FitsKind answer.now (kind_asked asked) }
    ensures { IfOk result (λ bytes. (is_spent answer.now ≡ false) →
        Responds (reply_of answer.now) (respond_of asked) bytes close) }
{
    match answer {
        HubAnswer::Register(answer) => registered(alloc, answer, close),
        HubAnswer::Beat(answer) => beaten(alloc, *answer, close),
        HubAnswer::Drain(answer) => drained(alloc, *answer, close),
        HubAnswer::Remove(answer) => removed(alloc, *answer, close),
        HubAnswer::Clear(count) => cleared(alloc, *count, close),
        HubAnswer::View(view) => viewed(alloc, asked, view, close),
        _ => Err(NoMemory),
    }
}

fn beaten(alloc: Global, answer: Beating, close: bool) -> Result<Bytes, NoMemory>
    ensures { IfOk result (λ bytes. Responds (beating_reply answer) node_response bytes close) }
{
    match answer {
        Beating::Beaten => success(alloc, "null", close),
        Beating::NoNode => no_such_node(alloc, close),
    }
}

fn drained(alloc: Global, answer: Draining, close: bool) -> Result<Bytes, NoMemory>
    ensures { IfOk result (λ bytes. Responds (draining_reply answer) node_response bytes close) }
{
    match answer {
        Draining::Draining => success(alloc, "null", close),
        Draining::NoNode => no_such_node(alloc, close),
    }
}

fn removed(alloc: Global, answer: Removal, close: bool) -> Result<Bytes, NoMemory>
    ensures { IfOk result (λ bytes. Responds (removal_reply answer) node_response bytes close) }
{
    match answer {
        Removal::Removed => success(alloc, "null", close),
        Removal::NoNode => no_such_node(alloc, close),
    }
}

/// The response with what the hub shows.
fn viewed(
    alloc: Global,
    asked: Asked,
    view: &Result<View, NoMemory>,
    close: bool,
) -> Result<Bytes, NoMemory>
    requires { kind_asked asked ≡ Kind.view }
    ensures { IfOk result (λ bytes. Responds (viewed_reply view.now) (respond_of asked) bytes
        close) }
{
    let Ok(view) = view else {
        return Err(NoMemory);
    };
    match asked {
        Asked::Status => status(alloc, view, close),
        _ => queue(alloc, view, close),
    }
}

/// What the hub's answer leads to.
pub fn call_answered(alloc: Global, asked: Asked, answer: HubAnswer, close: bool) -> Turn
    requires { FitsKind answer (kind_asked asked) }
    ensures turns { CallTurns asked answer result close }
    ensures ready { IsReady result (tokens_after answer []) }
    ensures over { IsOverTurn result }
{
    match answer {
        HubAnswer::Spent(_) => respond_last(hub_spent(alloc), false),
        other => respond(response_to(alloc, asked, &other, close)),
    }
}
