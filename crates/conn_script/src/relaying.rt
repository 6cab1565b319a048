//! A command below a session, which its node answers.
ghost use Rattle.std.specs.Prelude.{ℕ, List, [], Err};
ghost use Rattle.conn_script.specs.Relaying.{FindTurns, TouchTurns, ExchangeTurns};
ghost use Rattle.conn_script.specs.declared.wants.HubAnswer.TheVariants as answers;
ghost use Rattle.conn_script.specs.Wanted.{FitsKind, tokens_after, Kind};
ghost use Rattle.conn_script.specs.Moving.{IsReady};
ghost use Rattle.conn_script.specs.Work.{IsOverTurn, IsBelow};

use crate::responses::{no_such_session, node_not_http, node_unreachable, passed_on};
use crate::turn::{Run, Turn, respond, unanswered};
use crate::wants::HubAnswer;
use grid_outside::{ExchangeFault, Reply};
use grid_types::{Bytes, Found, NodeAddress, ReqNo, SessionId};
use hub_core::Touching;
use std::alloc::Global;

/// A relay under way, with the target that is passed on.
#[derive(Drop)]
pub enum Relaying {
    Lookup(SessionId, Bytes),
    LookingUp(SessionId, Bytes),
    Touch(SessionId, ReqNo, NodeAddress, Bytes),
    Touching(SessionId, ReqNo, NodeAddress, Bytes),
    Exchange(NodeAddress, Bytes),
}

/// What the answer to the lookup leads to.
pub fn node_found(
    alloc: Global,
    session: SessionId,
    target: Bytes,
    answer: HubAnswer,
    close: bool,
) -> Turn
    requires { FitsKind answer Kind.lookup }
    ensures turns { FindTurns session target answer result close }
    ensures ready { IsReady result (tokens_after answer []) }
    ensures less { IsBelow 3 result }
{
    match answer {
        HubAnswer::Lookup(found) => found_told(alloc, session, target, found, close),
        other => unanswered(alloc, other),
    }
}

/// What the hub's own answer to the lookup leads to.
fn found_told(alloc: Global, session: SessionId, target: Bytes, found: Found, close: bool) -> Turn
    ensures turns { FindTurns session target (answers.Lookup found) result close }
    ensures ready { IsReady result [] }
    ensures less { IsBelow 3 result }
{
    match found {
        Found::At {
            address,
            binding,
            ..
        } => {
            let touch = Relaying::Touch(session, binding, address, target);
            Turn::Go(Run::Relaying(touch), false)
        }
        Found::NoSession => respond(no_such_session(alloc, close)),
    }
}

/// What the answer to the touch leads to.
pub fn touched(
    alloc: Global,
    session: SessionId,
    binding: ReqNo,
    address: NodeAddress,
    target: Bytes,
    answer: HubAnswer,
    close: bool,
) -> Turn
    requires { FitsKind answer Kind.touch }
    ensures turns { TouchTurns session binding address target answer result close }
    ensures ready { IsReady result (tokens_after answer []) }
    ensures less { IsBelow 2 result }
{
    match answer {
        HubAnswer::Touch(touching) => touch_told(alloc, address, target, touching, close),
        other => unanswered(alloc, other),
    }
}

/// What the hub's own answer to the touch leads to.
fn touch_told(
    alloc: Global,
    address: NodeAddress,
    target: Bytes,
    touching: Touching,
    close: bool,
) -> Turn
    ensures turns { (id : List ℕ) (b : ℕ) →
        TouchTurns id b address target (answers.Touch touching) result close }
    ensures ready { IsReady result [] }
    ensures less { IsBelow 2 result }
{
    match touching {
        Touching::Touched => { Turn::Go(Run::Relaying(Relaying::Exchange(address, target)), false) }
        Touching::NoSession => respond(no_such_session(alloc, close)),
    }
}

/// What comes of the exchange leads to.
pub fn exchanged(alloc: Global, came: Result<Reply, ExchangeFault>, close: bool) -> Turn
    ensures turns { ExchangeTurns came result close }
    ensures ready { IsReady result [] }
    ensures over { IsOverTurn result }
{
    match came {
        Ok(Reply::Http(reply)) => respond(passed_on(alloc, &reply, close)),
        Ok(Reply::NotHttp(_)) => respond(node_not_http(alloc, close)),
        Err(fault) => not_exchanged(alloc, fault, close),
    }
}

/// What it leads to where there was no exchange.
fn not_exchanged(alloc: Global, fault: ExchangeFault, close: bool) -> Turn
    ensures turns { ExchangeTurns (Err fault) result close }
    ensures ready { IsReady result [] }
    ensures over { IsOverTurn result }
{
    match fault {
        ExchangeFault::Unreachable => respond(node_unreachable(alloc, close)),
        ExchangeFault::Memory => Turn::Lacks,
    }
}
