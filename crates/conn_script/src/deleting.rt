//! The end of a session, as its client asks for it (WebDriver §8.2).
ghost use Rattle.std.specs.Prelude.{◌≡◌, ℕ, IfOk, [], ◌∷◌};
ghost use Rattle.conn_script.specs.declared.wants.HubAnswer.TheVariants as answers;
ghost use Rattle.conn_script.specs.Deleting.{quitted_of, kept_response, is_lacking, IsFreeSpent, IsKept, LookupTurns, EndTurns, QuitTurns, FreeTurns};
ghost use Rattle.conn_script.specs.Wanted.{FitsKind, tokens_after, Kind, ending_tokens};
ghost use Rattle.conn_script.specs.Moving.{IsReady};
ghost use Rattle.conn_script.specs.Work.{IsOverTurn, IsBelow};
ghost use Rattle.node_client.specs.Held.{of_closing};

use crate::responses::{hub_spent, no_such_session, node_not_http, node_unreachable, success};
use crate::turn::{Run, Turn, respond, respond_last, unanswered};
use crate::wants::HubAnswer;
use grid_outside::{ExchangeFault, Reply};
use grid_types::{Bytes, Found, NoMemory, ReqNo, SessionId};
use hub_core::{Closing, Ending};
use node_client::SessionPath;
use std::alloc::Global;

/// What came of the exchange with the node.
#[derive(Clone, Copy)]
pub enum Quitted {
    /// It replied, with whatever status.
    Http,
    NotHttp,
    Unreachable,
    /// The exchange was not made: out of memory.
    Memory,
}

/// How far a Delete Session (WebDriver §8.2) has come.
#[derive(Drop)]
pub enum Deleting {
    Lookup(SessionId),
    LookingUp(SessionId),
    End(SessionId, ReqNo),
    Ending(SessionId, ReqNo),
    /// The node is to be asked to end the session.
    Quit(Closing, SessionPath),
    /// The slot is to be freed, after this came of the exchange.
    Free(Closing, Quitted),
    Freeing(Quitted),
}

/// What the answer to the lookup leads to.
pub fn looked_up(alloc: Global, session: SessionId, answer: HubAnswer, close: bool) -> Turn
    requires { FitsKind answer Kind.lookup }
    ensures turns { LookupTurns session answer result close }
    ensures ready { IsReady result (tokens_after answer []) }
    ensures less { IsBelow 4 result }
{
    match answer {
        HubAnswer::Lookup(found) => found_told(alloc, session, found, close),
        other => unanswered(alloc, other),
    }
}

/// What the hub's own answer to the lookup leads to.
fn found_told(alloc: Global, session: SessionId, found: Found, close: bool) -> Turn
    ensures turns { LookupTurns session (answers.Lookup found) result close }
    ensures ready { IsReady result [] }
    ensures less { IsBelow 4 result }
{
    match found {
        Found::At { binding, .. } => {
            Turn::Go(Run::Deleting(Deleting::End(session, binding)), false)
        }
        Found::NoSession => respond(no_such_session(alloc, close)),
    }
}

/// What the hub's own answer to the end leads to.
fn end_told(alloc: Global, session: &SessionId, ending: Ending, close: bool) -> Turn
    ensures turns { (b : ℕ) → EndTurns session.now b (answers.End ending) result close }
    ensures ready { IsReady result (ending_tokens ending) }
    ensures less { IsBelow 3 result }
{
    match ending {
        Ending::Ended(closing) => {
            let path = SessionPath::of(session);
            Turn::Go(Run::Deleting(Deleting::Quit(closing, path)), false)
        }
        Ending::NoSession => respond(no_such_session(alloc, close)),
    }
}

/// What the answer to the end leads to.
pub fn ended(
    alloc: Global,
    session: SessionId,
    binding: ReqNo,
    answer: HubAnswer,
    close: bool,
) -> Turn
    requires { FitsKind answer Kind.end }
    ensures turns { EndTurns session binding answer result close }
    ensures ready { IsReady result (tokens_after answer []) }
    ensures less { IsBelow 3 result }
{
    match answer {
        HubAnswer::End(ending) => end_told(alloc, &session, ending, close),
        other => unanswered(alloc, other),
    }
}

/// What came of the exchange.
pub fn what_came(came: &Result<Reply, ExchangeFault>) -> Quitted
    ensures { result ≡ quitted_of came.now }
{
    match came {
        Ok(Reply::Http(_)) => Quitted::Http,
        Ok(Reply::NotHttp(_)) => Quitted::NotHttp,
        Err(ExchangeFault::Unreachable) => Quitted::Unreachable,
        Err(ExchangeFault::Memory) => Quitted::Memory,
    }
}

fn is_lack(quitted: Quitted) -> bool
    ensures { result ≡ is_lacking quitted }
{
    matches!(quitted, Quitted::Memory)
}

/// What comes of the exchange leads to.
pub fn quit(closing: Closing, came: &Result<Reply, ExchangeFault>) -> Turn
    ensures turns { QuitTurns closing came.now result }
    ensures ready { IsReady result (of_closing closing ∷ []) }
    ensures less { IsBelow 2 result }
{
    let quitted = what_came(came);
    Turn::Go(
        Run::Deleting(Deleting::Free(closing, quitted)),
        is_lack(quitted),
    )
}

fn quit_response(alloc: Global, quitted: Quitted, close: bool) -> Result<Bytes, NoMemory>
    ensures { IfOk result (λ bytes. IsKept (kept_response quitted) bytes close) }
{
    match quitted {
        Quitted::Http => success(alloc, "null", close),
        Quitted::NotHttp => node_not_http(alloc, close),
        Quitted::Unreachable => node_unreachable(alloc, close),
        Quitted::Memory => Err(NoMemory),
    }
}

/// What the slot that is freed leads to.
pub fn freed(alloc: Global, quitted: Quitted, answer: HubAnswer, close: bool) -> Turn
    requires { FitsKind answer Kind.freed }
    ensures turns { FreeTurns quitted answer result close }
    ensures ready { IsReady result (tokens_after answer []) }
    ensures over { IsOverTurn result }
{
    match answer {
        HubAnswer::Spent(_) => free_spent(alloc, quitted),
        other => free_told(alloc, quitted, other, close),
    }
}

/// What the hub's own answer leads to there.
fn free_told(alloc: Global, quitted: Quitted, _: HubAnswer, close: bool) -> Turn
    ensures turns { FreeTurns quitted answers.Freed result close }
    ensures ready { IsReady result [] }
    ensures over { IsOverTurn result }
{
    respond(quit_response(alloc, quitted, close))
}

/// What a hub that is spent leads to there. Out of memory came first.
fn free_spent(alloc: Global, quitted: Quitted) -> Turn
    ensures turns { IsFreeSpent quitted result }
    ensures ready { IsReady result [] }
    ensures over { IsOverTurn result }
{
    match quitted {
        Quitted::Memory => Turn::Lacks,
        _ => respond_last(hub_spent(alloc), false),
    }
}
