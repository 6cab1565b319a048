//! Rows of calls that may give a token, made again.
ghost use Rattle.std.specs.Prelude.{◌≡◌, IfOk, true};
ghost use Rattle.grid_types.specs.Permitted.{is_well_sized, is_start_failure};
ghost use Rattle.grid_journal.specs.declared.rows.Row.TheVariants as row;
ghost use Rattle.grid_journal.specs.RowSpelled.{RowFits};
ghost use Rattle.hub_core.specs.HubView.{past};
ghost use Rattle.grid_keeper.specs.Holds.{HoldsAll};
ghost use Rattle.grid_keeper.specs.Opening.{WentOn};

use crate::left::Left;
use grid_types::{Choices, Moment, NoMemory, ReqNo, SessionId};
use hub_core::LocalHub;
use token_laws::tokens_come_from_replies;

/// A request, queued again.
pub(crate) fn enqueue(
    hub: &mut LocalHub,
    left: &mut Left,
    choices: Choices,
    at: Moment,
) -> Result<bool, NoMemory>
    requires fits { RowFits (row.Enqueue choices at) }
    requires holds { HoldsAll (past hub.old) left.old }
    ensures { IfOk result (λ went. WentOn hub.old.config (past hub.old)
        (row.Enqueue choices at) went hub.new left.new) }
{
    tokens_come_from_replies();
    hub.room()?;
    let before = hub.journal().len();
    let answer = hub.enqueue(choices, at);
    left.keep_enqueued(answer)?;
    Ok(hub.journal().len() > before)
}

/// An end, made again.
pub(crate) fn end(
    hub: &mut LocalHub,
    left: &mut Left,
    session: SessionId,
    binding: ReqNo,
    at: Moment,
) -> Result<bool, NoMemory>
    requires fits { RowFits (row.End session binding at) }
    requires holds { HoldsAll (past hub.old) left.old }
    ensures { IfOk result (λ went. WentOn hub.old.config (past hub.old)
        (row.End session binding at) went hub.new left.new) }
{
    tokens_come_from_replies();
    hub.room()?;
    let before = hub.journal().len();
    let answer = hub.end(&session, binding, at);
    left.keep_ended(answer)?;
    Ok(hub.journal().len() > before)
}

/// The end of an idle session, made again.
pub(crate) fn expire(hub: &mut LocalHub, left: &mut Left, at: Moment) -> Result<bool, NoMemory>
    requires fits { RowFits (row.Expire at) }
    requires holds { HoldsAll (past hub.old) left.old }
    ensures { IfOk result (λ went. WentOn hub.old.config (past hub.old)
        (row.Expire at) went hub.new left.new) }
{
    tokens_come_from_replies();
    hub.room()?;
    let before = hub.journal().len();
    let answer = hub.expire(at);
    left.keep_expired(answer)?;
    Ok(hub.journal().len() > before)
}

/// An assignment, made again.
pub(crate) fn dispatch(hub: &mut LocalHub, left: &mut Left, at: Moment) -> Result<bool, NoMemory>
    requires fits { RowFits (row.Dispatch at) }
    requires holds { HoldsAll (past hub.old) left.old }
    ensures { IfOk result (λ went. WentOn hub.old.config (past hub.old)
        (row.Dispatch at) went hub.new left.new) }
{
    tokens_come_from_replies();
    let before = hub.journal().len();
    let answer = hub.dispatch(at);
    left.keep_dispatched(answer)?;
    Ok(hub.journal().len() > before)
}
