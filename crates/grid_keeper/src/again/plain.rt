//! Rows of calls that give and spend no token, made again.
ghost use Rattle.std.specs.Prelude.{◌≡◌, IfOk, IsSome, OnOk, true};
ghost use Rattle.grid_types.specs.Permitted.{is_well_sized, is_start_failure};
ghost use Rattle.grid_journal.specs.declared.rows.Row.TheVariants as row;
ghost use Rattle.grid_journal.specs.RowSpelled.{RowFits};
ghost use Rattle.hub_core.specs.HubView.{past};
ghost use Rattle.hub_core.specs.Replies.{registering_reply};
ghost use Rattle.grid_keeper.specs.Holds.{HoldsAll};
ghost use Rattle.grid_keeper.specs.Opening.{WentOn};

use crate::left::Left;
use crate::sizes::is_well_sized;
use grid_types::{Moment, NoMemory, NodeNo, Registration, ReqNo, SessionId};
use hub_core::{LocalHub, Registering};
use token_laws::tokens_come_from_replies;

/// A beat, made again.
pub(crate) fn beat(
    hub: &mut LocalHub,
    left: &Left,
    node: NodeNo,
    at: Moment,
) -> Result<bool, NoMemory>
    requires fits { RowFits (row.Beat node at) }
    requires holds { HoldsAll (past hub.old) left.now }
    ensures { IfOk result (λ went. WentOn hub.old.config (past hub.old)
        (row.Beat node at) went hub.new left.now) }
{
    tokens_come_from_replies();
    hub.room()?;
    let before = hub.journal().len();
    let _answer = hub.beat(node, at);
    Ok(hub.journal().len() > before)
}

/// A drain, made again.
pub(crate) fn drain(
    hub: &mut LocalHub,
    left: &Left,
    node: NodeNo,
    at: Moment,
) -> Result<bool, NoMemory>
    requires fits { RowFits (row.Drain node at) }
    requires holds { HoldsAll (past hub.old) left.now }
    ensures { IfOk result (λ went. WentOn hub.old.config (past hub.old)
        (row.Drain node at) went hub.new left.now) }
{
    tokens_come_from_replies();
    hub.room()?;
    let before = hub.journal().len();
    let _answer = hub.drain(node, at);
    Ok(hub.journal().len() > before)
}

/// A removal, made again.
pub(crate) fn remove(
    hub: &mut LocalHub,
    left: &Left,
    node: NodeNo,
    at: Moment,
) -> Result<bool, NoMemory>
    requires fits { RowFits (row.Remove node at) }
    requires holds { HoldsAll (past hub.old) left.now }
    ensures { IfOk result (λ went. WentOn hub.old.config (past hub.old)
        (row.Remove node at) went hub.new left.now) }
{
    tokens_come_from_replies();
    hub.room()?;
    let before = hub.journal().len();
    let _answer = hub.remove(node, at);
    Ok(hub.journal().len() > before)
}

/// A touch, made again.
pub(crate) fn touch(
    hub: &mut LocalHub,
    left: &Left,
    session: SessionId,
    binding: ReqNo,
    at: Moment,
) -> Result<bool, NoMemory>
    requires fits { RowFits (row.Touch session binding at) }
    requires holds { HoldsAll (past hub.old) left.now }
    ensures { IfOk result (λ went. WentOn hub.old.config (past hub.old)
        (row.Touch session binding at) went hub.new left.now) }
{
    tokens_come_from_replies();
    hub.room()?;
    let before = hub.journal().len();
    let _answer = hub.touch(&session, binding, at);
    Ok(hub.journal().len() > before)
}

/// A sweep, made again.
pub(crate) fn sweep(hub: &mut LocalHub, left: &Left, at: Moment) -> Result<bool, NoMemory>
    requires fits { RowFits (row.Sweep at) }
    requires holds { HoldsAll (past hub.old) left.now }
    ensures { IfOk result (λ went. WentOn hub.old.config (past hub.old)
        (row.Sweep at) went hub.new left.now) }
{
    tokens_come_from_replies();
    hub.room()?;
    let before = hub.journal().len();
    let _answer = hub.sweep(at);
    Ok(hub.journal().len() > before)
}

/// A clearing, made again.
pub(crate) fn clear(hub: &mut LocalHub, left: &Left, at: Moment) -> Result<bool, NoMemory>
    requires fits { RowFits (row.Clear at) }
    requires holds { HoldsAll (past hub.old) left.now }
    ensures { IfOk result (λ went. WentOn hub.old.config (past hub.old)
        (row.Clear at) went hub.new left.now) }
{
    tokens_come_from_replies();
    hub.room()?;
    let before = hub.journal().len();
    let _answer = hub.clear(at);
    Ok(hub.journal().len() > before)
}

/// The answer is not that there was no memory.
fn answered(answer: &Registering) -> Result<(), NoMemory>
    ensures { OnOk result (IsSome (registering_reply answer.now)) }
{
    match answer {
        Registering::Memory(_) => Err(NoMemory),
        _ => Ok(()),
    }
}

/// A registration, made again.
pub(crate) fn register(
    hub: &mut LocalHub,
    left: &Left,
    registration: Registration,
    at: Moment,
) -> Result<bool, NoMemory>
    requires fits { RowFits (row.Register registration at) }
    requires holds { HoldsAll (past hub.old) left.now }
    ensures { IfOk result (λ went. WentOn hub.old.config (past hub.old)
        (row.Register registration at) went hub.new left.now) }
{
    tokens_come_from_replies();
    if !is_well_sized(&registration) {
        return Ok(false);
    }
    hub.room()?;
    let before = hub.journal().len();
    let answer = hub.register(registration, at);
    answered(&answer)?;
    Ok(hub.journal().len() > before)
}
