//! Rows of calls that spend a token, made again.
ghost use Rattle.std.specs.Prelude.{◌≡◌, IfOk, true};
ghost use Rattle.grid_types.specs.Permitted.{is_well_sized, is_start_failure};
ghost use Rattle.grid_journal.specs.declared.rows.Row.TheVariants as row;
ghost use Rattle.grid_journal.specs.RowSpelled.{RowFits};
ghost use Rattle.hub_core.specs.HubView.{past};
ghost use Rattle.grid_keeper.specs.Holds.{HoldsAll};
ghost use Rattle.grid_keeper.specs.Opening.{WentOn};

use crate::left::Left;
use grid_types::{Caps, FailWhy, Moment, NoMemory, ReqNo, SessionId, SlotId, history_laws};
use hub_core::{Closing, LocalHub};
use token_laws::tokens_come_from_replies;

/// A poll, made again.
pub(crate) fn poll(
    hub: &mut LocalHub,
    left: &mut Left,
    request: ReqNo,
    at: Moment,
) -> Result<bool, NoMemory>
    requires fits { RowFits (row.Poll request at) }
    requires holds { HoldsAll (past hub.old) left.old }
    ensures { IfOk result (λ went. WentOn hub.old.config (past hub.old)
        (row.Poll request at) went hub.new left.new) }
{
    tokens_come_from_replies();
    let Some(ticket) = left.take_ticket(request) else {
        return Ok(false);
    };
    let before = hub.journal().len();
    let answer = hub.poll(ticket, at);
    left.keep_polled(answer)?;
    Ok(hub.journal().len() > before)
}

/// A bind, made again.
pub(crate) fn bind(
    hub: &mut LocalHub,
    left: &mut Left,
    request: ReqNo,
    session: SessionId,
    caps: Caps,
    at: Moment,
) -> Result<bool, NoMemory>
    requires fits { RowFits (row.Bind request session caps at) }
    requires holds { HoldsAll (past hub.old) left.old }
    ensures { IfOk result (λ went. WentOn hub.old.config (past hub.old)
        (row.Bind request session caps at) went hub.new left.new) }
{
    history_laws();
    tokens_come_from_replies();
    let Some(reservation) = left.take_reservation(request) else {
        return Ok(false);
    };
    let before = hub.journal().len();
    let answer = hub.bind(reservation, session, caps, at);
    left.keep_bound(answer)?;
    Ok(hub.journal().len() > before)
}

/// A failed start, made again.
pub(crate) fn fail(
    hub: &mut LocalHub,
    left: &mut Left,
    request: ReqNo,
    why: FailWhy,
    at: Moment,
) -> Result<bool, NoMemory>
    requires fits { RowFits (row.Fail request why at) }
    requires holds { HoldsAll (past hub.old) left.old }
    requires cause { is_start_failure why ≡ true }
    ensures { IfOk result (λ went. WentOn hub.old.config (past hub.old)
        (row.Fail request why at) went hub.new left.new) }
{
    history_laws();
    tokens_come_from_replies();
    let Some(reservation) = left.take_reservation(request) else {
        return Ok(false);
    };
    let before = hub.journal().len();
    let _answer = hub.fail(reservation, why, at);
    Ok(hub.journal().len() > before)
}

/// A slot, freed again.
pub(crate) fn freed(hub: &mut LocalHub, left: &mut Left, slot: SlotId) -> Result<bool, NoMemory>
    requires fits { RowFits (row.Freed slot) }
    requires holds { HoldsAll (past hub.old) left.old }
    ensures { IfOk result (λ went. WentOn hub.old.config (past hub.old)
        (row.Freed slot) went hub.new left.new) }
{
    tokens_come_from_replies();
    let Some(closing) = left.take_closing(slot) else {
        return Ok(false);
    };
    let _index = index_of(&closing);
    let before = hub.journal().len();
    hub.freed(closing);
    Ok(hub.journal().len() > before)
}

/// The number of the closing's slot at its node.
fn index_of(closing: &Closing) -> u16
    ensures { result ≡ closing.now.slot.index }
{
    closing.slot().index
}
