//! Calls of requests and of starts.
ghost use Rattle.std.specs.Prelude.{◌≡◌, true};
ghost use Rattle.grid_types.specs.Calls.{Call};
ghost use Rattle.hub_core.specs.HubView.{past};
ghost use Rattle.hub_core.specs.Serves.{MayCall};
ghost use Rattle.local_driver.specs.Calls.{MadeOrStops};

use conn_script::HubAnswer;
use grid_types::{Caps, Choices, FailWhy, Moment, SessionId};
use hub_core::{Enqueued, Reservation, Ticket};
use own_hub::OwnHub;

pub(crate) fn enqueue<H: OwnHub>(
    hub: &mut H,
    choices: Choices,
    at: Moment,
) -> Result<HubAnswer, H::Fault>
    requires open { H.own.IsOpen hub.old }
    ensures { MadeOrStops H.own hub.old (Call.enqueue choices) at.0 result hub.new }
{
    if hub.has_room() {
        return Ok(HubAnswer::Enqueue(hub.enqueue(choices, at)?));
    }
    Ok(HubAnswer::Enqueue(Enqueued::Memory))
}

pub(crate) fn poll<H: OwnHub>(
    hub: &mut H,
    ticket: Ticket,
    at: Moment,
) -> Result<HubAnswer, H::Fault>
    requires open { H.own.IsOpen hub.old }
    requires may { MayCall (past (H.own.shown hub.old)) 0 (Call.poll ticket) }
    ensures { MadeOrStops H.own hub.old (Call.poll ticket) at.0 result hub.new }
{
    Ok(HubAnswer::Poll(hub.poll(ticket, at)?))
}

pub(crate) fn bind<H: OwnHub>(
    hub: &mut H,
    reservation: Reservation,
    session: SessionId,
    caps: Caps,
    at: Moment,
) -> Result<HubAnswer, H::Fault>
    requires open { H.own.IsOpen hub.old }
    requires may { MayCall (past (H.own.shown hub.old)) 0 (Call.bind reservation session caps) }
    ensures { MadeOrStops H.own hub.old (Call.bind reservation session caps) at.0 result hub.new }
{
    Ok(HubAnswer::Bind(hub.bind(reservation, session, caps, at)?))
}

pub(crate) fn fail<H: OwnHub>(
    hub: &mut H,
    reservation: Reservation,
    why: FailWhy,
    at: Moment,
) -> Result<HubAnswer, H::Fault>
    requires open { H.own.IsOpen hub.old }
    requires may { MayCall (past (H.own.shown hub.old)) 0 (Call.fail reservation why) }
    ensures { MadeOrStops H.own hub.old (Call.fail reservation why) at.0 result hub.new }
{
    Ok(HubAnswer::Fail(hub.fail(reservation, why, at)?))
}

pub(crate) fn clear<H: OwnHub>(hub: &mut H, at: Moment) -> Result<HubAnswer, H::Fault>
    requires open { H.own.IsOpen hub.old }
    ensures { MadeOrStops H.own hub.old Call.clear at.0 result hub.new }
{
    if hub.has_room() {
        return Ok(HubAnswer::Clear(hub.clear(at)?));
    }
    Ok(HubAnswer::NoRoom)
}
