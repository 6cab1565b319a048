//! Calls of sessions that run, and the view.
ghost use Rattle.std.specs.Prelude.{◌≡◌, ℕ};
ghost use Rattle.grid_types.specs.Calls.{Call};
ghost use Rattle.hub_core.specs.HubView.{past};
ghost use Rattle.hub_core.specs.Serves.{MayCall};
ghost use Rattle.local_driver.specs.Calls.{Made, MadeOrStops};

use conn_script::HubAnswer;
use grid_types::{Moment, ReqNo, SessionId};
use hub_core::Closing;
use own_hub::OwnHub;

pub(crate) fn lookup<H: OwnHub>(hub: &H, session: SessionId) -> HubAnswer
    requires { H.own.IsOpen hub.now }
    ensures { (at : ℕ) → Made (H.own.shown hub.now) (Call.lookup session) at result
        (H.own.shown hub.now) }
{
    HubAnswer::Lookup(hub.lookup(&session))
}

pub(crate) fn touch<H: OwnHub>(
    hub: &mut H,
    session: SessionId,
    binding: ReqNo,
    at: Moment,
) -> Result<HubAnswer, H::Fault>
    requires open { H.own.IsOpen hub.old }
    ensures { MadeOrStops H.own hub.old (Call.touch session binding) at.0 result hub.new }
{
    if hub.has_room() {
        return Ok(HubAnswer::Touch(hub.touch(&session, binding, at)?));
    }
    Ok(HubAnswer::NoRoom)
}

pub(crate) fn end<H: OwnHub>(
    hub: &mut H,
    session: SessionId,
    binding: ReqNo,
    at: Moment,
) -> Result<HubAnswer, H::Fault>
    requires open { H.own.IsOpen hub.old }
    ensures { MadeOrStops H.own hub.old (Call.end session binding) at.0 result hub.new }
{
    if hub.has_room() {
        return Ok(HubAnswer::End(hub.end(&session, binding, at)?));
    }
    Ok(HubAnswer::NoRoom)
}

pub(crate) fn freed<H: OwnHub>(hub: &mut H, closing: Closing) -> Result<HubAnswer, H::Fault>
    requires open { H.own.IsOpen hub.old }
    requires may { MayCall (past (H.own.shown hub.old)) 0 (Call.freed closing) }
    ensures { (at : ℕ) → MadeOrStops H.own hub.old (Call.freed closing) at result hub.new }
{
    hub.freed(closing)?;
    Ok(HubAnswer::Freed)
}

pub(crate) fn view<H: OwnHub>(hub: &H) -> HubAnswer
    requires { H.own.IsOpen hub.now }
    ensures { (at : ℕ) → Made (H.own.shown hub.now) Call.view at result (H.own.shown hub.now) }
{
    HubAnswer::View(hub.view())
}
