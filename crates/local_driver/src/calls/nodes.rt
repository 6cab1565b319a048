//! Calls of nodes.
ghost use Rattle.std.specs.Prelude.{◌≡◌, true, None, Some};
ghost use Rattle.grid_types.specs.Calls.{Call};
ghost use Rattle.hub_core.specs.HubView.{past};
ghost use Rattle.hub_core.specs.Serves.{MayCall};
ghost use Rattle.local_driver.specs.Calls.{MadeOrStops};

use conn_script::HubAnswer;
use grid_types::{Moment, NodeNo, Registration, Text};
use hub_core::Registering;
use own_hub::OwnHub;

pub(crate) fn register<H: OwnHub>(
    hub: &mut H,
    node: Registration,
    at: Moment,
) -> Result<HubAnswer, H::Fault>
    requires open { H.own.IsOpen hub.old }
    requires may { MayCall (past (H.own.shown hub.old)) 0 (Call.register node) }
    ensures { MadeOrStops H.own hub.old (Call.register node) at.0 result hub.new }
{
    if hub.has_room() {
        return Ok(HubAnswer::Register(hub.register(node, at)?));
    }
    Ok(HubAnswer::Register(Registering::Memory(node)))
}

pub(crate) fn beat<H: OwnHub>(hub: &mut H, node: NodeNo, at: Moment) -> Result<HubAnswer, H::Fault>
    requires open { H.own.IsOpen hub.old }
    ensures { MadeOrStops H.own hub.old (Call.beat node None) at.0 result hub.new }
{
    if hub.has_room() {
        return Ok(HubAnswer::Beat(hub.beat(node, at)?));
    }
    Ok(HubAnswer::NoRoom)
}

pub(crate) fn beat_as<H: OwnHub>(
    hub: &mut H,
    node: NodeNo,
    name: &Text,
    at: Moment,
) -> Result<HubAnswer, H::Fault>
    requires open { H.own.IsOpen hub.old }
    ensures { MadeOrStops H.own hub.old (Call.beat node (Some name.now)) at.0 result hub.new }
{
    if hub.has_room() {
        return Ok(HubAnswer::Beat(hub.beat_as(node, name, at)?));
    }
    Ok(HubAnswer::NoRoom)
}

pub(crate) fn drain<H: OwnHub>(hub: &mut H, node: NodeNo, at: Moment) -> Result<HubAnswer, H::Fault>
    requires open { H.own.IsOpen hub.old }
    ensures { MadeOrStops H.own hub.old (Call.drain node) at.0 result hub.new }
{
    if hub.has_room() {
        return Ok(HubAnswer::Drain(hub.drain(node, at)?));
    }
    Ok(HubAnswer::NoRoom)
}

pub(crate) fn remove<H: OwnHub>(
    hub: &mut H,
    node: NodeNo,
    at: Moment,
) -> Result<HubAnswer, H::Fault>
    requires open { H.own.IsOpen hub.old }
    ensures { MadeOrStops H.own hub.old (Call.remove node) at.0 result hub.new }
{
    if hub.has_room() {
        return Ok(HubAnswer::Remove(hub.remove(node, at)?));
    }
    Ok(HubAnswer::NoRoom)
}
