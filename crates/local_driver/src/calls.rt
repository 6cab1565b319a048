//! The calls of the hub that a connection hands out, each by one call of a driver's hub.
ghost use Rattle.std.specs.Prelude.{◌≡◌, true};
ghost use Rattle.conn_script.specs.Wanted.{call_of};
ghost use Rattle.hub_core.specs.HubView.{past};
ghost use Rattle.local_driver.specs.Calls.{MadeOrStops, MayMake};

mod nodes;
mod requests;
mod sessions;

use conn_script::{HubAnswer, HubCall};
use grid_types::Moment;
use nodes::{beat, beat_as, drain, register, remove};
use own_hub::OwnHub;
use requests::{bind, clear, enqueue, fail, poll};
use sessions::{end, freed, lookup, touch, view};

/// Makes the call at the moment. Where there is no room for its entries, it isn't made, and the answer says so.
pub fn make<H: OwnHub>(hub: &mut H, call: HubCall, at: Moment) -> Result<HubAnswer, H::Fault>
    requires open { H.own.IsOpen hub.old }
    requires may { MayMake (past (H.own.shown hub.old)) (call_of call) }
    ensures { MadeOrStops H.own hub.old (call_of call) at.0 result hub.new }
{
    match call {
        HubCall::Register(node) => register(hub, node, at),
        HubCall::Beat(node) => beat(hub, node, at),
        HubCall::BeatAs(node, name) => beat_as(hub, node, &name, at),
        HubCall::Drain(node) => drain(hub, node, at),
        HubCall::Remove(node) => remove(hub, node, at),
        HubCall::Enqueue(choices) => enqueue(hub, choices, at),
        HubCall::Poll(ticket) => poll(hub, ticket, at),
        HubCall::Withdraw(_) => unreachable!(),
        HubCall::Bind(reservation, session, caps) => bind(hub, reservation, session, caps, at),
        HubCall::Fail(reservation, why) => fail(hub, reservation, why, at),
        HubCall::Lookup(session) => Ok(lookup(hub, session)),
        HubCall::Touch(session, binding) => touch(hub, session, binding, at),
        HubCall::End(session, binding) => end(hub, session, binding, at),
        HubCall::Freed(closing) => freed(hub, closing),
        HubCall::Clear => clear(hub, at),
        HubCall::View => Ok(view(hub)),
    }
}
