//! A driver of one start: it asks what is wanted, does that, and tells what came of it.
ghost use Rattle.std.specs.Prelude.{◌≡◌, ◌<◌, true, IfNone, None};
ghost use Rattle.grid_types.specs.Lists.{or_else};
ghost use Rattle.hub_core.specs.HubView.{past};
ghost use Rattle.hub_core.specs.Replies.{binding_reply};
ghost use Rattle.loop_node.specs.LinkedNodes.{nodes_reached};
ghost use Rattle.node_client.specs.Places.{at_start, IsGoodAt};
ghost use Rattle.node_client.specs.Carrying.{is_fresh, work};
ghost use Rattle.grid_simulate.specs.Carrying.{grid_of, IsUnder, Turned, Carried, bound_with};

use crate::simulation::Kept;
use grid_outside::NodeLink;
use grid_types::{Moment, SessionId};
use hub_core::{Binding, LocalHub, Reservation};
use loop_node::LoopNodes;
use node_client::{Carry, CarryAnswer, CarryEnd, CarryWant};
use std::alloc::Global;

/// Notes the session where the hub has bound it.
fn note(session: SessionId, binding: &Binding, kept: &mut Option<Kept>)
    ensures { kept.new ≡ or_else (bound_with session (binding_reply binding.now)) kept.old }
{
    if let Binding::Bound(number) = binding {
        *kept = Some(Kept {
            session,
            binding: *number,
        });
    }
}

/// Does what the start wants, and notes the session that is bound. Some is its end.
fn turn(
    alloc: Global,
    carry: &mut Carry,
    hub: &mut LocalHub,
    nodes: &mut LoopNodes,
    at: Moment,
    kept: &mut Option<Kept>,
) -> Option<CarryEnd>
    requires fresh { is_fresh carry.old ≡ true }
    requires under { IsUnder carry.old (past hub.old) }
    ensures turned { Turned at.0 carry.old (grid_of hub.old (nodes_reached nodes.old)) kept.old
        result carry.new (grid_of hub.new (nodes_reached nodes.new)) kept.new }
    ensures fresh { is_fresh carry.new ≡ true }
    ensures less { IfNone result (work carry.new < work carry.old) }
{
    match carry.next() {
        CarryWant::Node { address, request } => {
            let came = nodes.exchange(alloc, &address, &request);
            carry.feed(CarryAnswer::Node(came));
            None
        }
        CarryWant::Bind => {
            let (reservation, session, caps) = carry.take_bind();
            let binding = hub.bind(reservation, session, caps, at);
            note(session, &binding, kept);
            carry.feed(CarryAnswer::Bound(binding));
            None
        }
        CarryWant::Fail => {
            let (reservation, why) = carry.take_fail();
            let failing = hub.fail(reservation, why, at);
            carry.feed(CarryAnswer::Failed(failing));
            None
        }
        CarryWant::Freed => {
            let closing = carry.take_closing();
            hub.freed(closing);
            carry.feed(CarryAnswer::Freed);
            None
        }
        CarryWant::Done(end) => Some(end),
    }
}

/// Carries a start to its end: the session that was bound, and whether a step was out of memory.
pub(crate) fn carry_out(
    alloc: Global,
    reservation: Reservation,
    hub: &mut LocalHub,
    nodes: &mut LoopNodes,
    at: Moment,
) -> (Option<Kept>, bool)
    requires { IsGoodAt (past hub.old) 0 reservation at_start }
    ensures { Carried at.0 reservation (grid_of hub.old (nodes_reached nodes.old)) result
        (grid_of hub.new (nodes_reached nodes.new)) }
{
    let mut carry = Carry::new(alloc, reservation);
    let mut kept = None;
    'turns: loop {
        if let Some(_end) = turn(alloc, &mut carry, hub, nodes, at, &mut kept) {
            return (kept, carry.short());
        }
    }
}
