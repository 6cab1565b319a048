//! A driver of one start: it asks what is wanted, does that outside, and tells what came of it.
ghost use Rattle.std.specs.Prelude.{◌≡◌, ◌<◌, true, Some, List, ℕ, is_none, IfSome, IfNone};
ghost use Rattle.hub_core.specs.HubView.{past};
ghost use Rattle.node_client.specs.Places.{at_start, IsGoodAt};
ghost use Rattle.node_client.specs.Carrying.{is_fresh, work};
ghost use Rattle.trial_core.specs.Carried.{world_of, IsUnder, Turned, Carried};

use grid_outside::{Clock, NodeLink};
use hub_core::{LocalHub, Reservation};
use node_client::{Carry, CarryAnswer, CarryEnd, CarryWant};
use std::alloc::Global;

/// Does what the start wants. Some is its end.
fn turn<N: NodeLink, C: Clock>(
    alloc: Global,
    carry: &mut Carry,
    hub: &mut LocalHub,
    nodes: &mut N,
    clock: &mut C,
) -> Option<CarryEnd>
    requires fresh { is_fresh carry.old ≡ true }
    requires under { IsUnder carry.old (past hub.old) }
    ensures turned { Turned N.gives carry.old (world_of hub.old nodes.old (C.view clock.old).moment)
        result carry.new (world_of hub.new nodes.new (C.view clock.new).moment) }
    ensures fresh { is_fresh carry.new ≡ true }
    ensures less { IfNone result (work carry.new < work carry.old) }
{
    match carry.next() {
        CarryWant::Node { address, request } => {
            let came = nodes.exchange(alloc, &address, &request);
            carry.feed(CarryAnswer::Node(came));
            None
        }
        CarryWant::Bind => {
            let (reservation, session, caps) = carry.take_bind();
            let at = clock.now();
            let binding = hub.bind(reservation, session, caps, at);
            carry.feed(CarryAnswer::Bound(binding));
            None
        }
        CarryWant::Fail => {
            let (reservation, why) = carry.take_fail();
            let at = clock.now();
            let failing = hub.fail(reservation, why, at);
            carry.feed(CarryAnswer::Failed(failing));
            None
        }
        CarryWant::Freed => {
            let closing = carry.take_closing();
            let _now = clock.now();
            hub.freed(closing);
            carry.feed(CarryAnswer::Freed);
            None
        }
        CarryWant::Done(end) => Some(end),
    }
}

/// Carries a start to its end on a hub of one thread: how it ended, and whether a step was out of
/// memory.
pub fn carry_out<N: NodeLink, C: Clock>(
    alloc: Global,
    reservation: Reservation,
    hub: &mut LocalHub,
    nodes: &mut N,
    clock: &mut C,
) -> (CarryEnd, bool)
    requires { IsGoodAt (past hub.old) 0 reservation at_start }
    ensures { Carried N.gives reservation (world_of hub.old nodes.old (C.view clock.old).moment)
        result (world_of hub.new nodes.new (C.view clock.new).moment) }
{
    let mut carry = Carry::new(alloc, reservation);
    'turns: loop {
        if let Some(end) = turn(alloc, &mut carry, hub, nodes, clock) {
            return (end, carry.short());
        }
    }
}
