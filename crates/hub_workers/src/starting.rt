//! A start, carried to its end on the shared hub.
ghost use Rattle.std.specs.Prelude.{◌≡◌, ◌<◌, ◌+◌, ℕ, true, IfErr, IfNone, IfSome};
ghost use Rattle.hub_cell.specs.Passes.{IsOf, knows};
ghost use Rattle.node_client.specs.Places.{at_start};
ghost use Rattle.node_client.specs.Carrying.{is_fresh, work};
ghost use Rattle.hub_workers.specs.Carried.{Carried, HasAt, IsUnder, Turned};
ghost use Rattle.hub_workers.specs.Turns.{IsLastTicket};
ghost use Rattle.hub_workers.specs.World.{world_of};

use grid_outside::{Clock, NodeLink};
use grid_types::Spent;
use hub_cell::{Pass, SharedHub};
use hub_core::Reservation;
use node_client::{Carry, CarryAnswer, CarryEnd, CarryWant};
use std::alloc::Global;
use std::sync::Wait;

/// Does what the start wants. Some is its end, or that the hub is spent.
fn turn<R: Wait, N: NodeLink, C: Clock>(
    rt: &R,
    alloc: Global,
    hub: &SharedHub,
    pass: &mut Pass,
    carry: &mut Carry,
    nodes: &mut N,
    clock: &mut C,
) -> Option<Result<CarryEnd, Spent>>
    requires own { IsOf hub.now pass.old }
    requires fresh { is_fresh carry.old ≡ true }
    requires under { IsUnder carry.old (knows pass.old) }
    ensures own { IsOf hub.now pass.new }
    ensures turned { Turned hub.now N.gives C.gives
        carry.old (world_of (knows pass.old) nodes.old clock.old (C.view clock.old))
        result carry.new (world_of (knows pass.new) nodes.new clock.new (C.view clock.new)) }
    ensures told { IfSome result (λ end. IfErr end (IsLastTicket hub.now)) }
    ensures fresh { IfNone result (is_fresh carry.new ≡ true) }
    ensures less { IfNone result (work carry.new < work carry.old) }
{
    match carry.next() {
        CarryWant::Node { address, request } => {
            let came = nodes.exchange(alloc, &address, &request);
            carry.feed(CarryAnswer::Node(came));
            None
        }
        CarryWant::Bind => {
            let (reservation, session, caps) = carry.take_bind();
            let at = clock.now();
            match hub.bind(rt, pass, reservation, session, caps, at) {
                Ok(binding) => {
                    carry.feed(CarryAnswer::Bound(binding));
                    None
                }
                Err(stopped) => Some(Err(stopped.spent)),
            }
        }
        CarryWant::Fail => {
            let (reservation, why) = carry.take_fail();
            let at = clock.now();
            match hub.fail(rt, pass, reservation, why, at) {
                Ok(failing) => {
                    carry.feed(CarryAnswer::Failed(failing));
                    None
                }
                Err(stopped) => Some(Err(stopped.spent)),
            }
        }
        CarryWant::Freed => {
            let closing = carry.take_closing();
            let _now = clock.now();
            match hub.freed(rt, pass, closing) {
                Ok(()) => {
                    carry.feed(CarryAnswer::Freed);
                    None
                }
                Err(stopped) => Some(Err(stopped.spent)),
            }
        }
        CarryWant::Done(end) => Some(Ok(end)),
    }
}

/// Carries a start to its end, or until the hub is spent.
pub fn carry_out<R: Wait, N: NodeLink, C: Clock>(
    rt: &R,
    alloc: Global,
    hub: &SharedHub,
    pass: &mut Pass,
    reservation: Reservation,
    nodes: &mut N,
    clock: &mut C,
) -> Result<CarryEnd, Spent>
    requires own { IsOf hub.now pass.old }
    requires has { HasAt (knows pass.old) reservation at_start }
    ensures own { IsOf hub.now pass.new }
    ensures told { IfErr result (IsLastTicket hub.now) }
    ensures carried { Carried hub.now N.gives C.gives reservation
        (world_of (knows pass.old) nodes.old clock.old (C.view clock.old)) result
        (world_of (knows pass.new) nodes.new clock.new (C.view clock.new)) }
{
    let mut carry = Carry::new(alloc, reservation);
    'turns: loop {
        if let Some(end) = turn(rt, alloc, hub, pass, &mut carry, nodes, clock) {
            return end;
        }
    }
}
