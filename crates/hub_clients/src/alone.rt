//! What one pass does between the call that gave it a token and the one that uses it.
ghost use Rattle.std.specs.Prelude.{◌≡◌, ◌^◌, max, IfOk, IfErr, IfSome};
ghost use Rattle.hub_cell.specs.Passes.{knows, config_of, first_of, IsOf};
ghost use Rattle.hub_cell.specs.Shared.{HasTicket, HasReservation, KeepsAll};
ghost use Rattle.hub_clients.specs.Turns.{HasTaken, AsksLast};

use grid_types::{Caps, Choices, Moment, NodeNo, SessionId};
use hub_cell::{Pass, SharedHub, Spent};
use hub_core::{Binding, Dispatched, Enqueued, Polled};
use std::sync::Wait;

/// Beats as often as `times`, each in a turn of its own. Whatever other passes do in between, the pass has all its tokens still.
/// Err: no turn is left.
pub fn beats<R: Wait>(
    rt: &R,
    hub: &SharedHub,
    pass: &mut Pass,
    node: NodeNo,
    at: Moment,
    times: u64,
) -> Result<(), Spent>
    requires { IsOf hub.now pass.old }
    ensures own { IsOf hub.now pass.new }
    ensures keeps { KeepsAll (knows pass.old) (knows pass.new) }
    ensures taken { IfOk result (λ _. HasTaken times (knows pass.old) (knows pass.new)) }
    ensures spent { IfErr result (λ s. s.ticket ≡ max (first_of hub.now) (2 ^ 62)) }
{
    for _ in 0..times {
        hub.beat(rt, pass, node, at)?;
    }
    Ok(())
}

/// Queues a request, takes the next assignment, leaves the hub to others for many turns, binds a session to the slot, and asks how its
/// request stands. None where one of these calls gives something else.
pub fn start_far_away<R: Wait>(
    rt: &R,
    hub: &SharedHub,
    pass: &mut Pass,
    choices: Choices,
    session: SessionId,
    caps: Caps,
    node: NodeNo,
    at: Moment,
) -> Option<Polled>
    requires { IsOf hub.now pass.old }
    ensures own { IsOf hub.now pass.new }
    ensures asks { IfSome result (λ told. AsksLast (config_of hub.now) 104 (knows pass.old) at.0 told
        (knows pass.new)) }
{
    let Ok(Enqueued::Queued(ticket)) = hub.enqueue(rt, pass, choices, at) else {
        return None;
    };
    let Ok(Dispatched::Assigned(reservation)) = hub.dispatch(rt, pass, at) else {
        return None;
    };
    let Ok(()) = beats(rt, hub, pass, node, at, 100) else {
        return None;
    };
    let Ok(Binding::Bound(_)) = hub.bind(rt, pass, reservation, session, caps, at) else {
        return None;
    };
    let Ok(told) = hub.poll(rt, pass, ticket, at) else {
        return None;
    };
    Some(told)
}
