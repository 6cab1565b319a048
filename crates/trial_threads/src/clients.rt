//! Threads that share one hub.
ghost use Rattle.std.specs.Prelude.{◌≡◌, true, length, IfSome};
ghost use Rattle.grid_types.specs.Permitted.{is_well_sized};
ghost use Rattle.hub_cell.specs.Passes.{knows, IsOf};
ghost use Rattle.hub_clients.specs.Beats.{EachHas, IsListing};

use grid_types::{Found, HubConfig, Moment, Registration, ReqNo, SessionId};
use hub_cell::{Pass, SharedHub, Spent, SplitFault};
use hub_clients::*;
use hub_core::{Binding, Dispatched, Enqueued, Polled, Registering};
use std::alloc::Global;
use std::sync::Wait;
use std::test::*;
use std::thread::Threads;
use trial_desk::{caps_of, choices_of, registration_of};

/// Each of the eight ended passes has its hundred entries, and the pass that stays has the listing of the node alone.
fn eight_times_a_hundred<R: Threads + Wait + Sync>(
    rt: &R,
    alloc: Global,
    node: Registration,
) -> Option<Pass>
    requires { is_well_sized node ≡ true }
    ensures ended { IfSome result (λ p. (length (knows p).ended ≡ 8)
        × EachHas 100 (knows p).ended) }
    ensures mine { IfSome result (λ p. IsListing 0 node (knows p).mine) }
{
    many_beat(rt, alloc, node, 8, 100)
}

#[test]
fn eight_threads_beat_a_hundred_times_each(rt: HostRuntime) -> Result<(), Fail> {
    let node = registration_of(rt.alloc(), 0, 0, false, 0)
        .ok()
        .ok_or("a node")?;
    let pass = eight_times_a_hundred(&rt, rt.alloc(), node).ok_or("memory")?;
    assert_eq!(rt; pass.number(), 0);
    Ok(())
}

/// Lists a node with one chrome slot, queues a request for chrome, asks how it stands, and binds the session.
fn start<R: Wait>(
    rt: &R,
    alloc: Global,
    hub: &SharedHub,
    pass: &mut Pass,
    session: SessionId,
) -> Option<ReqNo>
    requires { IsOf hub.now pass.old }
    ensures { IsOf hub.now pass.new }
{
    let node = registration_of(alloc, 0, 0, false, 0).ok()?;
    let Ok(Registering::Registered(1)) = hub.register(rt, pass, node, Moment(0)) else {
        return None;
    };
    let choices = choices_of(alloc, 0, 0, 0).ok()?;
    let Ok(Enqueued::Queued(ticket)) = hub.enqueue(rt, pass, choices, Moment(0)) else {
        return None;
    };
    let Ok(Polled::Yours(_, reservation)) = hub.poll(rt, pass, ticket, Moment(0)) else {
        return None;
    };
    let caps = caps_of(alloc, 0).ok()?;
    let Ok(Binding::Bound(number)) = hub.bind(rt, pass, reservation, session, caps, Moment(0))
    else {
        return None;
    };
    Some(number)
}

fn binding_in(found: Found) -> ReqNo {
    match found {
        Found::At { binding, .. } => binding,
        Found::NoSession => 0,
    }
}

/// Another request finds no slot.
fn waits<R: Wait>(rt: &R, alloc: Global, hub: &SharedHub, pass: &mut Pass) -> Option<bool>
    requires { IsOf hub.now pass.old }
{
    let choices = choices_of(alloc, 0, 0, 0).ok()?;
    let Ok(Enqueued::Queued(_)) = hub.enqueue(rt, pass, choices, Moment(0)) else {
        return None;
    };
    match hub.dispatch(rt, pass, Moment(0)) {
        Ok(Dispatched::Nothing) => Some(true),
        _ => Some(false),
    }
}

/// The bindings under which a pass that has joined another finds the session that it had bound: in a turn, and by the
/// published map in a thread that can't wait. And whether the next request waits while the slot is busy.
fn find_joined<R: Threads + Wait>(
    rt: &R,
    alloc: Global,
    hub: &SharedHub,
    mut pass: Pass,
) -> Option<(ReqNo, ReqNo, bool)>
    requires { IsOf hub.now pass }
{
    let Ok(other) = hub.split(rt, &mut pass) else {
        return None;
    };
    let session = SessionId::from_bytes(b"a")?;
    start(rt, alloc, hub, &mut pass, session)?;
    hub.join(&mut pass, other);
    let in_turn = hub.lookup_in_turn(rt, &mut pass, &session).ok()?;
    let (mut pass, published) = find_published(rt, hub, pass, session);
    let waits = waits(rt, alloc, hub, &mut pass)?;
    Some((binding_in(in_turn), binding_in(published?), waits))
}

#[test]
fn a_session_is_found_after_a_join(rt: HostRuntime) -> Result<(), Fail> {
    let config = HubConfig::default();
    let Ok((hub, pass)) = SharedHub::new(&rt, rt.alloc(), config, 0, 4) else {
        return Err(Fail::from("memory"));
    };
    let found = find_joined(&rt, rt.alloc(), &hub, pass);
    hub.close(&rt);
    let (in_turn, published, waits) = found.ok_or("a call that was answered otherwise")?;
    assert_eq!(rt; in_turn, 1);
    assert_eq!(rt; published, 1);
    assert!(rt; waits);
    Ok(())
}

#[test]
fn no_turn_from_2_to_the_62_on(rt: HostRuntime) -> Result<(), Fail> {
    let config = HubConfig::default();
    let Ok((hub, mut pass)) = SharedHub::new(&rt, rt.alloc(), config, 1 << 62, 2) else {
        return Err(Fail::from("memory"));
    };
    let beaten = hub.beat(&rt, &mut pass, 1, Moment(0));
    let split = hub.split(&rt, &mut pass);
    hub.close(&rt);
    let Err(Spent { ticket }) = beaten else {
        return Err(Fail::from("a turn"));
    };
    assert_eq!(rt; ticket, 1 << 62);
    let Err(SplitFault::Spent(Spent { ticket })) = split else {
        return Err(Fail::from("a pass"));
    };
    assert_eq!(rt; ticket, 1 << 62);
    Ok(())
}

#[test]
fn one_pass_has_no_reader_for_another(rt: HostRuntime) -> Result<(), Fail> {
    let config = HubConfig::default();
    let Ok((hub, mut pass)) = SharedHub::new(&rt, rt.alloc(), config, 0, 1) else {
        return Err(Fail::from("memory"));
    };
    let split = hub.split(&rt, &mut pass);
    hub.close(&rt);
    let Err(SplitFault::NoReader { passes }) = split else {
        return Err(Fail::from("a pass"));
    };
    assert_eq!(rt; passes, 1);
    Ok(())
}
