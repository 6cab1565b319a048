//! Calls of the core with ample memory, as a run with failing allocations repeats them: `Fault::Memory` is out of memory, and
//! what else is not as it should be ends the test.
ghost use Rattle.std.specs.Prelude.{◌≡◌, ◌<◌, true, IfOk};
ghost use Rattle.grid_types.specs.Permitted.{is_well_sized};

use grid_types::{
    Caps, Choices, FailWhy, Groups, HubConfig, Moment, NodeAddress, Outcome, Registration,
    SessionId, SlotGroup, Text,
};
use hub_core::{
    Binding, Dispatched, Enqueued, Failing, HubCore, Polled, Registering, Reservation, Ticket,
};
use slot_match::Steps;
use std::alloc::Global;
use std::marker::Brand;
use std::process::Abort;
use std::sync::ledger::{Blank, Ledger};
use trial_desk::Fault;

/// A node of one slot that takes every request.
fn registration(alloc: Global) -> Result<Registration, Fault>
    ensures { IfOk result (λ r. is_well_sized r ≡ true) }
{
    let address = NodeAddress::from_bytes(b"127.0.0.1:1").ok_or(Fault::NotTaken)?;
    let name = Text::of(alloc, "n")?;
    let mut groups = Groups::new(alloc);
    let group = SlotGroup {
        stereotype: Caps::new(alloc),
        count: 1,
    };
    match groups.push(group) {
        Ok(()) => {}
        Err(back) => {
            drop(back);
            drop(groups);
            return Err(Fault::Memory);
        }
    }
    Ok(Registration::new(name, address, 1, groups))
}

/// A core without nodes.
fn new_core(rt: &impl Abort, alloc: Global) -> Result<HubCore, Fault> {
    let config = HubConfig::default();
    assert!(rt; config.is_valid());
    Ok(HubCore::new(alloc, config)?)
}

/// Lists that node.
fn with_a_node(rt: &impl Abort, alloc: Global, core: &mut HubCore) -> Result<(), Fault> {
    let node = registration(alloc)?;
    let registered = core.register(1, node, Moment(5));
    let so = matches!(registered, Registering::Registered(1));
    // Let go by a call: the check of a value that ends by itself writes out all its fields.
    drop(registered);
    assert!(rt; so);
    Ok(())
}

fn queued<L: Ledger>(
    core: &mut HubCore,
    alloc: Global,
    at: Moment,
    steps: &mut Steps<L>,
) -> Result<Ticket, Fault> {
    let Ok(choices) = Choices::one(alloc, Caps::new(alloc)) else {
        return Err(Fault::Memory);
    };
    match core.enqueue(1, choices, at, steps) {
        Enqueued::Queued(ticket) => Ok(ticket),
        other => {
            drop(other);
            Err(Fault::NoToken)
        }
    }
}

fn yours<L: Ledger>(
    core: &mut HubCore,
    ticket: Ticket,
    at: Moment,
    steps: &mut Steps<L>,
) -> Result<(Ticket, Reservation), Fault> {
    match core.poll(1, ticket, at, steps) {
        Polled::Yours(ticket, reservation) => Ok((ticket, reservation)),
        other => {
            drop(other);
            Err(Fault::NoToken)
        }
    }
}

fn assigned<L: Ledger>(
    core: &mut HubCore,
    at: Moment,
    steps: &mut Steps<L>,
) -> Result<Reservation, Fault> {
    match core.dispatch(1, at, steps) {
        Dispatched::Assigned(reservation) => Ok(reservation),
        other => {
            drop(other);
            Err(Fault::NoToken)
        }
    }
}

/// The session is bound to the slot.
fn bound<L: Ledger>(
    rt: &impl Abort,
    core: &mut HubCore,
    alloc: Global,
    session: SessionId,
    reservation: Reservation,
    steps: &mut Steps<L>,
) {
    let caps = Caps::new(alloc);
    let bound = core.bind(1, reservation, session, caps, Moment(30), steps);
    let so = matches!(bound, Binding::Bound(1));
    drop(bound);
    assert!(rt; so);
}

/// The request is told of it.
fn told<L: Ledger>(rt: &impl Abort, core: &mut HubCore, ticket: Ticket, steps: &mut Steps<L>) {
    let outcome = core.poll(1, ticket, Moment(40), steps);
    let so = matches!(
        outcome,
        Polled::Settled(Outcome::Created { binding: 1, .. })
    );
    drop(outcome);
    assert!(rt; so);
}

fn late<L: Ledger>(rt: &impl Abort, core: &mut HubCore, ticket: Ticket, steps: &mut Steps<L>) {
    let at = Moment(10 + HubConfig::default().timeout_ms);
    let late = core.poll(1, ticket, at, steps);
    let so = matches!(late, Polled::Settled(Outcome::TimedOut { .. }));
    drop(late);
    assert!(rt; so);
}

// Borrows the core, so that no early return drops one.
fn first_is_bound<L: Ledger>(
    rt: &impl Abort,
    alloc: Global,
    core: &mut HubCore,
    session: SessionId,
    ticket: Ticket,
    steps: &mut Steps<L>,
) -> Result<(), Fault> {
    let (ticket, reservation) = yours(core, ticket, Moment(20), steps)?;
    let other = core.dispatch(2, Moment(21), steps);
    let so = matches!(other, Dispatched::Nothing);
    drop(other);
    assert!(rt; so);
    bound(rt, core, alloc, session, reservation, steps);
    told(rt, core, ticket, steps);
    Ok(())
}

fn creates<L: Ledger, A: Abort>(
    rt: &A,
    alloc: Global,
    core: &mut HubCore,
    blank: Blank,
) -> Result<(), Fault>
    requires name { blank.name ≡ L.name }
    requires parts { blank.parts ≡ L.parts }
    requires some { 0 < L.parts }
{
    let session = SessionId::from_bytes(b"a").ok_or(Fault::NotTaken)?;
    with_a_node(rt, alloc, core)?;
    let mut steps = Steps::<L>::new(blank);
    let ticket = queued(core, alloc, Moment(10), &mut steps)?;
    let other = queued(core, alloc, Moment(10), &mut steps)?;
    first_is_bound(rt, alloc, core, session, ticket, &mut steps)?;
    late(rt, core, other, &mut steps);
    Ok(())
}

/// Two requests for the one slot: the first gets it and its session is bound, the second waits until its deadline.
#[test]
fn a_session_is_created(rt: HostRuntime) -> Result<(), Fault> {
    let mut core = new_core(&rt, rt.alloc())?;
    let so = creates::<Brand, HostRuntime>(&rt, rt.alloc(), &mut core, Blank::new(1));
    drop(core);
    so
}

fn fails<L: Ledger, A: Abort>(
    rt: &A,
    alloc: Global,
    core: &mut HubCore,
    blank: Blank,
) -> Result<(), Fault>
    requires name { blank.name ≡ L.name }
    requires parts { blank.parts ≡ L.parts }
    requires some { 0 < L.parts }
{
    with_a_node(rt, alloc, core)?;
    let mut steps = Steps::<L>::new(blank);
    let ticket = queued(core, alloc, Moment(10), &mut steps)?;
    let reservation = assigned(core, Moment(11), &mut steps)?;
    let failed = core.fail(1, reservation, FailWhy::Unreachable, Moment(12), &mut steps);
    assert!(rt; failed == Failing::Refused);
    let outcome = core.poll(1, ticket, Moment(13), &mut steps);
    let so = matches!(
        outcome,
        Polled::Settled(Outcome::StartFailed(FailWhy::Unreachable))
    );
    drop(outcome);
    assert!(rt; so);
    Ok(())
}

/// A start that fails on the only node is the last of its request.
#[test]
fn a_start_fails(rt: HostRuntime) -> Result<(), Fault> {
    let mut core = new_core(&rt, rt.alloc())?;
    let so = fails::<Brand, HostRuntime>(&rt, rt.alloc(), &mut core, Blank::new(1));
    drop(core);
    so
}
