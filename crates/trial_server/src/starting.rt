//! Two workers of a crew, of which each starts a session only once both were asked for.
ghost use Rattle.std.specs.Prelude.{◌≡◌, true, IfOk, IfSome};
ghost use Rattle.grid_types.specs.Permitted.{is_well_sized};
ghost use Rattle.hub_cell.specs.Passes.{IsOf, knows, spares_of};
ghost use Rattle.hub_cell.specs.Shared.{HasTicket};

use crate::held::{HeldClock, HeldNodes, Shared};
use grid_types::{
    Cap, CapValue, Caps, Choices, Groups, HubConfig, Moment, NoMemory, NodeAddress, Outcome,
    Registration, SlotGroup, Text,
};
use hub_cell::{Pass, SharedHub};
use hub_core::{Enqueued, Polled, Ticket};
use hub_workers::{Tool, crew};
use std::alloc::Global;
use std::sync::Wait;
use std::sync::atomic::Ordering;
use std::thread::Threads;

/// The capabilities of Chrome.
fn chrome(alloc: Global) -> Result<Caps, NoMemory> {
    let mut caps = Caps::new(alloc);
    let cap = Cap {
        name: Text::of(alloc, "browserName")?,
        value: CapValue::Text(Text::of(alloc, "chrome")?),
    };
    match caps.push(cap) {
        Ok(()) => Ok(caps),
        Err(_) => Err(NoMemory),
    }
}

/// A node with two slots of it.
fn chrome_node(alloc: Global) -> Result<Registration, NoMemory>
    ensures { IfOk result (λ r. is_well_sized r ≡ true) }
{
    let mut groups = Groups::new(alloc);
    let stereotype = chrome(alloc)?;
    let Ok(()) = groups.push(SlotGroup {
        stereotype,
        count: 2,
    }) else {
        return Err(NoMemory);
    };
    Ok(Registration::new(
        Text::of(alloc, "n")?,
        NodeAddress::from_bytes(b"n:1").ok_or(NoMemory)?,
        2,
        groups,
    ))
}

/// Who waits for a session.
#[derive(Drop)]
struct Client {
    pass: Pass,
    ticket: Ticket,
}

fn enqueued<R: Wait>(rt: &R, alloc: Global, hub: &SharedHub, first: &mut Pass) -> Option<Client>
    requires { IsOf hub.now first.old }
    ensures own { IsOf hub.now first.new }
    ensures client { IfSome result (λ c. IsOf hub.now c.pass × HasTicket (knows c.pass) c.ticket) }
{
    let choices = Choices::one(alloc, chrome(alloc).ok()?).ok()?;
    let mut pass = hub.split(rt, first).ok()?;
    match hub.enqueue(rt, &mut pass, choices, Moment(0)) {
        Ok(Enqueued::Queued(ticket)) => Some(Client { pass, ticket }),
        _ => None,
    }
}

fn has_session<R: Wait>(rt: &R, hub: &SharedHub, client: Client) -> bool
    requires { IsOf hub.now client.pass × HasTicket (knows client.pass) client.ticket }
{
    let Client { mut pass, ticket } = client;
    match hub.poll(rt, &mut pass, ticket, Moment(0)) {
        Ok(Polled::Settled(Outcome::Created { .. })) => true,
        _ => false,
    }
}

fn tool<'a>(rt: HostRuntime, shared: &'a Shared) -> Tool<HeldNodes<'a>, HeldClock> {
    Tool {
        nodes: HeldNodes::new(rt, shared),
        clock: HeldClock::new(rt),
    }
}

/// Whether two requests have a session each, after one turn of each worker.
fn both_start<R: Threads + Wait + Sync>(
    rt: &R,
    alloc: Global,
    hub: &SharedHub,
    first: &mut Pass,
    runtime: HostRuntime,
    shared: &Shared,
) -> Option<bool>
    requires { IsOf hub.now first.old }
{
    let node = chrome_node(alloc).ok()?;
    hub.register(rt, first, node, Moment(0)).ok()?;
    let one = enqueued(rt, alloc, hub, first)?;
    let other = enqueued(rt, alloc, hub, first)?;
    let mut tools = Vec::new(alloc);
    tools.push(tool(runtime, shared)).ok()?;
    tools.push(tool(runtime, shared)).ok()?;
    if (first.spares() as usize) < tools.len() {
        return None;
    }
    crew(rt, alloc, hub, first, &mut tools, 1).ok()?;
    let has_one = has_session(rt, hub, one);
    let has_other = has_session(rt, hub, other);
    Some(has_one && has_other)
}

/// Over a hub of its own.
fn starts<R: Threads + Wait + Sync>(rt: &R, runtime: HostRuntime, shared: &Shared) -> Option<bool> {
    let alloc = runtime.alloc();
    let (hub, mut first) = SharedHub::new(rt, alloc, HubConfig::default(), 0, 5).ok()?;
    let both = both_start(rt, alloc, &hub, &mut first, runtime, shared);
    hub.close(rt);
    both
}

#[test]
fn a_crew_starts_sessions_beside_each_other(rt: HostRuntime) {
    let shared = Shared::new();
    assert!(rt; starts(&rt, rt, &shared) == Some(true));
    assert!(rt; shared.starts.load(Ordering::SeqCst) == 2);
}
