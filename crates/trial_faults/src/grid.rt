//! A shared hub with its nodes, and connections over it.
ghost use Rattle.hub_cell.specs.Passes.{IsOf};

use crate::tables::{AFTER, Client, asks_of, link_of, plain};
use grid_outside::{Clock, Link, MemClock, MemLink, MemNodes, NodeLink};
use grid_types::Moment;
use hub_cell::{Pass, SharedHub};
use hub_serving::{ConnFault, Served, serve_shared};
use std::alloc::Global;
use std::sync::Wait;

/// What is to be seen of a connection: what is written, how it ends, and what the nodes are asked.
#[derive(Clone, Copy)]
pub(crate) struct Wanted<'a> {
    pub(crate) written: &'a [u8],
    pub(crate) ended: Result<Served, ConnFault>,
    pub(crate) asks: &'a str,
}

/// Serves a connection over any ends, of which a trial asks nothing more.
fn served<R: Wait, L: Link, N: NodeLink, C: Clock>(
    rt: &R,
    alloc: Global,
    hub: &SharedHub,
    pass: &mut Pass,
    nodes: &mut N,
    link: &mut L,
    clock: &mut C,
) -> Result<Served, ConnFault>
    requires { IsOf hub.now pass.old }
    ensures { IsOf hub.now pass.new }
{
    serve_shared(rt, alloc, hub, pass, link, nodes, clock)
}

/// Whether these are the exchanges that were made.
pub(crate) fn are_asked(alloc: Global, nodes: &MemNodes, wanted: &str) -> bool {
    match asks_of(alloc, nodes) {
        Some(asks) => asks.as_str() == wanted,
        None => false,
    }
}

/// Whether the client is served so from moment 0 on. None is out of memory, as everywhere here.
pub(crate) fn serves<R: Wait>(
    rt: &R,
    alloc: Global,
    hub: &SharedHub,
    pass: &mut Pass,
    nodes: &mut MemNodes,
    client: &Client<'_>,
    wanted: &Wanted<'_>,
) -> Option<bool>
    requires { IsOf hub.now pass.old }
    ensures { IsOf hub.now pass.new }
{
    let mut link = link_of(alloc, client)?;
    let mut clock = MemClock::new(Moment(0));
    let ended = served(rt, alloc, hub, pass, nodes, &mut link, &mut clock);
    let is_told = ended == wanted.ended && link.taken() == wanted.written;
    // A large value is let go by a call: the check of one that ends by itself writes out all its fields.
    drop(link);
    Some(is_told && are_asked(alloc, nodes, wanted.asks))
}

/// Makes these requests, for which no node is asked.
pub(crate) fn asked<R: Wait>(
    rt: &R,
    alloc: Global,
    hub: &SharedHub,
    pass: &mut Pass,
    sends: &[u8],
) -> Option<MemLink>
    requires { IsOf hub.now pass.old }
    ensures { IsOf hub.now pass.new }
{
    let mut link = link_of(alloc, &plain(sends))?;
    let mut nodes = MemNodes::new(alloc, Vec::new(alloc));
    let mut clock = MemClock::new(Moment(0));
    let _ended = served(rt, alloc, hub, pass, &mut nodes, &mut link, &mut clock);
    drop(nodes);
    Some(link)
}

/// Whether the hub says this afterwards.
pub(crate) fn says<R: Wait>(
    rt: &R,
    alloc: Global,
    hub: &SharedHub,
    pass: &mut Pass,
    state: &str,
) -> bool
    requires { IsOf hub.now pass.old }
    ensures { IsOf hub.now pass.new }
{
    match asked(rt, alloc, hub, pass, AFTER) {
        Some(link) => {
            let is_said = link.taken() == state.as_bytes();
            drop(link);
            is_said
        }
        None => false,
    }
}
