//! Connections over a hub of one thread with its nodes, and what its journal tells.
use crate::grid::{Wanted, are_asked};
use crate::tables::{Client, link_of, plain};
use grid_outside::{Clock, Link, MemClock, MemLink, MemNodes, NodeLink};
use grid_types::{Change, Entry, Moment, NodeNo};
use hub_conn::{ConnFault, Served};
use hub_core::LocalHub;
use local_driver::serve_local;
use std::alloc::Global;

/// Serves a connection over any ends, of which a trial asks nothing more. The nodes `own` give a sign of life before each request.
fn served<L: Link, N: NodeLink, C: Clock>(
    alloc: Global,
    hub: &mut LocalHub,
    own: &[NodeNo],
    nodes: &mut N,
    link: &mut L,
    clock: &mut C,
) -> Result<Served, ConnFault> {
    serve_local(alloc, hub, own, link, nodes, clock)
}

/// Whether the client is served so from moment 0 on. None is out of memory, as everywhere here.
pub(crate) fn serves(
    alloc: Global,
    hub: &mut LocalHub,
    own: &[NodeNo],
    nodes: &mut MemNodes,
    client: &Client<'_>,
    wanted: &Wanted<'_>,
) -> Option<bool> {
    let mut link = link_of(alloc, client)?;
    let mut clock = MemClock::new(Moment(0));
    let ended = served(alloc, hub, own, nodes, &mut link, &mut clock);
    let is_told = ended == wanted.ended && link.taken() == wanted.written;
    drop(link);
    Some(is_told && are_asked(alloc, nodes, wanted.asks))
}

/// Makes these requests, for which no node is asked.
pub(crate) fn asked(alloc: Global, hub: &mut LocalHub, sends: &[u8]) -> Option<MemLink> {
    let mut link = link_of(alloc, &plain(sends))?;
    let mut nodes = MemNodes::new(alloc, Vec::new(alloc));
    let mut clock = MemClock::new(Moment(0));
    let _ended = served(alloc, hub, &[], &mut nodes, &mut link, &mut clock);
    drop(nodes);
    Some(link)
}

fn word_of(change: &Change) -> &'static str {
    match change {
        Change::Registered { .. } => "register ",
        Change::Beaten { .. } => "beat ",
        Change::Draining { .. } => "drain ",
        Change::Removed { .. } => "remove ",
        Change::Lapsed { .. } => "lapse ",
        Change::Suspected { .. } => "suspect ",
        Change::Queued { .. } => "queue ",
        Change::Reserved { .. } => "reserve ",
        Change::Bound { .. } => "bind ",
        Change::Failed { .. } => "fail ",
        Change::TimedOut { .. } => "time-out ",
        Change::Cleared { .. } => "clear ",
        Change::Taken { .. } => "take ",
        Change::Touched { .. } => "touch ",
        Change::Ended { .. } => "end ",
        Change::Freed { .. } => "free ",
    }
}

fn are(entries: &[Entry], words: &str) -> bool {
    let mut rest = words.as_bytes();
    for entry in entries {
        match rest.strip_prefix(word_of(&entry.change).as_bytes()) {
            Some(more) => rest = more,
            None => return false,
        }
    }
    rest.is_empty()
}

/// Whether the entries but for the first ones, so many, are these, each as one word.
pub(crate) fn are_behind(journal: &[Entry], first: usize, words: &str) -> bool {
    match journal.get(first..) {
        Some(entries) => are(entries, words),
        None => false,
    }
}
