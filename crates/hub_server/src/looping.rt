//! Loops: threads that each drive many connections.
ghost use Rattle.std.specs.Prelude.{◌<◌, length, IfSome};
ghost use Rattle.hub_cell.specs.declared.hub.SharedHub.{SharedHub};
ghost use Rattle.hub_cell.specs.Passes.{IsOf};
ghost use Rattle.hub_server.specs.Crowds.{IsCrowd};

use crate::crowd::{Crowd, Desk};
use crate::passes::bare;
use crossbeam_channel::TryRecvError;
use grid_outside::{Clock, Gate, Line, NodeLine, PIECE_BYTES};
use hub_cell::Pass;
use std::alloc::Global;
use std::sync::Wait;

/// A loop waits at most so many milliseconds until it looks whether something is to be done.
const TICK_MS: u64 = 20;

/// So many new connections are taken in before the others go on.
const TAKES: u32 = 16;

/// After so many milliseconds it is looked again who has rested for long.
const LOOK_MS: u64 = 50;

/// At most so many places are told of in one round.
const READY: usize = 1_024;

/// What one loop works with: what it waits by, what tells it the time, how many connections it drives at most, and how long their
/// requests wait, in milliseconds.
#[derive(Drop)]
pub(crate) struct Post<G: Drop, C: Drop> {
    pub(crate) gate: G,
    pub(crate) clock: C,
    pub(crate) places: usize,
    pub(crate) timeout_ms: u64,
}

/// Takes the link in at a place. Where the system has no room for it, it is let go.
fn admit<R: Wait, G: Gate>(
    desk: &Desk<'_, R, G::L>,
    crowd: &mut Crowd<G::L, G::N, G::C>,
    gate: &mut G,
    link: G::L,
)
    requires { IsCrowd desk.now.hub.now G.L.Line.view G.N.NodeLine.state G.N.NodeLine.gives
        G.N.NodeLine.asks G.C.Clock.gives G.C.Clock.view crowd.old }
    ensures { IsCrowd desk.now.hub.now G.L.Line.view G.N.NodeLine.state G.N.NodeLine.gives
        G.N.NodeLine.asks G.C.Clock.gives G.C.Clock.view crowd.new }
{
    let Some(place) = crowd.free_place() else {
        return;
    };
    match gate.admit(place, link) {
        Ok((line, nodes)) => crowd.sit(desk, place, line, nodes),
        Err(_) => crowd.leave_free(place),
    }
}

/// Takes in the links that have come, as far as there are places for them. False: no more will come.
fn take_in<R: Wait, G: Gate>(
    desk: &Desk<'_, R, G::L>,
    crowd: &mut Crowd<G::L, G::N, G::C>,
    gate: &mut G,
) -> bool
    requires { IsCrowd desk.now.hub.now G.L.Line.view G.N.NodeLine.state G.N.NodeLine.gives
        G.N.NodeLine.asks G.C.Clock.gives G.C.Clock.view crowd.old }
    ensures { IsCrowd desk.now.hub.now G.L.Line.view G.N.NodeLine.state G.N.NodeLine.gives
        G.N.NodeLine.asks G.C.Clock.gives G.C.Clock.view crowd.new }
{
    for _ in 0..TAKES {
        if !crowd.has_room() {
            return true;
        }
        match desk.links.try_recv(desk.rt) {
            Ok(link) => admit(desk, crowd, gate, link),
            Err(TryRecvError::Empty) => return true,
            Err(TryRecvError::Disconnected) => return false,
        }
    }
    true
}

/// Waits until something may go on, and lets it go on: those whose line or node is ready before those whose pause is over.
fn make_round<R: Wait, G: Gate>(
    desk: &Desk<'_, R, G::L>,
    crowd: &mut Crowd<G::L, G::N, G::C>,
    gate: &mut G,
    ready: &mut Vec<usize>,
    buffer: &mut [u8],
) -> u64
    requires crowd { IsCrowd desk.now.hub.now G.L.Line.view G.N.NodeLine.state G.N.NodeLine.gives
        G.N.NodeLine.asks G.C.Clock.gives G.C.Clock.view crowd.old }
    requires room { 0 < length buffer.old }
    ensures { IsCrowd desk.now.hub.now G.L.Line.view G.N.NodeLine.state G.N.NodeLine.gives
        G.N.NodeLine.asks G.C.Clock.gives G.C.Clock.view crowd.new }
{
    let limit = crowd.leave_alone().min(TICK_MS);
    ready.clear();
    gate.wait(limit, ready);
    let at = crowd.now();
    crowd.stir_all(ready.as_slice(), at);
    crowd.visit_all(desk, ready.as_slice(), at, buffer);
    ready.clear();
    crowd.wake(desk, at, ready);
    crowd.visit_all(desk, ready.as_slice(), at, buffer);
    at
}

/// Drives connections until no more come and all of them have ended.
fn drive<R: Wait, G: Gate>(
    desk: &Desk<'_, R, G::L>,
    crowd: &mut Crowd<G::L, G::N, G::C>,
    gate: &mut G,
    ready: &mut Vec<usize>,
    buffer: &mut [u8],
)
    requires crowd { IsCrowd desk.now.hub.now G.L.Line.view G.N.NodeLine.state G.N.NodeLine.gives
        G.N.NodeLine.asks G.C.Clock.gives G.C.Clock.view crowd.old }
    requires room { 0 < length buffer.old }
{
    let mut next_look = 0u64;
    for _ in desk.rt.forever() {
        let more = take_in(desk, crowd, gate);
        if is_done(more, crowd.is_empty()) {
            return;
        }
        let at = make_round(desk, crowd, gate, ready, buffer);
        if next_look <= at {
            crowd.rest_all(at);
            next_look = at.saturating_add(LOOK_MS);
        }
    }
}

/// Whether a loop has nothing more to do.
fn is_done(more: bool, is_empty: bool) -> bool {
    !more && is_empty
}

/// The connections of a loop that has none yet, and room for what it is told is ready. None: out of memory.
fn crowd_of<L: Line + Drop, N: NodeLine + Drop, C: Clock + Drop>(
    alloc: Global,
    count: usize,
    timeout_ms: u64,
    clock: C,
    root: Pass,
    reader: Pass,
) -> Option<(Crowd<L, N, C>, Vec<usize>)>
    ensures { (hub : SharedHub) → IsOf hub root → IsOf hub reader → IfSome result
        (λ both. IsCrowd hub L.view N.state N.gives N.asks C.gives C.view both.0) }
{
    let ready = Vec::with_capacity(alloc, READY).ok()?;
    match Crowd::new(alloc, count, timeout_ms, clock, root, reader) {
        Ok(crowd) => Some((crowd, ready)),
        Err(_) => None,
    }
}

/// One loop: it drives at most so many connections at once, and those that come, until no more come and all have ended.
pub(crate) fn run_loop<R: Wait, G: Gate + Drop>(
    desk: &Desk<'_, R, G::L>,
    mut pass: Pass,
    post: Post<G, G::C>,
)
    requires own { IsOf desk.now.hub.now pass }
{
    let Post {
        mut gate,
        clock,
        places,
        timeout_ms,
    } = post;
    let Some(root) = bare(desk.rt, desk.hub, &mut pass) else {
        return;
    };
    let crowd = crowd_of(desk.alloc, places, timeout_ms, clock, root, pass);
    if let Some((mut crowd, mut ready)) = crowd {
        let mut buffer = [0; PIECE_BYTES];
        drive(desk, &mut crowd, &mut gate, &mut ready, &mut buffer);
    }
}
