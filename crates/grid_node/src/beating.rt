//! Telling the hub that the node is there.
use grid_outside::{Clock, NodeLink};
use grid_types::{NodeAddress, NodeNo};
use node_signs::{Beat, register, send_beat};
use std::alloc::Global;
use std::sync::Wait;
use std::sync::atomic::{AtomicBool, AtomicU32, Ordering};

/// How long the node waits, in milliseconds, before it tries to register again, and how often it
/// looks whether its door was closed.
const LOOK_MS: u64 = 1_000;

/// How many looks lie between two beats: 30 seconds.
const LOOKS: u32 = 30;

/// The time between two beats, in milliseconds.
const BEAT_MS: u64 = 30_000;

/// What the beats and the links share.
#[derive(Drop)]
pub(crate) struct Shared<'a> {
    /// Where the hub is reached.
    pub(crate) hub: NodeAddress,
    /// The body of a registration.
    pub(crate) body: &'a [u8],
    /// The body of a beat.
    pub(crate) beats: &'a [u8],
    /// The number that the hub answered last.
    pub(crate) number: &'a AtomicU32,
    /// The door was closed.
    pub(crate) closed: &'a AtomicBool,
    /// The beats have a thread of their own.
    pub(crate) beating: &'a AtomicBool,
}

/// Registers until the hub takes it, and answers the number that it gave.
pub(crate) fn registered<R: Wait, N: NodeLink, C: Clock>(
    rt: &R,
    alloc: Global,
    nodes: &mut N,
    clock: &mut C,
    hub: &NodeAddress,
    body: &[u8],
) -> NodeNo {
    for _ in rt.forever() {
        if let Ok(Some(number)) = register(alloc, nodes, hub, body) {
            return number;
        }
        clock.pause(LOOK_MS);
    }
    unreachable!()
}

/// Registers again, until the hub takes it or the door was closed.
fn register_again<R: Wait, N: NodeLink, C: Clock>(
    rt: &R,
    alloc: Global,
    nodes: &mut N,
    clock: &mut C,
    shared: &Shared<'_>,
) {
    for _ in rt.forever() {
        if shared.closed.load(Ordering::SeqCst) {
            return;
        }
        if let Ok(Some(number)) = register(alloc, nodes, &shared.hub, shared.body) {
            shared.number.store(number, Ordering::SeqCst);
            return;
        }
        clock.pause(LOOK_MS);
    }
}

/// Tells the hub that the node is there, and answers whether the hub no longer knows it.
fn is_forgotten<N: NodeLink>(alloc: Global, nodes: &mut N, shared: &Shared<'_>) -> bool {
    let number = shared.number.load(Ordering::SeqCst);
    let beat = send_beat(alloc, nodes, &shared.hub, number, shared.beats);
    matches!(beat, Ok(Beat::Refused))
}

/// Waits for the time of a beat, and answers whether the door was closed before it.
fn is_closed_before<C: Clock>(clock: &mut C, closed: &AtomicBool) -> bool {
    for _ in 0..LOOKS {
        if closed.load(Ordering::SeqCst) {
            return true;
        }
        clock.pause(LOOK_MS);
    }
    closed.load(Ordering::SeqCst)
}

/// Tells the hub every 30 seconds that the node is there, until the door was closed. Where the hub
/// doesn't know it, it registers again.
pub(crate) fn keep_beating<R: Wait, N: NodeLink, C: Clock>(
    rt: &R,
    alloc: Global,
    shared: &Shared<'_>,
    nodes: &mut N,
    clock: &mut C,
) {
    shared.beating.store(true, Ordering::SeqCst);
    for _ in rt.forever() {
        if is_closed_before(clock, shared.closed) {
            return;
        }
        if is_forgotten(alloc, nodes, shared) {
            register_again(rt, alloc, nodes, clock, shared);
        }
    }
}

/// Where the beats have no thread of their own: tells the hub that the node is there, if it is time,
/// and answers when it last did.
pub(crate) fn beat_between<N: NodeLink, C: Clock>(
    alloc: Global,
    shared: &Shared<'_>,
    nodes: &mut N,
    clock: &mut C,
    last: u64,
) -> u64 {
    let now = clock.now().0;
    if shared.beating.load(Ordering::SeqCst) || now.saturating_sub(last) < BEAT_MS {
        return last;
    }
    if is_forgotten(alloc, nodes, shared) {
        if let Ok(Some(number)) = register(alloc, nodes, &shared.hub, shared.body) {
            shared.number.store(number, Ordering::SeqCst);
        }
    }
    now
}
