//! The looks at the driver, with what is told to the hub after each.
ghost use Rattle.std.specs.Prelude.{◌≡◌, ◌&&◌, IfOk};
ghost use Rattle.grid_attach.specs.declared.attaching.TheConstants.{BEAT_MS, RETRY_MS};
ghost use Rattle.grid_attach.specs.Looks.{Attached, Beats, IsLook, Registers, SignIs, is_lost, wait_after};

use crate::build::version;
use crate::driver::{is_ready, status};
use crate::registering::node;
use grid_outside::{Clock, ExchangeFault, NodeLink, Reply};
use grid_types::{NoMemory, NodeNo};
use node_signs::{Beat, beat_body, register, registration_body, send_beat};
use server_words::AttachWords;
use std::alloc::Global;

/// Milliseconds between two beats.
pub const BEAT_MS: u64 = 30_000;

/// Milliseconds until the next look where the node is not registered.
pub const RETRY_MS: u64 = 1_000;

/// The milliseconds of both, since definitions cite the constants. It does nothing.
pub fn fixed_times()
    ensures beat { BEAT_MS ≡ 30000 }
    ensures retry { RETRY_MS ≡ 1000 }
{}

/// Registers the driver, which answered this to its status. Gives the number that the node has at the hub then, if it has one.
fn registered<N: NodeLink>(
    alloc: Global,
    nodes: &mut N,
    said: &AttachWords,
    seen: &Result<Reply, ExchangeFault>,
) -> Result<Option<NodeNo>, NoMemory>
    ensures { IfOk result (λ now. Registers N.gives said.now seen.now nodes.old now nodes.new) }
{
    let version = version(alloc, said.version.as_str(), seen)?;
    let node = node(alloc, said, version.as_str())?;
    let body = registration_body(alloc, &node)?;
    register(alloc, nodes, &said.hub, body.as_bytes())
}

/// Sends a beat of the node of this number. Gives the number that it has then, if it still has one.
fn beaten<N: NodeLink>(
    alloc: Global,
    nodes: &mut N,
    said: &AttachWords,
    number: NodeNo,
) -> Result<Option<NodeNo>, NoMemory>
    ensures { IfOk result (λ now. Beats N.gives said.now number nodes.old now nodes.new) }
{
    let body = beat_body(alloc, said.name.as_str())?;
    match send_beat(alloc, nodes, &said.hub, number, body.as_bytes())? {
        Beat::Refused => Ok(None),
        Beat::Taken | Beat::Unanswered => Ok(Some(number)),
    }
}

/// Tells the hub that the driver is there, which answered this to its status: by a beat where it is registered, else by
/// its registration.
fn sign<N: NodeLink>(
    alloc: Global,
    nodes: &mut N,
    said: &AttachWords,
    seen: &Result<Reply, ExchangeFault>,
    known: Option<NodeNo>,
) -> Result<Option<NodeNo>, NoMemory>
    ensures { IfOk result (λ now. SignIs N.gives said.now seen.now known nodes.old now nodes.new) }
{
    match known {
        Some(number) => beaten(alloc, nodes, said, number),
        None => registered(alloc, nodes, said, seen),
    }
}

/// Looks at the driver once, and tells the hub of it where it is ready.
fn look<N: NodeLink>(
    alloc: Global,
    nodes: &mut N,
    said: &AttachWords,
    known: Option<NodeNo>,
) -> Result<Option<NodeNo>, NoMemory>
    ensures { IfOk result (λ now. IsLook N.gives said.now known nodes.old now nodes.new) }
{
    let seen = status(alloc, nodes, &said.driver);
    if is_ready(&seen)? {
        sign(alloc, nodes, said, &seen, known)
    } else {
        Ok(known)
    }
}

fn wait_after(known: Option<NodeNo>) -> u64
    ensures { result ≡ wait_after known }
{
    match known {
        Some(_) => BEAT_MS,
        None => RETRY_MS,
    }
}

/// Whether the node had a number and has none any more: the hub refused its beat.
fn is_lost(known: Option<NodeNo>, now: Option<NodeNo>) -> bool
    ensures { result ≡ is_lost known now }
{
    match known {
        Some(_) => now.is_none(),
        None => false,
    }
}

/// Whether the looks end: the node is to be there once, and was lost.
fn is_over(once: bool, known: Option<NodeNo>, now: Option<NodeNo>) -> bool
    ensures { result ≡ (once && is_lost known now) }
{
    once && is_lost(known, now)
}

/// Looks at the driver of the words so many times, and tells their hub of it where it is ready: by its registration until
/// the hub has given it a number and after a beat that the hub refused, else by a beat. It is registered as the words say,
/// and where they say no version, with the one that the driver's answer tells. After a look it waits 30 s
/// where the node is registered, else 1 s. A driver that is not ready is not told of, so that the node lapses. Where the
/// words say so, a beat that the hub refused ends the looks. Gives the number of the node at the end, if it has one. Err:
/// out of memory, which ends the looks.
pub fn attach<N: NodeLink, C: Clock>(
    alloc: Global,
    nodes: &mut N,
    clock: &mut C,
    said: &AttachWords,
    looks: u64,
) -> Result<Option<NodeNo>, NoMemory>
    ensures { IfOk result (λ now. Attached N.gives C.gives C.view said.now looks nodes.old clock.old now nodes.new clock.new) }
{
    let mut known = None;
    for _ in 0..looks {
        let now = look(alloc, nodes, said, known)?;
        if is_over(said.once, known, now) {
            return Ok(now);
        }
        known = now;
        clock.pause(wait_after(known));
    }
    Ok(known)
}
