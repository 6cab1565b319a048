//! The whole of the node's program, over any door.
ghost use Rattle.std.specs.Prelude.{◌≡◌, ◌≤◌, ◌⊎◌, Some, IfOk};
ghost use Rattle.std.specs.Thread.{IsSync};
ghost use Rattle.grid_outside.specs.Counts.{Rose};
ghost use Rattle.server_words.specs.NodeOptions.{FitsNode, node_said};
ghost use Rattle.node_signs.specs.Signs.{registration_bytes};
ghost use Rattle.grid_node.specs.Registration.{node_registration};
ghost use Rattle.grid_node.specs.Statuses.{HasRun, HasServed, code};

use crate::beating::{Shared, keep_beating, registered};
use crate::node_end::NodeEnd;
use crate::registering::{VERSION, registration};
use crate::serving::serve_links;
use grid_outside::{Clock, Door, NodeLink};
use grid_types::{Bytes, NoMemory, NodeAddress, Text};
use loop_node::LoopNode;
use node_signs::{beat_body, registration_body};
use server_words::{NodeWords, WordsFault, node_words};
use std::alloc::Global;
use std::sync::Wait;
use std::sync::atomic::{AtomicBool, AtomicU32};
use std::thread::{Threads, join};

/// Ends a loan.
fn take_back<T>(x: &mut T)
    ensures { x.new ≡ x.old }
{}

/// Serves the links, with the beats in a thread of their own.
fn serve_beside_beats<
    R: Threads + Wait + Sync,
    D: Door,
    N: NodeLink + Send + Drop,
    C: Clock + Send + Drop,
>(
    rt: &R,
    alloc: Global,
    shared: &Shared<'_>,
    mut nodes: N,
    mut clock: C,
    mut node: LoopNode,
    door: &mut D,
) -> NodeEnd
    ensures { HasServed (D.view door.old) (D.view door.new) (code result) }
{
    let lent = &mut *door;
    let (_, (lent, end)) = join(
        rt,
        move || keep_beating(rt, alloc, shared, &mut nodes, &mut clock),
        move || -> (&mut D, NodeEnd)
            ensures { (result.0.ghost_name ≡ lent.entry.ghost_name)
                × HasServed (D.view lent.entry.now) (D.view result.0.now) (code result.1) }
        {
            let end = serve_links(rt, alloc, shared, &mut node, lent);
            (lent, end)
        },
    );
    // For the proof alone: the loan of the door ends here.
    take_back(lent);
    end
}

/// How many slots the node has; the words give at most 64.
fn slots_of(words: &NodeWords) -> u16 {
    u16::try_from(words.slots).unwrap_or(u16::MAX)
}

/// The body of the node's registration.
fn body_of(alloc: Global, words: &NodeWords, slots: u16) -> Result<Bytes, NoMemory>
    ensures { IfOk result (λ body. body
        ≡ registration_bytes (node_registration words.now.name words.now.port words.now.browser slots)) }
{
    let name = words.name.as_str();
    let browser = words.browser.as_str();
    let node = registration(alloc, name, words.port, browser, slots)?;
    registration_body(alloc, &node)
}

/// The node before it has a number.
fn node_of(alloc: Global, words: &NodeWords, slots: u16) -> Result<LoopNode, NoMemory> {
    let browser = Text::of(alloc, words.browser.as_str())?;
    let version = Text::of(alloc, VERSION)?;
    Ok(LoopNode::new(alloc, 0, browser, version, slots, 0))
}

/// Registers at the hub and serves the links, behind a door that is bound.
fn serve_registered<R: Threads + Wait + Sync, D: Door>(
    rt: &R,
    alloc: Global,
    hub: NodeAddress,
    body: &[u8],
    beats: &[u8],
    mut node: LoopNode,
    door: &mut D,
) -> NodeEnd
    ensures { HasServed (D.view door.old) (D.view door.new) (code result) }
{
    let mut nodes = door.nodes();
    let mut clock = door.clock();
    let number = registered(rt, alloc, &mut nodes, &mut clock, &hub, body);
    node.renumber(number);
    let latest = AtomicU32::new(number);
    let closed = AtomicBool::new(false);
    let beating = AtomicBool::new(false);
    let shared = Shared {
        hub,
        body,
        beats,
        number: &latest,
        closed: &closed,
        beating: &beating,
    };
    serve_beside_beats(rt, alloc, &shared, nodes, clock, node, door)
}

/// Runs the node that the words tell of.
fn run<R: Threads + Wait + Sync, D: Door>(
    rt: &R,
    alloc: Global,
    words: &NodeWords,
    door: &mut D,
) -> NodeEnd
    ensures { HasRun words.now.port (D.view door.old) (D.view door.new) (code result) }
{
    let slots = slots_of(words);
    let Ok(body) = body_of(alloc, words, slots) else {
        return NodeEnd::NoMemory;
    };
    let Ok(beats) = beat_body(alloc, words.name.as_str()) else {
        return NodeEnd::NoMemory;
    };
    let Ok(node) = node_of(alloc, words, slots) else {
        return NodeEnd::NoMemory;
    };
    match door.bind(words.port) {
        Ok(()) => {
            let (body, beats) = (body.as_bytes(), beats.as_bytes());
            serve_registered(rt, alloc, words.hub, body, beats, node, door)
        }
        Err(_) => NodeEnd::DoorFailed,
    }
}

/// The program of a node: its words are those of the command line without the program's name. It binds
/// the door, registers at the hub and serves the links that come in one after the other, until the
/// door is closed. It need not return.
///
/// 0: the door was closed. 2: the words don't fit. 3: the door could not be bound, failed, or had no room for a gate. 5: out
/// of memory.
pub fn node_main<R: Threads + Wait + Sync, D: Door>(
    rt: &R,
    alloc: Global,
    words: &[Text],
    door: &mut D,
) -> u8
    ensures closed { result ≡ 0 → Rose (D.view door.old).ends (D.view door.new).ends }
    ensures misfit { result ≡ 2 → ¬ (FitsNode words.now) }
    ensures refuses { ¬ (FitsNode words.now) → (result ≡ 2) ⊎ (result ≡ 5) }
    ensures failed { result ≡ 3 → Rose (D.view door.old).faults (D.view door.new).faults }
    ensures later { ((D.view door.old).ends ≤ (D.view door.new).ends)
        × ((D.view door.old).faults ≤ (D.view door.new).faults) }
    // It listens where the words say, and is bound nowhere else.
    ensures listens { result ≡ 0 → (D.view door.new).bound ≡ Some (node_said words.now).port }
    ensures bound { ((D.view door.new).bound ≡ (D.view door.old).bound)
        ⊎ ((D.view door.new).bound ≡ Some (node_said words.now).port) }
    ensures statuses { (result ≡ 0) ⊎ ((result ≡ 2) ⊎ ((result ≡ 3) ⊎ (result ≡ 5))) }
{
    match node_words(alloc, words) {
        Ok(words) => run(rt, alloc, &words, door).code(),
        Err(WordsFault::Refused) => NodeEnd::Refused.code(),
        Err(WordsFault::Memory) => NodeEnd::NoMemory.code(),
    }
}
