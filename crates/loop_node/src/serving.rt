//! Serving the node over one connection.
ghost use Rattle.std.specs.Prelude.{◌≡◌, ℕ, ◌<◌, ◌≤◌, true, false, List, length, IfOk, IfErr, OnOk, OnErr};
ghost use Rattle.loop_node.specs.Sessions.{Node};
ghost use Rattle.grid_outside.specs.Told.{LinkView};
ghost use Rattle.loop_node.specs.Connections.{Later, Blames, ServedOver, ServingOver, BrokenOff, AfterTurn, IsRead, ReadSome, work};

use crate::incoming::Incoming;
use crate::node::LoopNode;
use crate::writing::{refuse, respond, tell};
use grid_outside::Link;
use grid_types::NoMemory;
use http_frames::{LIMITS, Step, next_request, stays};
use std::alloc::Global;

/// Why a connection was not served to its end.
#[derive(Clone, Copy, Debug, PartialEq, Eq)]
pub enum NodeFault {
    Read,
    Write,
    Memory,
}

/// The most bytes of one read.
const PIECE: usize = 16_384;

/// Answers the requests of one connection in order, and a request that is refused with a 400, and
/// answers how many there were. It ends behind a request that closes the connection or is refused,
/// at the end of input, or after 2^40 bytes.
pub fn serve_node<L: Link>(
    alloc: Global,
    node: &mut LoopNode,
    link: &mut L,
) -> Result<u64, NodeFault>
    ensures ok { IfOk result (ServedOver node.old node.new
        (L.view link.old)
        (L.view link.new)) }
    // After a fault a front of what is due was written.
    ensures broken { OnErr result (BrokenOff node.old node.new
        (L.view link.old)
        (L.view link.new)) }
    ensures later { Later
        (L.view link.old)
        (L.view link.new) }
    // Each fault has its count; out of memory has none.
    ensures err { IfErr result (λ why. Blames why
        (L.view link.old)
        (L.view link.new)) }
{
    let mut incoming = Incoming::new(alloc);
    'turns: loop {
        let goes = turn(alloc, node, link, &mut incoming)?;
        if !goes {
            return Ok(incoming.frames);
        }
    }
}

/// Answers one request, or reads once, and says whether the connection goes on.
fn turn<L: Link>(
    alloc: Global,
    node: &mut LoopNode,
    link: &mut L,
    incoming: &mut Incoming,
) -> Result<bool, NodeFault>
    ensures ok { IfOk result (λ goes. (first : Node) (start : LinkView)
        → ServingOver first node.old start
        (L.view link.old) incoming.old
        → AfterTurn goes first node.new start
        (L.view link.new) incoming.new) }
    ensures less { IfOk result (λ goes. goes ≡ true → work incoming.new < work incoming.old) }
    ensures broken { OnErr result ((first : Node) (start : LinkView)
        → ServingOver first node.old start
        (L.view link.old) incoming.old
        → BrokenOff first node.new start
        (L.view link.new)) }
    ensures later { Later
        (L.view link.old)
        (L.view link.new) }
    ensures err { IfErr result (λ why. Blames why
        (L.view link.old)
        (L.view link.new)) }
{
    if incoming.bytes.is_empty() {
        return read_more(link, incoming);
    }
    tell(link, incoming)?;
    // What is whole stays whole, whatever bytes follow.
    stays();
    match next_request(incoming.bytes.as_slice(), LIMITS) {
        Step::Whole(frame, len) => {
            let closes = frame.closes;
            respond(alloc, node, link, &frame)?;
            incoming.next(len);
            Ok(!closes)
        }
        Step::Refused(why) => {
            refuse(alloc, link, why)?;
            Ok(false)
        }
        Step::More { .. } => read_more(link, incoming),
    }
}

/// Reads a piece, and says whether there was one: none after the most bytes and at the end of input.
fn read_more<L: Link>(link: &mut L, incoming: &mut Incoming) -> Result<bool, NodeFault>
    ensures ok { IfOk result (λ goes. IsRead goes incoming.old incoming.new
        (L.view link.old)
        (L.view link.new)) }
    ensures some { OnErr result (ReadSome
        (L.view link.old)
        (L.view link.new)) }
    ensures later { Later
        (L.view link.old)
        (L.view link.new) }
    ensures err { IfErr result (λ why. Blames why
        (L.view link.old)
        (L.view link.new)) }
{
    let mut piece = [0; PIECE];
    let room = incoming.left.min(PIECE as u64) as usize;
    if room == 0 {
        return Ok(false);
    }
    match link.read(&mut piece[..room]) {
        Ok(0) => Ok(false),
        Ok(count) => match incoming.add(&piece[..count]) {
            Ok(()) => Ok(true),
            Err(NoMemory) => Err(NodeFault::Memory),
        },
        Err(_) => Err(NodeFault::Read),
    }
}
