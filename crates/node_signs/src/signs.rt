//! The two exchanges of a node with the hub.
ghost use Rattle.std.specs.Prelude.{◌≡◌, OnOk};
ghost use Rattle.grid_outside.specs.declared.exchange.Reply.TheVariants as reply_of;
ghost use Rattle.grid_outside.specs.Exchanges.{Came};
ghost use Rattle.node_signs.specs.declared.signs.TheConstants.{SERVED};
ghost use Rattle.node_signs.specs.Signs.{ask_to_beat, ask_to_post, ask_to_register, BeatIs, RegisterIs};

use crate::number::number_told;
use grid_outside::{ExchangeFault, NodeLink, NodeReply, NodeRequest, Reply};
use grid_types::{NoMemory, NodeAddress, NodeNo};
use std::alloc::Global;
use wd_bodies::{BEFORE_NODE, JSON_TYPE, NODES};

/// The status of a request that was served (RFC 9110 §15.3.1).
pub const SERVED: u16 = 200;

/// The number of that status, since definitions cite the constant. It does nothing.
pub fn fixed_status()
    ensures { SERVED ≡ 200 }
{}

/// What came of a beat.
#[derive(Clone, Copy, Debug, PartialEq, Eq)]
pub enum Beat {
    /// The hub took it.
    Taken,
    /// The hub answered with another status: it has no node of that number and name registered.
    Refused,
    /// The hub gave no answer of HTTP.
    Unanswered,
}

fn number_in(reply: &NodeReply) -> Option<NodeNo>
    ensures { RegisterIs (Ok (reply_of.Http reply.now)) (Ok result) }
{
    if reply.status == SERVED {
        number_told(reply.body.as_bytes())
    } else {
        None
    }
}

fn registered(came: &Result<Reply, ExchangeFault>) -> Result<Option<NodeNo>, NoMemory>
    ensures { RegisterIs came.now result }
{
    match came {
        Ok(Reply::Http(reply)) => Ok(number_in(reply)),
        Ok(Reply::NotHttp(_)) => Ok(None),
        Err(ExchangeFault::Unreachable) => Ok(None),
        Err(ExchangeFault::Memory) => Err(NoMemory),
    }
}

/// Posts the body to the hub, and answers what came of it.
fn posted<'a, N: NodeLink>(
    alloc: Global,
    nodes: &mut N,
    hub: &NodeAddress,
    target: &'a [u8],
    body: &'a [u8],
) -> Result<Reply, ExchangeFault>
    ensures { N.gives nodes.old hub.now (ask_to_post target.now body.now) result nodes.new }
{
    let request = NodeRequest {
        method: b"POST",
        target,
        accept: None,
        accept_encoding: None,
        content_type: Some(JSON_TYPE),
        content_encoding: None,
        body,
    };
    nodes.exchange(alloc, hub, &request)
}

/// Asks the hub to register a node with this body: its number there, or None where the hub gave none. Err is out of
/// memory, in which the hub was not asked.
pub fn register<N: NodeLink>(
    alloc: Global,
    nodes: &mut N,
    hub: &NodeAddress,
    body: &[u8],
) -> Result<Option<NodeNo>, NoMemory>
    ensures { (came : Came) × (N.gives nodes.old hub.now (ask_to_register body.now) came nodes.new)
        × (RegisterIs came result) }
{
    let came = posted(alloc, nodes, hub, NODES.as_bytes(), body);
    registered(&came)
}

fn taken(came: &Result<Reply, ExchangeFault>) -> Result<Beat, NoMemory>
    ensures { BeatIs came.now result }
{
    match came {
        Ok(Reply::Http(reply)) => {
            if reply.status == SERVED {
                Ok(Beat::Taken)
            } else {
                Ok(Beat::Refused)
            }
        }
        Ok(Reply::NotHttp(_)) => Ok(Beat::Unanswered),
        Err(ExchangeFault::Unreachable) => Ok(Beat::Unanswered),
        Err(ExchangeFault::Memory) => Err(NoMemory),
    }
}

fn told<'a, N: NodeLink>(
    alloc: Global,
    nodes: &mut N,
    hub: &NodeAddress,
    target: &'a [u8],
    body: &'a [u8],
) -> Result<Beat, NoMemory>
    ensures { (came : Came) × (N.gives nodes.old hub.now (ask_to_post target.now body.now) came
        nodes.new) × (BeatIs came result) }
{
    let came = posted(alloc, nodes, hub, target, body);
    taken(&came)
}

/// Tells the hub that the node of this number is alive, by a beat with this body. Err: out of memory, in which the hub was
/// not told.
pub fn send_beat<N: NodeLink>(
    alloc: Global,
    nodes: &mut N,
    hub: &NodeAddress,
    node: NodeNo,
    body: &[u8],
) -> Result<Beat, NoMemory>
    ensures { OnOk result ((came : Came)
        × (N.gives nodes.old hub.now (ask_to_beat node body.now) came nodes.new)
        × (BeatIs came result)) }
{
    match format!(in alloc; "{BEFORE_NODE}{node}/beat") {
        Ok(target) => told(alloc, nodes, hub, target.as_bytes(), body),
        Err(_) => Err(NoMemory),
    }
}
