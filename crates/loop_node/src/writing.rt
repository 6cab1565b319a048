//! Writing to a client.
ghost use Rattle.std.specs.Prelude.{◌≡◌, ℕ, ◌≤◌, ◌<◌, ◌++◌, List, [], length, take, true, IfOk, IfErr, OnOk, OnErr};
ghost use Rattle.http_frames.specs.Frames.{Request, closes};
ghost use Rattle.httparse.specs.Grammar.{RequestHead};
ghost use Rattle.http_frames.specs.FrameSteps.{IsFrame, HoldsParts};
ghost use Rattle.http_frames.specs.Chunks.{joined};
ghost use Rattle.http_frames.specs.declared.frames.TheConstants.{LIMITS};
ghost use Rattle.grid_outside.specs.Exchanges.{lent};
ghost use Rattle.loop_node.specs.Replies.{Answers};
ghost use Rattle.loop_node.specs.Serving.{plain_ask, reply_bytes, refused_reply, refusal, Waits, go_on};
ghost use Rattle.loop_node.specs.Connections.{Moved, Later, Blames, Responds, WroteFront, StopsAt, TellsFront, further};

use crate::incoming::Incoming;
use crate::node::LoopNode;
use crate::replies::failure;
use crate::serving::NodeFault;
use grid_outside::Link;
use grid_types::{Bytes, NoMemory};
use http_frames::{
    CONTINUE, Frame, FrameFault, LIMITS, NodeReply, NodeRequest, Parts, ReplyHeaders,
    expects_continue, fault_text, write_response,
};
use std::alloc::Global;
use wd_bodies::ErrorCode;

/// Writes all bytes, or up to the first write that fails.
fn write_all<L: Link>(link: &mut L, bytes: &[u8]) -> Result<(), NodeFault>
    ensures ok { OnOk result (Moved
        (L.view link.old)
        (L.view link.new) [] bytes.now) }
    ensures front { OnErr result (WroteFront
        (L.view link.old)
        (L.view link.new) bytes.now) }
    ensures later { Later
        (L.view link.old)
        (L.view link.new) }
    ensures err { IfErr result (λ why. Blames why
        (L.view link.old)
        (L.view link.new)) }
{
    let mut done = 0;
    'pieces: while done < bytes.len() {
        match link.write(&bytes[done..]) {
            Ok(count) => done += count,
            Err(_) => return Err(NodeFault::Write),
        }
    }
    Ok(())
}

fn lent(value: &Option<Bytes>) -> Option<&[u8]>
    ensures { lent result ≡ value.now }
{
    match value {
        Some(value) => Some(value.as_bytes()),
        None => None,
    }
}

/// A reply as a response.
fn response_of(alloc: Global, reply: &NodeReply, close: bool) -> Result<Bytes, NoMemory>
    ensures { IfOk result (λ bytes. bytes ≡ reply_bytes reply.now close) }
{
    let headers = ReplyHeaders {
        content_type: lent(&reply.content_type),
        content_encoding: lent(&reply.content_encoding),
        cache_control: lent(&reply.cache_control),
    };
    write_response(
        alloc,
        reply.status,
        reply.reason.as_bytes(),
        headers,
        reply.body.as_bytes(),
        close,
    )
}

/// Writes a reply as a response, or a front of it.
fn write_reply<L: Link>(
    alloc: Global,
    link: &mut L,
    reply: &NodeReply,
    close: bool,
) -> Result<(), NodeFault>
    ensures ok { OnOk result (Moved
        (L.view link.old)
        (L.view link.new) [] (reply_bytes reply.now close)) }
    ensures front { OnErr result (WroteFront
        (L.view link.old)
        (L.view link.new) (reply_bytes reply.now close)) }
    ensures later { Later
        (L.view link.old)
        (L.view link.new) }
    ensures err { IfErr result (λ why. Blames why
        (L.view link.old)
        (L.view link.new)) }
{
    match response_of(alloc, reply, close) {
        Ok(bytes) => write_all(link, bytes.as_bytes()),
        Err(NoMemory) => Err(NodeFault::Memory),
    }
}

/// What of the parts is still to come, in one piece.
fn joined(alloc: Global, parts: Parts<'_>) -> Result<Bytes, NoMemory>
    ensures { (all : List (List ℕ)) → HoldsParts parts.entry all →
        IfOk result (λ bytes. bytes ≡ joined all) }
{
    let mut data = Vec::new(alloc);
    for part in parts {
        data.extend_from_slice(part)?;
    }
    Ok(Bytes::from_vec(data))
}

/// What the node answers to a request.
fn reply_to<'a>(
    alloc: Global,
    node: &mut LoopNode,
    method: &'a [u8],
    target: &'a [u8],
    body: &'a [u8],
) -> Result<NodeReply, NoMemory>
    ensures answers { IfOk result (λ reply.
        Answers node.old (plain_ask method.now target.now body.now) reply node.new) }
    ensures err { OnErr result (node.new ≡ node.old) }
{
    let request = NodeRequest {
        method,
        target,
        accept: None,
        accept_encoding: None,
        content_type: None,
        content_encoding: None,
        body,
    };
    node.answer(alloc, &request)
}

/// Answers a request.
pub(crate) fn respond<L: Link>(
    alloc: Global,
    node: &mut LoopNode,
    link: &mut L,
    frame: &Frame<'_>,
) -> Result<(), NodeFault>
    ensures ok { OnOk result ((h : RequestHead) (parts : List (List ℕ)) → IsFrame LIMITS h parts frame.now
        → Responds node.old node.new (h, parts)
        (L.view link.old)
        (L.view link.new)) }
    ensures stops { OnErr result ((h : RequestHead) (parts : List (List ℕ)) → IsFrame LIMITS h parts frame.now
        → StopsAt node.old node.new (h, parts)
        (L.view link.old)
        (L.view link.new)) }
    ensures later { Later
        (L.view link.old)
        (L.view link.new) }
    ensures err { IfErr result (λ why. Blames why
        (L.view link.old)
        (L.view link.new)) }
{
    let Ok(body) = joined(alloc, frame.body.parts()) else {
        return Err(NodeFault::Memory);
    };
    match reply_to(alloc, node, frame.method, frame.target, body.as_bytes()) {
        Ok(reply) => write_reply(alloc, link, &reply, frame.closes),
        Err(NoMemory) => Err(NodeFault::Memory),
    }
}

/// The reply to a request that is refused.
fn refused_reply(alloc: Global, why: FrameFault) -> Result<NodeReply, NoMemory>
    ensures { IfOk result (λ reply. reply ≡ refused_reply why) }
{
    failure(alloc, ErrorCode::InvalidArgument, fault_text(why))
}

/// Refuses what stands at the front of the bytes.
pub(crate) fn refuse<L: Link>(alloc: Global, link: &mut L, why: FrameFault) -> Result<(), NodeFault>
    ensures ok { OnOk result (Moved
        (L.view link.old)
        (L.view link.new) [] (refusal why)) }
    ensures front { OnErr result (WroteFront
        (L.view link.old)
        (L.view link.new) (refusal why)) }
    ensures later { Later
        (L.view link.old)
        (L.view link.new) }
    ensures err { IfErr result (λ why. Blames why
        (L.view link.old)
        (L.view link.new)) }
{
    match refused_reply(alloc, why) {
        Ok(reply) => write_reply(alloc, link, &reply, true),
        Err(NoMemory) => Err(NodeFault::Memory),
    }
}

/// Tells a client that waits to go on, where it was not told before.
fn tell_once<L: Link>(link: &mut L, told: bool, waits: bool) -> Result<(), NodeFault>
    ensures ok { OnOk result (Moved
        (L.view link.old)
        (L.view link.new) [] (further told waits)) }
    ensures front { OnErr result (WroteFront
        (L.view link.old)
        (L.view link.new) (further told waits)) }
    ensures later { Later
        (L.view link.old)
        (L.view link.new) }
    ensures err { IfErr result (λ why. Blames why
        (L.view link.old)
        (L.view link.new)) }
{
    if waits && !told {
        write_all(link, CONTINUE)
    } else {
        Ok(())
    }
}

/// Tells a client that waits for it to go on, once for each request.
pub(crate) fn tell<L: Link>(link: &mut L, incoming: &mut Incoming) -> Result<(), NodeFault>
    ensures bytes { incoming.new.bytes ≡ incoming.old.bytes }
    ensures left { incoming.new.left ≡ incoming.old.left }
    ensures frames { incoming.new.frames ≡ incoming.old.frames }
    ensures waits { OnOk result (Waits incoming.old.bytes.items incoming.new.told) }
    ensures ok { OnOk result (Moved
        (L.view link.old)
        (L.view link.new) [] (further incoming.old.told incoming.new.told)) }
    ensures front { OnErr result (TellsFront incoming.old.bytes.items incoming.old.told
        (L.view link.old)
        (L.view link.new)) }
    ensures later { Later
        (L.view link.old)
        (L.view link.new) }
    ensures err { IfErr result (λ why. Blames why
        (L.view link.old)
        (L.view link.new)) }
{
    let waits = expects_continue(incoming.bytes.as_slice(), LIMITS);
    tell_once(link, incoming.told, waits)?;
    incoming.told = waits;
    Ok(())
}
