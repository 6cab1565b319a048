//! The responses that are written.
ghost use Rattle.std.specs.Prelude.{◌≡◌, true, false, None, Some, IfOk, OnOk, decimal};
ghost use Rattle.http.specs.StatusCode.{IsStatusCode};
ghost use Rattle.http_frames.specs.Writing.{has_no_body};
ghost use Rattle.hub_status.specs.Status.{status_bytes};
ghost use Rattle.hub_status.specs.Queue.{queue_bytes};
ghost use Rattle.hub_core.specs.Replies.{registering_reply, enqueued_reply};
ghost use Rattle.conn_script.specs.Responses as texts;
ghost use Rattle.conn_script.specs.Messages as words;
ghost use Rattle.conn_script.specs.Build.{Responds};
ghost use Rattle.grid_outside.specs.Exchanges.{lent as lent_value};

use crate::messages::{caps_fault_text, reg_fault_text, why_text};
use caps_merge::{CapsFault, RegFault};
use grid_types::{Bytes, FailWhy, NoMemory, NodeNo, Outcome, ReqNo, View};
use http_frames::{FrameFault, NodeReply, ReplyHeaders, fault_text, write_response};
use hub_core::{Enqueued, Registering};
use hub_status::{queue_body, status_body};
use std::alloc::Global;
use wd_bodies::{
    ErrorCode, HUB_SPENT, JSON_TYPE, NO_CACHE, NO_COMMAND, NO_METHOD, NO_NODE, NO_SESSION,
    NO_SLOT_MATCHES, NODE_NOT_HTTP, NODE_UNREACHABLE, NUMBERS_SPENT, created_body, error_body,
    phrase_of, status_of, value_body,
};

/// A response with a JSON body of the hub.
#[tactic(auto, unfolding(crate::specs::Responses::response_text))]
fn json(alloc: Global, status: u16, body: &[u8], close: bool) -> Result<Bytes, NoMemory>
    requires status { IsStatusCode status }
    ensures { IfOk result (λ bytes. bytes ≡ texts.json_text status body.now close) }
{
    let headers = ReplyHeaders {
        content_type: Some(JSON_TYPE),
        content_encoding: None,
        cache_control: Some(NO_CACHE),
    };
    let reason = phrase_of(status).as_bytes();
    write_response(alloc, status, reason, headers, body, close)
}

/// The response of an error.
pub fn failure(
    alloc: Global,
    code: ErrorCode,
    message: &str,
    close: bool,
) -> Result<Bytes, NoMemory>
    ensures { IfOk result (λ bytes. bytes ≡ texts.bytes_of (texts.failure code message.now) close) }
{
    let body = error_body(alloc, code, message)?;
    json(alloc, status_of(code), body.as_bytes(), close)
}

/// The response of a success whose value is this JSON.
pub fn success(alloc: Global, value: &str, close: bool) -> Result<Bytes, NoMemory>
    ensures { IfOk result (λ bytes. bytes ≡ texts.bytes_of (texts.success value.now) close) }
{
    let body = value_body(alloc, value)?;
    json(alloc, 200, body.as_bytes(), close)
}

/// The response where the hub is spent.
pub fn hub_spent(alloc: Global) -> Result<Bytes, NoMemory>
    ensures { IfOk result (λ bytes. bytes ≡ texts.bytes_of texts.hub_spent false) }
{
    failure(alloc, ErrorCode::UnknownError, HUB_SPENT, true)
}

/// The response where no row of the table has the path (WebDriver §6.6).
pub fn unknown_command(alloc: Global, close: bool) -> Result<Bytes, NoMemory>
    ensures { IfOk result (λ bytes. bytes ≡ texts.bytes_of words.unknown_command close) }
{
    failure(alloc, ErrorCode::UnknownCommand, NO_COMMAND, close)
}

/// The response where the path's row has another method (WebDriver §6.6).
pub fn unknown_method(alloc: Global, close: bool) -> Result<Bytes, NoMemory>
    ensures { IfOk result (λ bytes. bytes ≡ texts.bytes_of words.unknown_method close) }
{
    failure(alloc, ErrorCode::UnknownMethod, NO_METHOD, close)
}

/// The response where no session of the id is live (WebDriver §6.6).
pub fn no_such_session(alloc: Global, close: bool) -> Result<Bytes, NoMemory>
    ensures { IfOk result (λ bytes. bytes ≡ texts.bytes_of words.no_such_session close) }
{
    failure(alloc, ErrorCode::InvalidSessionId, NO_SESSION, close)
}

/// The response where no registered node has the number.
pub fn no_such_node(alloc: Global, close: bool) -> Result<Bytes, NoMemory>
    ensures { IfOk result (λ bytes. bytes ≡ texts.bytes_of words.no_such_node close) }
{
    failure(alloc, ErrorCode::InvalidArgument, NO_NODE, close)
}

/// The response to a refused request, after which the connection ends.
pub fn refusal(alloc: Global, fault: FrameFault) -> Result<Bytes, NoMemory>
    ensures { IfOk result (λ bytes. bytes ≡ texts.bytes_of (words.refusal fault) true) }
{
    failure(alloc, ErrorCode::InvalidArgument, fault_text(fault), true)
}

/// The response to a New Session whose body is refused. Out of memory is that of the body too.
pub fn caps_refusal(alloc: Global, fault: &CapsFault, close: bool) -> Result<Bytes, NoMemory>
    ensures { IfOk result (λ bytes. bytes ≡ texts.bytes_of (words.caps_refusal fault.now) close) }
{
    let message = caps_fault_text(alloc, fault)?;
    failure(alloc, ErrorCode::InvalidArgument, message.as_str(), close)
}

/// The response to a registration whose body is refused. Out of memory is that of the body too.
pub fn reg_refusal(alloc: Global, fault: &RegFault, close: bool) -> Result<Bytes, NoMemory>
    ensures { IfOk result (λ bytes. bytes ≡ texts.bytes_of (words.reg_refusal fault.now) close) }
{
    let message = reg_fault_text(alloc, "registration", fault)?;
    failure(alloc, ErrorCode::InvalidArgument, message.as_str(), close)
}

/// The response to a beat whose body is refused. Out of memory is that of the body too.
pub fn beat_refusal(alloc: Global, fault: &RegFault, close: bool) -> Result<Bytes, NoMemory>
    ensures { IfOk result (λ bytes. bytes ≡ texts.bytes_of (words.beat_refusal fault.now) close) }
{
    let message = reg_fault_text(alloc, "beat", fault)?;
    failure(alloc, ErrorCode::InvalidArgument, message.as_str(), close)
}

fn numbers_are_spent(alloc: Global, close: bool) -> Result<Bytes, NoMemory>
    ensures { IfOk result (λ bytes. bytes ≡ texts.bytes_of words.numbers_are_spent close) }
{
    failure(alloc, ErrorCode::UnknownError, NUMBERS_SPENT, close)
}

/// The response to a request that the hub did not queue. Out of memory is that of the hub too.
pub fn enqueue_refusal(alloc: Global, answer: &Enqueued, close: bool) -> Result<Bytes, NoMemory>
    ensures { IfOk result (λ bytes. Responds (enqueued_reply answer.now) words.enqueue_refusal bytes
        close) }
{
    match answer {
        Enqueued::NumbersSpent => numbers_are_spent(alloc, close),
        Enqueued::Unsupported => {
            failure(alloc, ErrorCode::SessionNotCreated, NO_SLOT_MATCHES, close)
        }
        Enqueued::QueueFull { count, bytes } => {
            let message = format!(in alloc; "queue is full: {count} requests, {bytes} bytes")?;
            failure(alloc, ErrorCode::SessionNotCreated, message.as_str(), close)
        }
        Enqueued::Memory => Err(NoMemory),
        Enqueued::Queued(_) => Err(NoMemory),
    }
}

/// The response to a registration. Out of memory is that of the hub too.
pub fn registered(alloc: Global, answer: &Registering, close: bool) -> Result<Bytes, NoMemory>
    ensures { IfOk result (λ bytes. Responds (registering_reply answer.now) words.register_response
        bytes close) }
{
    match answer {
        Registering::Registered(node) => {
            let value = format!(in alloc; "{{\"node\":{node}}}")?;
            success(alloc, value.as_str(), close)
        }
        Registering::NameTaken(node) => {
            let message = format!(in alloc; "name is taken by node {node}")?;
            failure(alloc, ErrorCode::InvalidArgument, message.as_str(), close)
        }
        Registering::NodesFull { listed } => {
            let message = format!(in alloc; "{listed} nodes are listed")?;
            failure(alloc, ErrorCode::UnknownError, message.as_str(), close)
        }
        Registering::NumbersSpent => numbers_are_spent(alloc, close),
        Registering::Memory(_) => Err(NoMemory),
    }
}

/// The response to a clearing of the queue, which settled so many requests.
pub fn cleared(alloc: Global, count: u32, close: bool) -> Result<Bytes, NoMemory>
    ensures { IfOk result (λ bytes. bytes ≡ texts.bytes_of (texts.success (decimal count)) close) }
{
    let value = format!(in alloc; "{count}")?;
    success(alloc, value.as_str(), close)
}

/// The response with the hub's status.
pub fn status(alloc: Global, view: &View, close: bool) -> Result<Bytes, NoMemory>
    ensures { IfOk result (λ bytes. bytes
        ≡ texts.bytes_of (texts.own 200 (status_bytes view.now)) close) }
{
    let body = status_body(alloc, view)?;
    json(alloc, 200, body.as_bytes(), close)
}

/// The response with the waiting requests.
pub fn queue(alloc: Global, view: &View, close: bool) -> Result<Bytes, NoMemory>
    ensures { IfOk result (λ bytes. bytes
        ≡ texts.bytes_of (texts.own 200 (queue_bytes view.now)) close) }
{
    let body = queue_body(alloc, view)?;
    json(alloc, 200, body.as_bytes(), close)
}

/// The response of a request's outcome.
pub fn settled(
    alloc: Global,
    request: ReqNo,
    outcome: &Outcome,
    close: bool,
) -> Result<Bytes, NoMemory>
    ensures { IfOk result (λ bytes. bytes
        ≡ texts.bytes_of (words.outcome_response request outcome.now) close) }
{
    let message = match outcome {
        Outcome::Created { session, caps, .. } => {
            let body = created_body(alloc, session, caps)?;
            return json(alloc, 200, body.as_bytes(), close);
        }
        Outcome::TimedOut { .. } => format!(in alloc; "request {request} timed out")?,
        Outcome::StartFailed(why) => {
            let words = why_text(why);
            format!(in alloc; "start failed: {words}")?
        }
        Outcome::Cleared => format!(in alloc; "request {request} was cleared")?,
    };
    failure(alloc, ErrorCode::SessionNotCreated, message.as_str(), close)
}

/// What a node replied, passed on.
#[tactic(auto, unfolding(crate::specs::Responses::response_text))]
pub fn passed_on(alloc: Global, reply: &NodeReply, close: bool) -> Result<Bytes, NoMemory>
    ensures { IfOk result (λ bytes. bytes ≡ texts.bytes_of (texts.passed_on reply.now) close) }
{
    let content_type = lent(&reply.content_type);
    let content_encoding = lent(&reply.content_encoding);
    let cache_control = lent(&reply.cache_control);
    let headers = ReplyHeaders {
        content_type,
        content_encoding,
        cache_control,
    };
    let reason = reply.reason.as_bytes();
    let body = reply.body.as_bytes();
    write_response(alloc, reply.status, reason, headers, body, close)
}

fn lent(value: &Option<Bytes>) -> Option<&[u8]>
    ensures { lent_value result ≡ value.now }
{
    match value {
        Some(value) => Some(value.as_bytes()),
        None => None,
    }
}

/// The response where the session's node is unreachable.
pub fn node_unreachable(alloc: Global, close: bool) -> Result<Bytes, NoMemory>
    ensures { IfOk result (λ bytes. bytes ≡ texts.bytes_of words.node_unreachable close) }
{
    failure(alloc, ErrorCode::UnknownError, NODE_UNREACHABLE, close)
}

/// The response where the session's node replied by something else than HTTP.
pub fn node_not_http(alloc: Global, close: bool) -> Result<Bytes, NoMemory>
    ensures { IfOk result (λ bytes. bytes ≡ texts.bytes_of words.node_not_http close) }
{
    failure(alloc, ErrorCode::UnknownError, NODE_NOT_HTTP, close)
}
