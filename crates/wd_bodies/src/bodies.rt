//! The bodies of responses, and of the request that starts a session.
ghost use Rattle.std.specs.Prelude.{◌≡◌, IfOk};
ghost use Rattle.wd_bodies.specs.Bodies.{value_bytes, error_bytes, created_bytes, start_bytes};

use crate::capabilities::{caps_text, json_text, text_for_nodes};
use crate::code::ErrorCode;
use grid_types::{Bytes, Caps, NoMemory, SessionId};
use std::alloc::Global;

/// The body of an error's response. Its member `stacktrace` is always the empty text.
pub fn error_body(alloc: Global, code: ErrorCode, message: &str) -> Result<Bytes, NoMemory>
    ensures { IfOk result (λ b. b ≡ error_bytes code message.now) }
{
    let mut body = String::from_str(alloc, "{\"value\":{\"error\":\"")?;
    body.push_str(code.as_str())?;
    body.push_str("\",\"message\":")?;
    body.push_str(json_text(alloc, message)?.as_str())?;
    body.push_str(",\"stacktrace\":\"\"}}")?;
    Ok(Bytes::from_vec(body.into_bytes()))
}

/// The body of a response whose value is this JSON text, which is not looked at.
pub fn value_body(alloc: Global, json: &str) -> Result<Bytes, NoMemory>
    ensures { IfOk result (λ b. b ≡ value_bytes json.now) }
{
    let mut body = String::from_str(alloc, "{\"value\":")?;
    body.push_str(json)?;
    body.push_str("}")?;
    Ok(Bytes::from_vec(body.into_bytes()))
}

/// The body of the response for a session that was created (WebDriver §8.1).
pub fn created_body(alloc: Global, session: &SessionId, caps: &Caps) -> Result<Bytes, NoMemory>
    ensures { IfOk result (λ b. b ≡ created_bytes session.now caps.now) }
{
    let mut body = Vec::from_slice(alloc, b"{\"value\":{\"sessionId\":\"")?;
    body.extend_from_slice(session.as_bytes())?;
    body.extend_from_slice(b"\",\"capabilities\":")?;
    body.extend_from_slice(caps_text(alloc, caps)?.as_str().as_bytes())?;
    body.extend_from_slice(b"}}")?;
    Ok(Bytes::from_vec(body))
}

/// The body of the request that asks a node for a session with these capabilities (WebDriver §8.1). A member
/// `grid:queueTimeout` tells how long the request waits, which is for the hub alone, and is left out.
pub fn start_body(alloc: Global, wanted: &Caps) -> Result<Bytes, NoMemory>
    ensures { IfOk result (λ b. b ≡ start_bytes wanted.now) }
{
    let mut body = String::from_str(alloc, "{\"capabilities\":{\"alwaysMatch\":")?;
    body.push_str(text_for_nodes(alloc, wanted)?.as_str())?;
    body.push_str("}}")?;
    Ok(Bytes::from_vec(body.into_bytes()))
}
