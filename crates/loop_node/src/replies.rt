//! The replies that are written.
ghost use Rattle.std.specs.Prelude.{◌≡◌, ◌∷◌, ◌++◌, [], IfOk};
ghost use Rattle.http.specs.StatusCode.{IsStatusCode};
ghost use Rattle.loop_node.specs.Replies.{json_reply, success, failure};
ghost use Rattle.loop_node.specs.Sessions.{text_cap, node_caps};

use grid_types::{Bytes, Cap, CapValue, Caps, NoMemory, Text};
use http_frames::NodeReply;
use std::alloc::Global;
use wd_bodies::{ErrorCode, JSON_TYPE, NO_CACHE, error_body, phrase_of, status_of};

/// A reply with a JSON body.
fn json_reply(alloc: Global, status: u16, body: Bytes) -> Result<NodeReply, NoMemory>
    requires { IsStatusCode status }
    ensures { IfOk result (λ reply. reply ≡ json_reply status body) }
{
    Ok(NodeReply {
        status,
        reason: Bytes::of(alloc, phrase_of(status).as_bytes())?,
        content_type: Some(Bytes::of(alloc, JSON_TYPE)?),
        content_encoding: None,
        cache_control: Some(Bytes::of(alloc, NO_CACHE)?),
        body,
    })
}

pub(crate) fn success(alloc: Global, body: Bytes) -> Result<NodeReply, NoMemory>
    ensures { IfOk result (λ reply. reply ≡ success body) }
{
    json_reply(alloc, 200, body)
}

pub(crate) fn failure(alloc: Global, code: ErrorCode, message: &str) -> Result<NodeReply, NoMemory>
    ensures { IfOk result (λ reply. reply ≡ failure code message.now) }
{
    json_reply(alloc, status_of(code), error_body(alloc, code, message)?)
}

fn push_text(alloc: Global, caps: &mut Caps, name: &str, text: &str) -> Result<(), NoMemory>
    ensures { IfOk result (λ _. caps.new ≡ caps.old ++ text_cap name.now text.now ∷ []) }
{
    let cap = Cap {
        name: Text::of(alloc, name)?,
        value: CapValue::Text(Text::of(alloc, text)?),
    };
    match caps.push(cap) {
        Ok(()) => Ok(()),
        Err(_) => Err(NoMemory),
    }
}

/// The capabilities of a node's sessions.
pub(crate) fn node_caps(alloc: Global, browser: &str, version: &str) -> Result<Caps, NoMemory>
    ensures { IfOk result (λ caps. caps ≡ node_caps browser.now version.now) }
{
    let mut caps = Caps::new(alloc);
    push_text(alloc, &mut caps, "browserName", browser)?;
    push_text(alloc, &mut caps, "browserVersion", version)?;
    push_text(alloc, &mut caps, "platformName", "linux")?;
    Ok(caps)
}
