//! Bodies, statuses and phrases, byte for byte.
use grid_types::{Bytes, Cap, CapValue, Caps, NoMemory, SessionId, Text};
use std::alloc::Global;
use wd_bodies::{ErrorCode, created_body, error_body, phrase_of, start_body, status_of};

#[derive(Clone, Copy)]
enum Value {
    Text(&'static str),
    Raw(&'static str),
    Flag(bool),
}

use Value::{Flag, Raw};

/// Names and values. A number keeps its text, and lists keep theirs.
const MEMBERS: &[(&str, Value)] = &[
    ("grid:queueTimeout", Value::Text("x")),
    ("browserName", Value::Text("chrome")),
    ("setWindowRect", Flag(true)),
    (
        "goog:chromeOptions",
        Raw(
            "{\"args\":[\"--headless=new\"],\"mobileEmulation\":{\"deviceMetrics\":{\"pixelRatio\":3.0}}}",
        ),
    ),
    ("grid:queueTimeout", Raw("2000")),
    ("webSocketUrl", Flag(false)),
];

fn value_of(alloc: Global, value: Value) -> Result<CapValue, NoMemory> {
    Ok(match value {
        Value::Text(text) => CapValue::Text(Text::of(alloc, text)?),
        Raw(json) => CapValue::Raw(Text::of(alloc, json)?),
        Flag(flag) => CapValue::Flag(flag),
    })
}

fn cap_of(alloc: Global, name: &str, value: Value) -> Result<Cap, NoMemory> {
    let name = Text::of(alloc, name)?;
    let value = value_of(alloc, value)?;
    Ok(Cap { name, value })
}

// Borrows the capabilities, so that no early return drops them.
fn put_all(alloc: Global, caps: &mut Caps) -> Option<()> {
    for (name, value) in MEMBERS {
        let cap = cap_of(alloc, name, *value).ok()?;
        caps.push(cap).ok()?;
    }
    Some(())
}

const CREATED: &str =
    "{\"value\":{\"sessionId\":\"00000000-0000-0001-0000-000000000001\",\"capabilities\":{\"grid:queueTimeout\":\"x\",\"browserName\":\"chrome\",\"setWindowRect\":true,\"goog:chromeOptions\":{\"args\":[\"--headless=new\"],\"mobileEmulation\":{\"deviceMetrics\":{\"pixelRatio\":3.0}}},\"grid:queueTimeout\":2000,\"webSocketUrl\":false}}}";

/// How long the request waits is for the hub alone.
const START: &str =
    "{\"capabilities\":{\"alwaysMatch\":{\"browserName\":\"chrome\",\"setWindowRect\":true,\"goog:chromeOptions\":{\"args\":[\"--headless=new\"],\"mobileEmulation\":{\"deviceMetrics\":{\"pixelRatio\":3.0}}},\"webSocketUrl\":false}}}";

fn is(body: Result<Bytes, NoMemory>, text: &str) -> bool {
    match body {
        Ok(body) => body.as_bytes() == text.as_bytes(),
        Err(_) => false,
    }
}

fn are_written(alloc: Global, caps: &mut Caps) -> Option<bool> {
    put_all(alloc, caps)?;
    let session = SessionId::from_bytes(b"00000000-0000-0001-0000-000000000001")?;
    let created = is(created_body(alloc, &session, caps), CREATED);
    Some(created && is(start_body(alloc, caps), START))
}

const ESCAPED: &str =
    "{\"value\":{\"error\":\"unknown error\",\"message\":\"a \\\"b\\\\c\\n\\u0001é/\",\"stacktrace\":\"\"}}";

/// Worked bodies, byte for byte. A message has what a JSON string escapes, as RFC 8259 §7 spells it.
#[test]
fn bodies_are_written(rt: HostRuntime) {
    let mut caps = Caps::new(rt.alloc());
    let written = are_written(rt.alloc(), &mut caps);
    assert!(rt; written == Some(true));
    let error = error_body(rt.alloc(), ErrorCode::UnknownError, "a \"b\\c\n\u{1}é/");
    assert!(rt; is(error, ESCAPED));
}

/// A code, its name, its status and the phrase of that.
const STATUSES: &[(ErrorCode, &str, u16, &str)] = &[
    (
        ErrorCode::InvalidArgument,
        "invalid argument",
        400,
        "Bad Request",
    ),
    (
        ErrorCode::InvalidSessionId,
        "invalid session id",
        404,
        "Not Found",
    ),
    (
        ErrorCode::UnknownCommand,
        "unknown command",
        404,
        "Not Found",
    ),
    (
        ErrorCode::UnknownMethod,
        "unknown method",
        405,
        "Method Not Allowed",
    ),
    (
        ErrorCode::SessionNotCreated,
        "session not created",
        500,
        "Internal Server Error",
    ),
    (
        ErrorCode::UnknownError,
        "unknown error",
        500,
        "Internal Server Error",
    ),
];

fn are_so(rows: &[(ErrorCode, &str, u16, &str)]) -> bool {
    for (code, name, status, phrase) in rows {
        if code.as_str() != *name || status_of(*code) != *status || phrase_of(*status) != *phrase {
            return false;
        }
    }
    true
}

/// The names and statuses of WebDriver §6.6 and the phrases of RFC 9110 §15.
#[test]
fn codes_statuses_and_phrases(rt: HostRuntime) {
    assert!(rt; are_so(STATUSES) && phrase_of(200) == "OK");
}
