//! Requests to a node in memory with its replies.
ghost use Rattle.std.specs.Prelude.{◌≡◌, true, IfOk};
ghost use Rattle.loop_node.specs.Sizes.{short_texts};

use crate::outside::parts::{is, request};
use grid_types::{NoMemory, Text};
use http_frames::{NodeReply, NodeRequest};
use loop_node::LoopNode;
use std::alloc::Global;

/// Node 2 with chrome 126.0, one slot, and one start to refuse.
pub(crate) fn node(alloc: Global) -> Result<LoopNode, NoMemory>
    ensures { IfOk result (λ n. short_texts n ≡ true) }
{
    let browser = Text::of(alloc, "chrome")?;
    let version = Text::of(alloc, "126.0")?;
    Ok(LoopNode::new(alloc, 2, browser, version, 1, 1))
}

/// A status, its phrase and a body.
type Told = (u16, &'static str, &'static str);

/// Method, target and body of a request, and what it is answered.
type Row = (&'static str, &'static str, &'static str, Told);

const FREE: Told = (
    200,
    "OK",
    "{\"value\":{\"ready\":true,\"message\":\"loop node\"}}",
);

const BUSY: Told = (
    200,
    "OK",
    "{\"value\":{\"ready\":false,\"message\":\"loop node\"}}",
);

const NULL: Told = (200, "OK", "{\"value\":null}");

const FIRST_URL: Told = (200, "OK", "{\"value\":\"about:blank\"}");

const A: Told = (200, "OK", "{\"value\":\"http://a/\"}");

const CREATED_1: Told = (
    200,
    "OK",
    "{\"value\":{\"sessionId\":\"00000000-0000-0002-0000-000000000001\",\"capabilities\":{\"browserName\":\"chrome\",\"browserVersion\":\"126.0\",\"platformName\":\"linux\"}}}",
);

const CREATED_2: Told = (
    200,
    "OK",
    "{\"value\":{\"sessionId\":\"00000000-0000-0002-0000-000000000002\",\"capabilities\":{\"browserName\":\"chrome\",\"browserVersion\":\"126.0\",\"platformName\":\"linux\"}}}",
);

const NO_OBJECT: Told = (
    400,
    "Bad Request",
    "{\"value\":{\"error\":\"invalid argument\",\"message\":\"body is not an object\",\"stacktrace\":\"\"}}",
);

const NO_STRING: Told = (
    400,
    "Bad Request",
    "{\"value\":{\"error\":\"invalid argument\",\"message\":\"url is not a string\",\"stacktrace\":\"\"}}",
);

const REFUSED: Told = (
    500,
    "Internal Server Error",
    "{\"value\":{\"error\":\"session not created\",\"message\":\"refused by script\",\"stacktrace\":\"\"}}",
);

const NO_SLOT: Told = (
    500,
    "Internal Server Error",
    "{\"value\":{\"error\":\"session not created\",\"message\":\"no free slot\",\"stacktrace\":\"\"}}",
);

const NO_SESSION: Told = (
    404,
    "Not Found",
    "{\"value\":{\"error\":\"invalid session id\",\"message\":\"no such session\",\"stacktrace\":\"\"}}",
);

const NO_COMMAND: Told = (
    404,
    "Not Found",
    "{\"value\":{\"error\":\"unknown command\",\"message\":\"no command has this path\",\"stacktrace\":\"\"}}",
);

const NO_METHOD: Told = (
    405,
    "Method Not Allowed",
    "{\"value\":{\"error\":\"unknown method\",\"message\":\"this path has no such method\",\"stacktrace\":\"\"}}",
);

/// The node's first session, its url, and the same of the second.
const ID_1: &str = "/session/00000000-0000-0002-0000-000000000001";

const URL_1: &str = "/session/00000000-0000-0002-0000-000000000001/url";

const ID_2: &str = "/session/00000000-0000-0002-0000-000000000002";

const URL_2: &str = "/session/00000000-0000-0002-0000-000000000002/url";

/// Requests to one node in order.
const ROWS: &[Row] = &[
    ("GET", "/status", "", FREE),
    // What is no object starts nothing, and is not refused by script.
    ("POST", "/session", "[]", NO_OBJECT),
    ("POST", "/session", "", NO_OBJECT),
    ("POST", "/session", "{\"a\":", NO_OBJECT),
    ("POST", "/session", "{} x", NO_OBJECT),
    ("POST", "/session", "{\"a\":1,\"a\":2}", NO_OBJECT),
    ("POST", "/session", "{}", REFUSED),
    ("POST", "/session?x", "{}", CREATED_1),
    ("POST", "/session", "{}", NO_SLOT),
    ("POST", "/session", "{\"a\":", NO_OBJECT),
    ("GET", "/status", "", BUSY),
    ("GET", "/status?full", "{\"a\":", BUSY),
    // A live session.
    ("GET", URL_1, "", FIRST_URL),
    ("POST", URL_1, "{\"url\":\"http://a/\"}", NULL),
    (
        "GET",
        "/session/00000000-0000-0002-0000-000000000001/url?q",
        "",
        A,
    ),
    // What names no url moves it nowhere.
    ("POST", URL_1, "{\"url\":1}", NO_STRING),
    ("POST", URL_1, "{\"URL\":\"http://b/\"}", NO_STRING),
    ("POST", URL_1, "[\"http://b/\"]", NO_STRING),
    ("POST", URL_1, "", NO_STRING),
    ("POST", URL_1, "{\"url\":\"http://b/\"", NO_STRING),
    (
        "POST",
        URL_1,
        "{\"url\":\"http://b/\",\"url\":\"http://b/\"}",
        NO_STRING,
    ),
    ("GET", URL_1, "", A),
    (
        "POST",
        URL_1,
        "{\"a\":{}, \"url\" : \"\\u0041\\\"\\n\"}",
        NULL,
    ),
    ("GET", URL_1, "", (200, "OK", "{\"value\":\"A\\\"\\n\"}")),
    // A session that the node does not have: the body is not read.
    ("GET", URL_2, "", NO_SESSION),
    ("POST", URL_2, "{\"url\":\"http://b/\"}", NO_SESSION),
    ("POST", URL_2, "none", NO_SESSION),
    ("DELETE", ID_2, "", NO_SESSION),
    ("DELETE", "/session/a", "", NO_SESSION),
    // A method that the path does not have: the id is not looked up.
    ("PUT", URL_1, "", NO_METHOD),
    ("PUT", URL_2, "", NO_METHOD),
    ("DELETE", URL_2, "", NO_METHOD),
    ("GET", ID_1, "", NO_METHOD),
    ("POST", ID_2, "{}", NO_METHOD),
    ("GET", "/session", "", NO_METHOD),
    ("DELETE", "/session", "", NO_METHOD),
    ("POST", "/status", "{}", NO_METHOD),
    ("get", "/status", "", NO_METHOD),
    // A path that no command has, whatever the method.
    ("POST", "/session/", "{}", NO_COMMAND),
    ("GET", "/session//url", "", NO_COMMAND),
    (
        "GET",
        "/session/00000000-0000-0002-0000-000000000001/title",
        "",
        NO_COMMAND,
    ),
    (
        "GET",
        "/session/00000000-0000-0002-0000-000000000001/url/",
        "",
        NO_COMMAND,
    ),
    ("GET", "/wd/hub/status", "", NO_COMMAND),
    ("GET", "status", "", NO_COMMAND),
    ("PUT", "/", "", NO_COMMAND),
    ("GET", "", "", NO_COMMAND),
    // The session ends once, and its slot is free for another.
    ("DELETE", ID_1, "none", NULL),
    ("DELETE", ID_1, "", NO_SESSION),
    ("GET", URL_1, "", NO_SESSION),
    ("POST", URL_1, "{\"url\":\"http://b/\"}", NO_SESSION),
    ("GET", "/status", "", FREE),
    ("POST", "/session", "{\"capabilities\":{}}", CREATED_2),
    ("GET", URL_2, "", FIRST_URL),
    ("GET", URL_1, "", NO_SESSION),
];

/// Whether it is JSON that no one is to keep, with this status, phrase and body.
fn is_told(reply: &NodeReply, told: Told) -> bool {
    let (status, phrase, body) = told;
    reply.status == status
        && reply.reason.as_bytes() == phrase.as_bytes()
        && is(&reply.content_type, "application/json; charset=utf-8")
        && reply.content_encoding.is_none()
        && is(&reply.cache_control, "no-cache")
        && reply.body.as_bytes() == body.as_bytes()
}

/// Whether the request is answered so.
fn answers(alloc: Global, node: &mut LoopNode, row: &Row) -> Option<bool> {
    let request = request(row.0.as_bytes(), row.1.as_bytes(), row.2.as_bytes());
    let reply = node.answer(alloc, &request).ok()?;
    let so = is_told(&reply, row.3);
    // Let go by a call: the check of a value that ends by itself writes out all its fields.
    drop(reply);
    Some(so)
}

fn all_are_answered(alloc: Global, node: &mut LoopNode, rows: &[Row]) -> Option<bool> {
    for row in rows {
        if !answers(alloc, node, row)? {
            return Some(false);
        }
    }
    Some(true)
}

#[test]
fn a_node_answers_each_kind_of_request(rt: HostRuntime) -> Result<(), NoMemory> {
    let mut node = node(rt.alloc())?;
    let so = all_are_answered(rt.alloc(), &mut node, ROWS);
    drop(node);
    assert!(rt; so == Some(true));
    Ok(())
}
