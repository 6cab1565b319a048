//! The responses' texts, and the call that each route makes first.
use caps_merge::{CapsFault, RegFault, RegField};
use conn_script::responses::{
    beat_refusal, caps_refusal, enqueue_refusal, no_such_session, node_not_http, node_unreachable,
    reg_refusal, registered, settled, success,
};
use conn_script::{
    Calling, Creating, Deleting, HubCall, Relaying, Run, Turn, Whole, first_turn, refusal,
};
use grid_types::{Bytes, FailWhy, Moment, NoMemory, Outcome, Text, Words};
use http_frames::{FrameFault, LIMITS, Step, next_request};
use hub_core::{Enqueued, Registering};
use json_spans::JsonFault;
use router_core::Router;
use std::alloc::Global;

const INVALID: &str = "invalid argument";

const NOT_CREATED: &str = "session not created";

const UNKNOWN: &str = "unknown error";

/// What a response is built as. None is out of memory, as everywhere here.
type Built = Result<Bytes, NoMemory>;

/// Whether the response has the body of the error.
fn says(alloc: Global, built: Built, code: &str, message: &str) -> bool {
    let body = format!(in alloc;
        "{{\"value\":{{\"error\":\"{code}\",\"message\":\"{message}\",\"stacktrace\":\"\"}}}}"
    );
    match (built, body) {
        (Ok(built), Ok(body)) => built.as_bytes().ends_with(body.as_str().as_bytes()),
        _ => false,
    }
}

const REFUSALS: &[(FrameFault, &str)] = &[
    (FrameFault::BadHead, "bad request: head"),
    (FrameFault::HeadTooLong, "bad request: head too long"),
    (FrameFault::BadLength, "bad request: length"),
    (FrameFault::BothLengths, "bad request: both lengths"),
    (FrameFault::BadChunk, "bad request: chunk"),
    (FrameFault::BodyTooLong, "bad request: body too long"),
    (FrameFault::OtherCoding, "bad request: coding"),
];

fn refusals_say(alloc: Global, rows: &[(FrameFault, &str)]) -> bool {
    for (fault, message) in rows {
        if !says(alloc, refusal(alloc, *fault), INVALID, *message) {
            return false;
        }
    }
    true
}

fn caps_say(alloc: Global, fault: &CapsFault, message: &str) -> bool {
    says(alloc, caps_refusal(alloc, fault, false), INVALID, message)
}

fn node_says(alloc: Global, fault: &RegFault, message: &str) -> bool {
    says(alloc, reg_refusal(alloc, fault, false), INVALID, message)
}

const JSON_FAULTS: &[(JsonFault, &str)] = &[
    (JsonFault::NotUtf8, "body is not UTF-8"),
    (JsonFault::Syntax { at: 3 }, "body is not JSON at byte 3"),
    (
        JsonFault::Deep { at: 127 },
        "body is nested too deep at byte 127",
    ),
    (
        JsonFault::Repeated { first: 1, again: 7 },
        "body has a name twice at byte 7",
    ),
    (
        JsonFault::Many { at: 0 },
        "body has too many members at byte 0",
    ),
];

fn json_says(alloc: Global, rows: &[(JsonFault, &str)]) -> bool {
    for (fault, message) in rows {
        let caps = caps_say(alloc, &CapsFault::NotJson(*fault), *message);
        if !caps || !node_says(alloc, &RegFault::NotJson(*fault), *message) {
            return false;
        }
    }
    true
}

/// A member that a list of capabilities may not have, or may not have again; and the message.
const MEMBERS: &[(u16, &str, &str)] = &[
    (0, "browserName", "alwaysMatch: browserName is refused"),
    (
        3,
        "pageLoadStrategy",
        "firstMatch 2: pageLoadStrategy is refused",
    ),
];

fn members_say(alloc: Global, rows: &[(u16, &str, &str)]) -> bool {
    for (list, name, message) in rows {
        let Ok(name) = Text::of(alloc, *name) else {
            return false;
        };
        let fault = CapsFault::BadMember { list: *list, name };
        if !caps_say(alloc, &fault, *message) {
            return false;
        }
    }
    true
}

fn a_clash_says(alloc: Global) -> bool {
    match Text::of(alloc, "browserName") {
        Ok(name) => caps_say(
            alloc,
            &CapsFault::Clash { entry: 0, name },
            "firstMatch 0: browserName stands in alwaysMatch too",
        ),
        Err(_) => false,
    }
}

fn capabilities_say(alloc: Global) -> bool {
    caps_say(
        alloc,
        &CapsFault::NoCapabilities,
        "capabilities is not an object",
    ) && caps_say(
        alloc,
        &CapsFault::BadFirstMatch,
        "firstMatch is not a list with an entry",
    ) && caps_say(
        alloc,
        &CapsFault::TooMany { count: 65 },
        "firstMatch has 65 entries",
    ) && caps_say(
        alloc,
        &CapsFault::TooLarge { bytes: 8_388_609 },
        "capabilities take 8388609 bytes",
    ) && caps_say(
        alloc,
        &CapsFault::BadList { list: 1 },
        "firstMatch 0 is not an object",
    )
}

const REG_FAULTS: &[(RegFault, &str)] = &[
    (
        RegFault::BadField(RegField::Body),
        "registration: body is refused",
    ),
    (
        RegFault::BadField(RegField::MaxSessions),
        "registration: maxSessions is refused",
    ),
    (
        RegFault::BadField(RegField::Stereotype),
        "registration: stereotype is refused",
    ),
    (
        RegFault::TooLarge { bytes: 16_385 },
        "registration takes 16385 bytes",
    ),
];

fn registrations_say(alloc: Global, rows: &[(RegFault, &str)]) -> bool {
    for (fault, message) in rows {
        if !node_says(alloc, fault, *message) {
            return false;
        }
    }
    true
}

const BEAT_FAULTS: &[(RegFault, &str)] = &[
    (
        RegFault::NotJson(JsonFault::Syntax { at: 3 }),
        "body is not JSON at byte 3",
    ),
    (RegFault::BadField(RegField::Body), "beat: body is refused"),
    (RegFault::BadField(RegField::Name), "beat: name is refused"),
    (
        RegFault::TooLarge { bytes: 16_385 },
        "beat takes 16385 bytes",
    ),
];

fn beats_say(alloc: Global, rows: &[(RegFault, &str)]) -> bool {
    for (fault, message) in rows {
        let built = beat_refusal(alloc, fault, false);
        if !says(alloc, built, INVALID, *message) {
            return false;
        }
    }
    true
}

#[test]
fn what_is_refused_has_its_message(rt: HostRuntime) {
    let alloc = rt.alloc();
    assert!(rt; refusals_say(alloc, REFUSALS));
    assert!(rt; json_says(alloc, JSON_FAULTS));
    assert!(rt; capabilities_say(alloc));
    assert!(rt; members_say(alloc, MEMBERS));
    assert!(rt; a_clash_says(alloc));
    assert!(rt; registrations_say(alloc, REG_FAULTS));
    assert!(rt; beats_say(alloc, BEAT_FAULTS));
}

fn node_is(alloc: Global, answer: &Registering, code: &str, message: &str) -> bool {
    says(alloc, registered(alloc, answer, false), code, message)
}

fn request_is(alloc: Global, answer: &Enqueued, code: &str, message: &str) -> bool {
    says(alloc, enqueue_refusal(alloc, answer, false), code, message)
}

fn calls_say(alloc: Global) -> bool {
    let full = Enqueued::QueueFull {
        count: 10_000,
        bytes: 20_000,
    };
    node_is(
        alloc,
        &Registering::NameTaken(2),
        INVALID,
        "name is taken by node 2",
    ) && node_is(
        alloc,
        &Registering::NodesFull { listed: 1024 },
        UNKNOWN,
        "1024 nodes are listed",
    ) && request_is(
        alloc,
        &Enqueued::Unsupported,
        NOT_CREATED,
        "no registered slot matches",
    ) && request_is(
        alloc,
        &full,
        NOT_CREATED,
        "queue is full: 10000 requests, 20000 bytes",
    ) && request_is(alloc, &Enqueued::NumbersSpent, UNKNOWN, "numbers are spent")
}

fn outcome_says(alloc: Global, outcome: &Outcome, message: &str) -> bool {
    says(
        alloc,
        settled(alloc, 2, outcome, false),
        NOT_CREATED,
        message,
    )
}

fn failures_say(alloc: Global, rows: &[(FailWhy, &str)]) -> bool {
    for (why, message) in rows {
        if !outcome_says(alloc, &Outcome::StartFailed(*why), *message) {
            return false;
        }
    }
    true
}

fn failures(alloc: Global) -> bool {
    let rows = [
        (
            FailWhy::NodeRefused(Words::cut("refused by script")),
            "start failed: refused by script",
        ),
        (FailWhy::Unreachable, "start failed: node is unreachable"),
        (FailWhy::NotHttp, "start failed: node's reply is not HTTP"),
        (
            FailWhy::BadReply,
            "start failed: node's reply names no session",
        ),
        (
            FailWhy::Mismatch,
            "start failed: node's capabilities do not match",
        ),
        (FailWhy::NodeGone, "start failed: node is gone"),
        (
            FailWhy::Duplicate,
            "start failed: node's session id is in use",
        ),
        (FailWhy::NoMemory, "start failed: hub had no memory"),
    ];
    failures_say(alloc, &rows)
}

fn outcomes_say(alloc: Global) -> bool {
    let late = Outcome::TimedOut {
        deadline: Moment(300_000),
    };
    outcome_says(alloc, &late, "request 2 timed out")
        && outcome_says(alloc, &Outcome::Cleared, "request 2 was cleared")
}

fn nodes_say(alloc: Global) -> bool {
    says(
        alloc,
        node_unreachable(alloc, false),
        UNKNOWN,
        "node is unreachable",
    ) && says(
        alloc,
        node_not_http(alloc, false),
        UNKNOWN,
        "node's reply is not HTTP",
    )
}

/// Whether the response is just these bytes.
fn is_whole(built: Built, wanted: &[u8]) -> bool {
    match built {
        Ok(built) => built.as_bytes() == wanted,
        Err(_) => false,
    }
}

const NO_SESSION: &[u8] =
    b"HTTP/1.1 404 Not Found\r\nContent-Type: application/json; charset=utf-8\r\nCache-Control: no-cache\r\nContent-Length: 84\r\nConnection: close\r\n\r\n{\"value\":{\"error\":\"invalid session id\",\"message\":\"no such session\",\"stacktrace\":\"\"}}";

const NULL: &[u8] =
    b"HTTP/1.1 200 OK\r\nContent-Type: application/json; charset=utf-8\r\nCache-Control: no-cache\r\nContent-Length: 14\r\n\r\n{\"value\":null}";

/// The heads too.
fn are_whole(alloc: Global) -> bool {
    is_whole(no_such_session(alloc, true), NO_SESSION)
        && is_whole(success(alloc, "null", false), NULL)
}

#[test]
fn what_became_of_a_call_has_its_message(rt: HostRuntime) {
    let alloc = rt.alloc();
    assert!(rt; calls_say(alloc));
    assert!(rt; failures(alloc));
    assert!(rt; outcomes_say(alloc));
    assert!(rt; nodes_say(alloc));
    assert!(rt; are_whole(alloc));
}

fn named_beat(name: &Text) -> &'static str {
    if name.as_str() == "n2" {
        "beat 7 as n2"
    } else {
        "beat 7 under another name"
    }
}

/// The name of the call that is made first.
fn call_of(call: &HubCall) -> &'static str {
    match call {
        HubCall::Register(_) => "register",
        HubCall::Beat(7) => "beat 7",
        HubCall::BeatAs(7, name) => named_beat(name),
        HubCall::Drain(7) => "drain 7",
        HubCall::Remove(7) => "remove 7",
        HubCall::Enqueue(_) => "enqueue",
        HubCall::Lookup(_) => "lookup",
        HubCall::Clear => "clear",
        HubCall::View => "view",
        _ => "something else",
    }
}

fn status_of(response: &[u8]) -> &'static str {
    if response.starts_with(b"HTTP/1.1 400") {
        "400"
    } else if response.starts_with(b"HTTP/1.1 404") {
        "404"
    } else if response.starts_with(b"HTTP/1.1 405") {
        "405"
    } else {
        "something else"
    }
}

fn run_of(run: &Run) -> &'static str {
    match run {
        Run::Calling(Calling::Ask(call, _)) => call_of(call),
        Run::Deleting(Deleting::Lookup(_)) => "end",
        Run::Relaying(Relaying::Lookup(_, _)) => "relay",
        Run::Creating(Creating::Enqueue(_)) => "enqueue",
        _ => "something else",
    }
}

fn first_of(turn: &Turn) -> &'static str {
    match turn {
        Turn::Go(run, _) => run_of(run),
        Turn::Respond(bytes) => status_of(bytes.as_bytes()),
        _ => "something else",
    }
}

/// What the request asks for first.
fn asked_by(alloc: Global, router: &Router, text: &[u8], body: &[u8]) -> &'static str {
    match next_request(text, LIMITS) {
        Step::Whole(frame, _) => {
            let whole = Whole {
                method: frame.method,
                target: frame.target,
                head: frame.head,
                body,
            };
            first_of(&first_turn(alloc, router, whole, false))
        }
        _ => "no request",
    }
}

const BEAT: &[u8] = b"POST /se/grid/distributor/node/7/beat HTTP/1.1\r\nHost: h\r\n\r\n";

/// Requests with their bodies, and what each asks for first.
const ROUTES: &[(&[u8], &[u8], &str)] = &[
    (
        b"POST /session HTTP/1.1\r\nHost: h\r\n\r\n",
        b"{\"capabilities\":{}}",
        "enqueue",
    ),
    (
        b"POST /wd/hub/session HTTP/1.1\r\nHost: h\r\n\r\n",
        b"{\"capabilities\":{}}",
        "enqueue",
    ),
    (b"POST /session HTTP/1.1\r\nHost: h\r\n\r\n", b"{}", "400"),
    (b"DELETE /session/a HTTP/1.1\r\nHost: h\r\n\r\n", b"", "end"),
    (
        b"DELETE /session/a%20b HTTP/1.1\r\nHost: h\r\n\r\n",
        b"",
        "404",
    ),
    (
        b"GET /session/a/url HTTP/1.1\r\nHost: h\r\n\r\n",
        b"",
        "relay",
    ),
    (b"GET /status HTTP/1.1\r\nHost: h\r\n\r\n", b"", "view"),
    (
        b"GET /se/grid/newsessionqueue/queue HTTP/1.1\r\nHost: h\r\n\r\n",
        b"",
        "view",
    ),
    (
        b"DELETE /se/grid/newsessionqueue/queue HTTP/1.1\r\nHost: h\r\n\r\n",
        b"",
        "clear",
    ),
    (BEAT, b"", "beat 7"),
    (BEAT, b"{\"name\":\"n2\"}", "beat 7 as n2"),
    (
        BEAT,
        b" { \"more\" : [] , \"name\" : \"\\u006e2\" } ",
        "beat 7 as n2",
    ),
    (BEAT, b"{}", "400"),
    (BEAT, b"[]", "400"),
    (BEAT, b"{\"name\":7}", "400"),
    (BEAT, b"{\"name\":\"n 2\"}", "400"),
    (BEAT, b"{\"name\":\"\"}", "400"),
    (BEAT, b" ", "400"),
    (
        b"POST /se/grid/distributor/node/7/drain HTTP/1.1\r\nHost: h\r\n\r\n",
        b"",
        "drain 7",
    ),
    (
        b"DELETE /se/grid/distributor/node/7 HTTP/1.1\r\nHost: h\r\n\r\n",
        b"",
        "remove 7",
    ),
    (
        b"POST /se/grid/distributor/node/07/beat HTTP/1.1\r\nHost: h\r\n\r\n",
        b"",
        "400",
    ),
    (
        b"POST /se/grid/distributor/node HTTP/1.1\r\nHost: h\r\n\r\n",
        b"[]",
        "400",
    ),
    (b"PUT /session HTTP/1.1\r\nHost: h\r\n\r\n", b"", "405"),
    (b"GET /nothing HTTP/1.1\r\nHost: h\r\n\r\n", b"", "404"),
];

fn all_make(alloc: Global, router: &Router, rows: &[(&[u8], &[u8], &str)]) -> bool {
    for (text, body, asked) in rows {
        if asked_by(alloc, router, text, body) != *asked {
            return false;
        }
    }
    true
}

/// Each route makes its call, and what has none is answered at once.
#[test]
fn routes_make_their_calls(rt: HostRuntime) -> Result<(), NoMemory> {
    let router = Router::new(rt.alloc())?;
    assert!(rt; all_make(rt.alloc(), &router, ROUTES));
    Ok(())
}
