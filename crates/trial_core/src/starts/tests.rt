//! Worked starts at nodes in memory.
ghost use Rattle.std.specs.Prelude.{◌≡◌, true, IfOk};
ghost use Rattle.grid_types.specs.Permitted.{is_well_sized};
ghost use Rattle.hub_core.specs.HubView.{past};
ghost use Rattle.trial_core.specs.Carried.{IsGoodTicket};

use crate::starts::carry_out;
use caps_merge::process;
use grid_outside::{Clock, Exchange, MemClock, MemNodes, NodeReply, Reply};
use grid_types::{
    Bytes, Cap, CapValue, Caps, FailWhy, Groups, HubConfig, Moment, NoMemory, NodeAddress, Outcome,
    Registration, SessionId, SlotGroup, Text,
};
use hub_core::{Enqueued, LocalHub, Polled, Registering, Ticket};
use std::alloc::Global;
use std::process::Abort;
use wd_bodies::caps_text;

/// Requests on a hub of one or two nodes at `x:1` and `x:2`, each with one slot of the browser
/// `chrome`.
struct Row {
    nodes: usize,
    /// The bodies of the requests, one after the other.
    requests: &'static [&'static str],
    /// Whether node 1 is drained before the second request.
    drains: bool,
    /// What the nodes reply in turn: a status, 0 for what is no HTTP, and a body in pieces. Behind
    /// these they are unreachable.
    replies: &'static [(u16, &'static [&'static str])],
    /// What becomes of the requests, and then what the nodes were asked.
    told: &'static [&'static str],
}

const CHROME: &str = "{\"capabilities\":{\"alwaysMatch\":{\"browserName\":\"chrome\"}}}";

const OPTIONS: &str =
    "{\"capabilities\": {\"firstMatch\": [{\"browserName\": \"chrome\", \"goog:chromeOptions\": {\"args\": [\"--headless=new\"], \"mobileEmulation\": {\"deviceMetrics\": {\"pixelRatio\": 3.0}}}}]}}";

const ANY: &str = "{\"capabilities\":{}}";

const NAMES_A: &str =
    "{\"value\":{\"sessionId\":\"a\",\"capabilities\":{\"browserName\":\"chrome\"}}}";

const REPEATS: &str =
    "{\"value\":{\"sessionId\":\"a\",\"capabilities\":{\"browserName\":\"chrome\",\"browserName\":\"chrome\"}}}";

const FIREFOX: &str =
    "{\"value\":{\"sessionId\":\"a\",\"capabilities\":{\"browserName\":\"firefox\"}}}";

const BAD_NAME: &str = "{\"value\":{\"sessionId\":\"a b\",\"capabilities\":{}}}";

const TWO_NAMES: &str = "{\"value\":{\"sessionId\":\"a\",\"sessionId\":\"a\",\"message\":\"m\"}}";

const REFUSED: &str = "{\"value\":{\"message\":\"refused by script\"}}";

const DONE: &str = "{\"value\":null}";

const X100: &str =
    "xxxxxxxxxxxxxxxxxxxxxxxxxxxxxxxxxxxxxxxxxxxxxxxxxxxxxxxxxxxxxxxxxxxxxxxxxxxxxxxxxxxxxxxxxxxxxxxxxxxx";

const CREATED: &str = "created a {\"browserName\":\"chrome\"}; ";

const ASKS_1: &str =
    "POST x:1/session {\"capabilities\":{\"alwaysMatch\":{\"browserName\":\"chrome\"}}}; ";

const ASKS_2: &str =
    "POST x:2/session {\"capabilities\":{\"alwaysMatch\":{\"browserName\":\"chrome\"}}}; ";

const ASKS_OPTIONS: &str =
    "POST x:1/session {\"capabilities\":{\"alwaysMatch\":{\"browserName\":\"chrome\",\"goog:chromeOptions\":{\"args\":[\"--headless=new\"],\"mobileEmulation\":{\"deviceMetrics\":{\"pixelRatio\":3.0}}}}}}; ";

const ASKS_ANY: &str = "POST x:1/session {\"capabilities\":{\"alwaysMatch\":{}}}; ";

const ENDS_1: &str = "DELETE x:1/session/a ; ";

const ENDS_2: &str = "DELETE x:2/session/a ; ";

const ROWS: &[Row] = &[
    Row {
        nodes: 1,
        requests: &[OPTIONS],
        drains: false,
        replies: &[(200, &[NAMES_A])],
        told: &[CREATED, ASKS_OPTIONS],
    },
    Row {
        nodes: 2,
        requests: &[CHROME],
        drains: false,
        replies: &[(500, &[REFUSED]), (200, &[NAMES_A])],
        told: &[CREATED, ASKS_1, ASKS_2],
    },
    Row {
        nodes: 1,
        requests: &[CHROME, CHROME],
        drains: false,
        replies: &[(500, &[REFUSED]), (200, &[NAMES_A])],
        told: &["refused by script; ", CREATED, ASKS_1, ASKS_1],
    },
    Row {
        nodes: 1,
        requests: &[CHROME],
        drains: false,
        replies: &[(200, &[FIREFOX]), (200, &[DONE])],
        told: &["mismatch; ", ASKS_1, ENDS_1],
    },
    Row {
        nodes: 1,
        requests: &[CHROME],
        drains: false,
        replies: &[(200, &[BAD_NAME])],
        told: &["bad reply; ", ASKS_1],
    },
    Row {
        nodes: 1,
        requests: &[CHROME],
        drains: false,
        replies: &[(200, &[REPEATS])],
        told: &["mismatch; ", ASKS_1, ENDS_1],
    },
    Row {
        nodes: 1,
        requests: &[ANY],
        drains: false,
        replies: &[(200, &[REPEATS])],
        told: &["created a {}; ", ASKS_ANY],
    },
    Row {
        nodes: 1,
        requests: &[CHROME],
        drains: false,
        replies: &[(
            500,
            &["{\"value\":{\"message\":\"", X100, X100, X100, "\"}}"],
        )],
        told: &[X100, X100, "; ", ASKS_1],
    },
    Row {
        nodes: 1,
        requests: &[CHROME],
        drains: false,
        replies: &[(200, &["null"])],
        told: &["bad reply; ", ASKS_1],
    },
    Row {
        nodes: 2,
        requests: &[CHROME, CHROME],
        drains: false,
        replies: &[(200, &[NAMES_A]), (200, &[NAMES_A]), (200, &[DONE])],
        told: &[CREATED, "timed out; ", ASKS_1, ASKS_2, ENDS_2],
    },
    Row {
        nodes: 2,
        requests: &[CHROME, CHROME],
        drains: true,
        replies: &[(200, &[NAMES_A]), (200, &[NAMES_A]), (200, &[DONE])],
        told: &[CREATED, "duplicate; ", ASKS_1, ASKS_2, ENDS_2],
    },
    Row {
        nodes: 1,
        requests: &[CHROME],
        drains: false,
        replies: &[(201, &[NAMES_A])],
        told: &["bad reply; ", ASKS_1],
    },
    Row {
        nodes: 1,
        requests: &[CHROME],
        drains: false,
        replies: &[(200, &[TWO_NAMES])],
        told: &["bad reply; ", ASKS_1],
    },
    Row {
        nodes: 1,
        requests: &[CHROME],
        drains: false,
        replies: &[(0, &["SSH-2.0"])],
        told: &["not HTTP; ", ASKS_1],
    },
    Row {
        nodes: 1,
        requests: &[CHROME],
        drains: false,
        replies: &[],
        told: &["unreachable; ", ASKS_1],
    },
];

fn chrome(alloc: Global) -> Result<Caps, NoMemory> {
    let mut caps = Caps::new(alloc);
    let cap = Cap {
        name: Text::of(alloc, "browserName")?,
        value: CapValue::Text(Text::of(alloc, "chrome")?),
    };
    match caps.push(cap) {
        Ok(()) => Ok(caps),
        Err(_) => Err(NoMemory),
    }
}

/// A node with one slot of the browser `chrome`.
fn chrome_node(alloc: Global, name: &str) -> Result<Registration, NoMemory>
    ensures { IfOk result (λ r. is_well_sized r ≡ true) }
{
    let mut groups = Groups::new(alloc);
    let stereotype = chrome(alloc)?;
    let Ok(()) = groups.push(SlotGroup {
        stereotype,
        count: 1,
    }) else {
        return Err(NoMemory);
    };
    Ok(Registration::new(
        Text::of(alloc, name)?,
        NodeAddress::from_bytes(name.as_bytes()).ok_or(NoMemory)?,
        1,
        groups,
    ))
}

fn push(text: &mut String, piece: &str) -> Result<(), NoMemory> {
    match text.push_str(piece) {
        Ok(()) => Ok(()),
        Err(_) => Err(NoMemory),
    }
}

fn push_all(text: &mut String, pieces: &[&str]) -> Result<(), NoMemory> {
    for piece in pieces {
        push(text, piece)?;
    }
    Ok(())
}

fn http(alloc: Global, status: u16, body: &str) -> Result<Reply, NoMemory> {
    Ok(Reply::Http(NodeReply {
        status,
        reason: Bytes::of(alloc, b"R")?,
        content_type: None,
        content_encoding: None,
        cache_control: None,
        body: Bytes::of(alloc, body.as_bytes())?,
    }))
}

fn reply_of(alloc: Global, status: u16, pieces: &[&str]) -> Result<Reply, NoMemory> {
    let mut body = String::new(alloc);
    push_all(&mut body, pieces)?;
    match status {
        0 => Ok(Reply::NotHttp(Bytes::of(alloc, body.as_bytes())?)),
        _ => http(alloc, status, body.as_str()),
    }
}

fn add_replies(alloc: Global, nodes: &mut MemNodes, row: &Row) -> Result<(), NoMemory> {
    for (status, body) in row.replies {
        let reply = reply_of(alloc, *status, body)?;
        let Ok(()) = nodes.push(reply) else {
            return Err(NoMemory);
        };
    }
    Ok(())
}

fn register(alloc: Global, hub: &mut LocalHub, name: &str) -> Result<(), NoMemory> {
    let node = chrome_node(alloc, name)?;
    hub.room()?;
    match hub.register(node, Moment(0)) {
        Registering::Registered(_) => Ok(()),
        _ => Err(NoMemory),
    }
}

fn register_all(alloc: Global, hub: &mut LocalHub, names: &[&str]) -> Result<(), NoMemory> {
    for name in names {
        register(alloc, hub, name)?;
    }
    Ok(())
}

/// One poll: Ok where the request waits on, Err with its outcome.
fn round(
    alloc: Global,
    ticket: Ticket,
    hub: &mut LocalHub,
    nodes: &mut MemNodes,
    clock: &mut MemClock,
) -> Result<Ticket, Outcome>
    requires { IsGoodTicket (past hub.old) ticket }
    ensures { IfOk result (λ t. IsGoodTicket (past hub.new) t) }
{
    let at = clock.now();
    match hub.poll(ticket, at) {
        Polled::NotYet(ticket) => {
            clock.pause(100_000);
            Ok(ticket)
        }
        Polled::Memory(ticket) => Ok(ticket),
        Polled::Yours(ticket, reservation) => {
            carry_out(alloc, reservation, hub, nodes, clock);
            Ok(ticket)
        }
        Polled::Settled(outcome) => Err(outcome),
    }
}

fn settle(
    alloc: Global,
    first: Ticket,
    hub: &mut LocalHub,
    nodes: &mut MemNodes,
    clock: &mut MemClock,
) -> Result<Outcome, NoMemory>
    requires { IsGoodTicket (past hub.old) first }
{
    let mut ticket = first;
    for _ in 0..20 {
        match round(alloc, ticket, hub, nodes, clock) {
            Ok(waiting) => ticket = waiting,
            Err(outcome) => return Ok(outcome),
        }
    }
    Err(NoMemory)
}

fn outcome_of(
    alloc: Global,
    body: &str,
    hub: &mut LocalHub,
    nodes: &mut MemNodes,
    clock: &mut MemClock,
) -> Result<Outcome, NoMemory> {
    let Ok(choices) = process(alloc, body.as_bytes()) else {
        return Err(NoMemory);
    };
    hub.room()?;
    let Enqueued::Queued(ticket) = hub.enqueue(choices, clock.now()) else {
        return Err(NoMemory);
    };
    settle(alloc, ticket, hub, nodes, clock)
}

fn name_of(why: &FailWhy) -> &str {
    match why {
        FailWhy::NodeRefused(words) => words.as_str(),
        FailWhy::Unreachable => "unreachable",
        FailWhy::NotHttp => "not HTTP",
        FailWhy::BadReply => "bad reply",
        FailWhy::Mismatch => "mismatch",
        FailWhy::NodeGone => "node gone",
        FailWhy::Duplicate => "duplicate",
        FailWhy::Late => "late",
        FailWhy::NoMemory => "no memory",
    }
}

fn str_of(bytes: &[u8]) -> &str {
    std::str::from_utf8(bytes).unwrap_or("")
}

fn push_created(
    alloc: Global,
    told: &mut String,
    session: &SessionId,
    caps: &Caps,
) -> Result<(), NoMemory> {
    let session = str_of(session.as_bytes());
    let caps = caps_text(alloc, caps)?;
    match format!(in alloc; "created {session} {}; ", caps.as_str()) {
        Ok(text) => push(told, text.as_str()),
        Err(_) => Err(NoMemory),
    }
}

fn push_cause(told: &mut String, why: &FailWhy) -> Result<(), NoMemory> {
    push(told, name_of(why))?;
    push(told, "; ")
}

fn push_outcome(alloc: Global, told: &mut String, outcome: &Outcome) -> Result<(), NoMemory> {
    match outcome {
        Outcome::Created { session, caps, .. } => push_created(alloc, told, session, caps),
        Outcome::TimedOut { .. } => push(told, "timed out; "),
        Outcome::StartFailed(why) => push_cause(told, why),
        Outcome::Cleared => push(told, "cleared; "),
    }
}

fn push_ask(alloc: Global, told: &mut String, exchange: &Exchange) -> Result<(), NoMemory> {
    let ask = &exchange.ask;
    match format!(in alloc;
        "{} {}{} {}; ",
        str_of(ask.method.as_bytes()),
        str_of(exchange.address.as_bytes()),
        str_of(ask.target.as_bytes()),
        str_of(ask.body.as_bytes())
    ) {
        Ok(text) => push(told, text.as_str()),
        Err(_) => Err(NoMemory),
    }
}

/// What the nodes were asked.
fn push_asks(alloc: Global, told: &mut String, made: &[Exchange]) -> Result<(), NoMemory> {
    for exchange in made {
        push_ask(alloc, told, exchange)?;
    }
    Ok(())
}

fn drain(hub: &mut LocalHub, clock: &mut MemClock) -> Result<(), NoMemory> {
    hub.room()?;
    hub.drain(1, clock.now());
    Ok(())
}

/// Makes the request, and tells what becomes of it.
fn tell(
    alloc: Global,
    body: &str,
    hub: &mut LocalHub,
    nodes: &mut MemNodes,
    clock: &mut MemClock,
    told: &mut String,
) -> Result<(), NoMemory> {
    let outcome = outcome_of(alloc, body, hub, nodes, clock)?;
    push_outcome(alloc, told, &outcome)
}

fn tell_all(
    alloc: Global,
    row: &Row,
    hub: &mut LocalHub,
    nodes: &mut MemNodes,
    clock: &mut MemClock,
    told: &mut String,
) -> Result<(), NoMemory> {
    for (i, body) in row.requests.iter().enumerate() {
        if i == 1 && row.drains {
            drain(hub, clock)?;
        }
        tell(alloc, body, hub, nodes, clock, told)?;
    }
    push_asks(alloc, told, nodes.made())
}

/// Plays the row over this hub, and tells what comes of it.
fn play(alloc: Global, row: &Row, hub: &mut LocalHub, told: &mut String) -> Result<(), NoMemory> {
    register_all(alloc, hub, &["x:1", "x:2"][..row.nodes.min(2)])?;
    let mut nodes = MemNodes::new(alloc, Vec::new(alloc));
    add_replies(alloc, &mut nodes, row)?;
    tell_all(
        alloc,
        row,
        hub,
        &mut nodes,
        &mut MemClock::new(Moment(0)),
        told,
    )
}

/// Over a hub of its own.
fn play_alone(alloc: Global, row: &Row, told: &mut String) -> Result<(), NoMemory> {
    let mut hub = LocalHub::new(alloc, HubConfig::default())?;
    play(alloc, row, &mut hub, told)
}

fn goes_so(alloc: Global, row: &Row) -> Result<bool, NoMemory> {
    let mut told = String::new(alloc);
    play_alone(alloc, row, &mut told)?;
    let mut wanted = String::new(alloc);
    push_all(&mut wanted, row.told)?;
    Ok(told.as_str() == wanted.as_str())
}

fn go_so(rt: &impl Abort, alloc: Global, rows: &[Row]) -> Result<(), NoMemory> {
    for row in rows {
        let so = goes_so(alloc, row)?;
        assert!(rt; so, "{}", row.told.first().copied().unwrap_or(""));
    }
    Ok(())
}

/// What becomes of requests by what the nodes reply, and what the nodes are asked.
#[test]
fn replies_decide(rt: HostRuntime) -> Result<(), NoMemory> {
    go_so(&rt, rt.alloc(), ROWS)
}
