//! The programs by a configuration: hub and node over a door in memory that is closed, a driver over nodes in memory.
use crate::tests::words;
use grid_config::{KeptInput, MOST_TEXT_BYTES, attach_config_main, config_main};
use grid_outside::{
    Clock, Door, Exchange, MemClock, MemDoor, MemNodes, MemSource, NodeLink, NodeReply, Reply,
    Source,
};
use grid_types::{Bytes, Moment, Text};
use std::alloc::Global;
use std::sync::Wait;
use std::thread::Threads;

/// What a program is run by: its words, the text, the read and the bind that fail. And what comes of it: the status, the
/// port at which the door is bound, and how many bytes of the input are kept.
type Case = (
    &'static [&'static str],
    &'static str,
    Option<u64>,
    Option<u64>,
    (u8, Option<u16>, usize),
);

const PORT_4445: &str = "[server]\nport = 4445\n[distributor]\nreject-unsupported-caps = true\n";

const CASES: &[Case] = &[
    (&["hub"], PORT_4445, None, None, (0, Some(4_445), 66)),
    (&["hub"], "", None, None, (0, Some(4_444), 0)),
    (&["hub"], "[server]\nport = 0\n", None, None, (9, None, 18)),
    (&["hub"], PORT_4445, Some(1), None, (10, None, 8)),
    (&["hub"], PORT_4445, None, Some(0), (3, None, 66)),
    (
        &["node"],
        "[node]\nhub = 'nowhere'\n",
        None,
        Some(0),
        (3, None, 23),
    ),
    (
        &["node"],
        "[server]\nhandlers = 1\n",
        None,
        None,
        (9, None, 22),
    ),
    (&["attach"], "", None, None, (8, None, 0)),
    (&["x"], "", None, None, (8, None, 0)),
    (&[], "", None, None, (8, None, 0)),
    (&["hub", "hub"], "", None, None, (8, None, 0)),
];

/// The numbers of the calls that fail.
fn failing(alloc: Global, call: Option<u64>) -> Option<Vec<u64>> {
    let mut calls = Vec::new(alloc);
    if let Some(call) = call {
        calls.push(call).ok()?;
    }
    Some(calls)
}

/// The status over any ends, of which a trial asks no clause.
fn status_over<R: Threads + Wait + Sync, S: Source, D: Door>(
    rt: &R,
    alloc: Global,
    words: &[Text],
    input: &mut S,
    door: &mut D,
) -> u8 {
    config_main(rt, alloc, words, input, door)
}

fn is_so<R: Threads + Wait + Sync>(rt: &R, alloc: Global, case: &Case) -> Option<bool> {
    let (given, text, read, bind, wanted) = *case;
    let words = words(alloc, given)?;
    let bytes = Bytes::of(alloc, text.as_bytes()).ok()?;
    let source = MemSource::new(bytes, 8, failing(alloc, read)?);
    let mut input = KeptInput::new(alloc, source);
    let mut door = MemDoor::new(alloc, Moment(0), failing(alloc, bind)?);
    let status = status_over(rt, alloc, words.as_slice(), &mut input, &mut door);
    let kept = input.kept().unwrap_or(b"no copy");
    Some((status, door.port(), kept.len()) == wanted && text.as_bytes().starts_with(kept))
}

fn are_so<R: Threads + Wait + Sync>(rt: &R, alloc: Global, cases: &[Case]) -> bool {
    for case in cases {
        if is_so(rt, alloc, case) != Some(true) {
            return false;
        }
    }
    true
}

fn status_of_line_feeds<R: Threads + Wait + Sync>(
    rt: &R,
    alloc: Global,
    count: usize,
) -> Option<u8> {
    let words = words(alloc, &["hub"])?;
    let mut text = Vec::new(alloc);
    text.resize(count, b'\n').ok()?;
    let source = MemSource::new(Bytes::from_vec(text), 10_000, Vec::new(alloc));
    let mut input = KeptInput::new(alloc, source);
    let mut door = MemDoor::new(alloc, Moment(0), Vec::new(alloc));
    Some(status_over(rt, alloc, words.as_slice(), &mut input, &mut door))
}

/// A hub listens where its configuration says; a fault of the text, a failed read and other words leave the door unbound. A text has
/// at most 65,536 bytes.
#[test]
fn programs_run_by_their_configurations(rt: HostRuntime) {
    let alloc = rt.alloc();
    assert!(rt; are_so(&rt, alloc, CASES));
    assert!(rt; status_of_line_feeds(&rt, alloc, MOST_TEXT_BYTES) == Some(0));
    assert!(rt; status_of_line_feeds(&rt, alloc, MOST_TEXT_BYTES + 1) == Some(9));
}

const DRIVER: &str = "[node]\nhub = 'hub:80'\ndriver = 'd:9515'\nname = 'd'\nslots = 2\n";

/// A text, the read that fails, the status, and how many exchanges were made.
const DRIVERS: &[(&str, Option<u64>, u8, usize)] = &[
    (DRIVER, None, 0, 2),
    ("[node]\nslots = 65\n", None, 9, 0),
    (DRIVER, Some(0), 10, 0),
];

const REGISTRATION: &str =
    "{\"name\":\"d\",\"address\":\"d:9515\",\"maxSessions\":2,\"slots\":[{\"count\":2,\"stereotype\":{\"browserName\":\"chrome\",\"platformName\":\"linux\"}}]}";

fn reply(alloc: Global, body: &[u8]) -> Option<Reply> {
    Some(Reply::Http(NodeReply {
        status: 200,
        reason: Bytes::of(alloc, b"").ok()?,
        content_type: None,
        content_encoding: None,
        cache_control: None,
        body: Bytes::of(alloc, body).ok()?,
    }))
}

/// The driver and the hub answer once each.
fn fill(alloc: Global, nodes: &mut MemNodes) -> Option<()> {
    nodes.push(reply(alloc, b"")?).ok()?;
    nodes.push(reply(alloc, b"{\"value\":{\"node\":7}}")?).ok()
}

fn are_asked(made: &[Exchange]) -> bool {
    match made {
        [first, second] => {
            first.address.as_bytes() == b"d:9515".as_slice()
                && second.address.as_bytes() == b"hub:80".as_slice()
                && second.ask.body.as_bytes() == REGISTRATION.as_bytes()
        }
        _ => false,
    }
}

/// The status of one look over any ends, of which a trial asks no clause.
fn attached<S: Source, N: NodeLink, C: Clock>(
    alloc: Global,
    input: &mut S,
    nodes: &mut N,
    clock: &mut C,
) -> u8 {
    attach_config_main(alloc, input, nodes, clock, 1)
}

fn status(alloc: Global, text: &str, fails: Option<u64>, nodes: &mut MemNodes) -> Option<u8> {
    fill(alloc, nodes)?;
    let bytes = Bytes::of(alloc, text.as_bytes()).ok()?;
    let mut input = MemSource::new(bytes, 100, failing(alloc, fails)?);
    let mut clock = MemClock::new(Moment(0));
    Some(attached(alloc, &mut input, nodes, &mut clock))
}

fn are_attached(alloc: Global, rows: &[(&str, Option<u64>, u8, usize)]) -> bool {
    for (text, fails, wanted, asked) in rows {
        let mut nodes = MemNodes::new(alloc, Vec::new(alloc));
        let found = status(alloc, *text, *fails, &mut nodes);
        if found != Some(*wanted) || nodes.made().len() != *asked {
            return false;
        }
        if *asked > 0 && !are_asked(nodes.made()) {
            return false;
        }
    }
    true
}

/// A driver is registered as its configuration says; where the text has a fault or was not read nobody is asked.
#[test]
fn a_driver_is_attached_by_its_configuration(rt: HostRuntime) {
    assert!(rt; are_attached(rt.alloc(), DRIVERS));
}
