//! A driver that is put behind a hub, both in memory.
use crate::programs::lists::list;
use grid_attach::{attach, attach_main};
use grid_outside::{Clock, Exchange, MemClock, MemNodes, NodeLink, NodeReply, Reply};
use grid_types::{Bytes, Moment, NodeNo, Text};
use server_words::attach_words;
use std::alloc::Global;

/// A status and a body.
type Answer = (u16, &'static str);

fn reply(alloc: Global, answer: &Answer) -> Option<Reply> {
    let (status, body) = *answer;
    Some(Reply::Http(NodeReply {
        status,
        reason: Bytes::of(alloc, b"").ok()?,
        content_type: None,
        content_encoding: None,
        cache_control: None,
        body: Bytes::of(alloc, body.as_bytes()).ok()?,
    }))
}

fn answer(alloc: Global, nodes: &mut MemNodes, answers: &[Answer]) -> Option<()> {
    for answer in answers {
        nodes.push(reply(alloc, answer)?).ok()?;
    }
    Some(())
}

/// So many looks over any ends, of which a trial asks no clause: Ok where the words and the memory do.
fn attached<N: NodeLink, C: Clock>(
    alloc: Global,
    words: &[Text],
    nodes: &mut N,
    clock: &mut C,
    looks: u64,
) -> bool {
    attach_main(alloc, words, nodes, clock, looks).is_ok()
}

/// Looks at a driver five times, as these words say.
fn five_looks<N: NodeLink, C: Clock>(
    alloc: Global,
    words: &[Text],
    nodes: &mut N,
    clock: &mut C,
) -> Option<Option<NodeNo>> {
    let said = attach_words(alloc, words).ok()?;
    attach(alloc, nodes, clock, &said, 5).ok()
}

const FIVE_LOOKS: &[Answer] = &[
    (500, ""),
    (200, ""),
    (200, "{\"value\":{\"node\":7}}"),
    (200, ""),
    (200, "{\"value\":null}"),
    (200, ""),
    (400, ""),
    (200, ""),
    (200, "{\"value\":{\"node\":8}}"),
];

fn looks(alloc: Global, nodes: &mut MemNodes, clock: &mut MemClock) -> Option<bool> {
    answer(alloc, nodes, FIVE_LOOKS)?;
    let number = five_looks(alloc, &[], nodes, clock)?;
    Some(
        number == Some(8)
            && nodes.made().len() == 9
            && clock.paused_ms() == 1_000 + 30_000 + 30_000 + 1_000 + 30_000,
    )
}

/// The driver is not ready at first, then it is registered and a beat is taken; the hub refuses the next beat, and the driver
/// is registered again.
#[test]
fn a_driver_is_put_behind_the_hub(rt: HostRuntime) {
    let alloc = rt.alloc();
    let mut nodes = MemNodes::new(alloc, Vec::new(alloc));
    let mut clock = MemClock::new(Moment(0));
    assert!(rt; looks(alloc, &mut nodes, &mut clock) == Some(true));
}

const REFUSED_BEAT: &[Answer] = &[
    (200, ""),
    (200, "{\"value\":{\"node\":7}}"),
    (200, ""),
    (400, ""),
];

fn ends(alloc: Global, nodes: &mut MemNodes, clock: &mut MemClock) -> Option<bool> {
    answer(alloc, nodes, REFUSED_BEAT)?;
    let words = list(alloc, &["--once"])?;
    let number = five_looks(alloc, words.as_slice(), nodes, clock)?;
    Some(number.is_none() && nodes.made().len() == 4 && clock.paused_ms() == 30_000)
}

/// One that is to be there once ends where its beat is refused.
#[test]
fn a_driver_is_there_once(rt: HostRuntime) {
    let alloc = rt.alloc();
    let mut nodes = MemNodes::new(alloc, Vec::new(alloc));
    let mut clock = MemClock::new(Moment(0));
    assert!(rt; ends(alloc, &mut nodes, &mut clock) == Some(true));
}

const ONE_LOOK: &[Answer] = &[(200, ""), (200, "{\"value\":{\"node\":7}}")];

const REGISTRATION: &str =
    "{\"name\":\"d\",\"address\":\"127.0.0.1:9515\",\"maxSessions\":2,\"slots\":[{\"count\":2,\"stereotype\":{\"browserName\":\"chrome\",\"browserVersion\":\"126.0\",\"platformName\":\"linux\",\"acme:build\":7,\"acme:team\":\"red\"}}]}";

fn are_asked(made: &[Exchange]) -> bool {
    match made {
        [first, second] => {
            first.address.as_bytes() == b"127.0.0.1:9515".as_slice()
                && second.address.as_bytes() == b"127.0.0.1:4444".as_slice()
                && second.ask.body.as_bytes() == REGISTRATION.as_bytes()
        }
        _ => false,
    }
}

const WORDS: &[&str] = &[
    "--name",
    "d",
    "--browser-version",
    "126.0",
    "--slots=2",
    "--capability",
    "acme:build=7",
    "--capability=acme:team=red",
];

fn registers(alloc: Global, nodes: &mut MemNodes) -> Option<bool> {
    answer(alloc, nodes, ONE_LOOK)?;
    let words = list(alloc, WORDS)?;
    let mut clock = MemClock::new(Moment(0));
    let is_attached = attached(alloc, words.as_slice(), nodes, &mut clock, 1);
    Some(is_attached && are_asked(nodes.made()))
}

/// What the words say is what the hub is told.
#[test]
fn words_become_a_registration(rt: HostRuntime) {
    let alloc = rt.alloc();
    let mut nodes = MemNodes::new(alloc, Vec::new(alloc));
    assert!(rt; registers(alloc, &mut nodes) == Some(true));
}

/// What a driver answers to its status, and what its registration then tells of a version.
const BUILDS: &[(&str, &str)] = &[
    // chromedriver
    (
        "{\"value\":{\"build\":{\"version\":\"121.0.6167.85 (3f98d690ad7e-refs/branch-heads/6167@{#1539})\"},\"message\":\"ready\",\"ready\":true}}",
        ",\"browserVersion\":\"121.0.6167.85\"",
    ),
    // geckodriver
    ("{\"value\":{\"message\":\"\",\"ready\":true}}", ""),
    ("{\"value\":{\"build\":{\"version\":121}}}", ""),
    (
        "{\"value\":{\"build\":{\"version\":\"12345678901234567890123456789012345678901234567890123456789012345\"}}}",
        "",
    ),
    ("OK", ""),
];

fn is_registered(made: &[Exchange], body: &str) -> bool {
    match made {
        [_, second] => second.ask.body.as_bytes() == body.as_bytes(),
        _ => false,
    }
}

fn tells_version(
    alloc: Global,
    nodes: &mut MemNodes,
    status: &'static str,
    told: &str,
) -> Option<bool> {
    answer(
        alloc,
        nodes,
        &[(200, status), (200, "{\"value\":{\"node\":7}}")],
    )?;
    let mut clock = MemClock::new(Moment(0));
    let is_attached = attached(alloc, &[], nodes, &mut clock, 1);
    let body = format!(in alloc;
        "{{\"name\":\"driver\",\"address\":\"127.0.0.1:9515\",\"maxSessions\":1,\"slots\":[{{\"count\":1,\"stereotype\":{{\"browserName\":\"chrome\"{told},\"platformName\":\"linux\"}}}}]}}"
    ).ok()?;
    Some(is_attached && is_registered(nodes.made(), body.as_str()))
}

fn all_tell(alloc: Global, rows: &[(&'static str, &str)]) -> bool {
    for (status, told) in rows {
        let mut nodes = MemNodes::new(alloc, Vec::new(alloc));
        if tells_version(alloc, &mut nodes, *status, *told) != Some(true) {
            return false;
        }
    }
    true
}

/// Where the words say no version, the driver's build is told.
#[test]
fn a_build_becomes_a_version(rt: HostRuntime) {
    assert!(rt; all_tell(rt.alloc(), BUILDS));
}
