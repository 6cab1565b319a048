//! Words of the programs with what they say.
use crate::programs::lists::list;
use server_words::*;
use std::alloc::Global;
use std::net::{IpAddr, Ipv4Addr, Ipv6Addr};

fn is_that_hub(words: &HubWords) -> bool {
    words.port == 80
        && words.workers == 0
        && words.handlers == 64
        && words.config.idle_ms == 10_000
        && words.config.timeout_ms == 300_000
}

const HUB: &[&str] = &["--port", "+080", "--workers=-0", "--session-timeout", "10"];

fn is_hub_said(alloc: Global) -> Option<bool> {
    let list = list(alloc, HUB)?;
    let words = hub_words(alloc, list.as_slice()).ok()?;
    Some(is_that_hub(&words))
}

const NO_HUB: &[&[&str]] = &[
    &["--port", "x"],
    &["--port", "65536"],
    &["--port", "1", "--port", "1"],
    &["x"],
    &["--help"],
    &["--handlers", "129"],
    &["--reject-unsupported-caps", "yes"],
];

fn is_no_hub(alloc: Global, words: &[&str]) -> Option<bool> {
    let list = list(alloc, words)?;
    let said = hub_words(alloc, list.as_slice());
    Some(matches!(said, Err(WordsFault::Refused)))
}

fn are_no_hubs(alloc: Global, rows: &[&[&str]]) -> bool {
    for words in rows {
        if is_no_hub(alloc, words) != Some(true) {
            return false;
        }
    }
    true
}

/// Words, and where the hub listens by them.
const HOSTS: &[(&[&str], Option<IpAddr>)] = &[
    (&[], Some(IpAddr::V4(Ipv4Addr::UNSPECIFIED))),
    (
        &["--host", "127.0.0.1"],
        Some(IpAddr::V4(Ipv4Addr::LOCALHOST)),
    ),
    (&["--host=::1"], Some(IpAddr::V6(Ipv6Addr::LOCALHOST))),
    (
        &["--host=[::]", "--port=80"],
        Some(IpAddr::V6(Ipv6Addr::UNSPECIFIED)),
    ),
    (&["--host=[127.0.0.1]"], None),
    (&["--host", "localhost"], None),
    (&["--hosts", "127.0.0.1"], None),
];

fn host(alloc: Global, words: &[&str]) -> Option<Option<IpAddr>> {
    let list = list(alloc, words)?;
    Some(hub_host(alloc, list.as_slice()).ok())
}

fn are_hosts(alloc: Global, rows: &[(&[&str], Option<IpAddr>)]) -> bool {
    for (words, due) in rows {
        if host(alloc, words) != Some(*due) {
            return false;
        }
    }
    true
}

fn is_that_node(words: &NodeWords) -> bool {
    words.hub.as_bytes() == b"localhost:4444".as_slice()
        && words.port == 5_555
        && words.name.as_str() == "loop"
        && words.browser.as_str() == "chrome"
        && words.slots == 64
}

fn is_node_said(alloc: Global) -> Option<bool> {
    let list = list(alloc, &["--hub=localhost:4444", "--slots", "64"])?;
    let words = node_words(alloc, list.as_slice()).ok()?;
    Some(is_that_node(&words))
}

const NO_NODE: &[&[&str]] = &[&["--slots", "0"], &["--hub", ""], &["--hub", "a b"]];

fn is_no_node(alloc: Global, words: &[&str]) -> Option<bool> {
    let list = list(alloc, words)?;
    let said = node_words(alloc, list.as_slice());
    Some(matches!(said, Err(WordsFault::Refused)))
}

fn are_no_nodes(alloc: Global, rows: &[&[&str]]) -> bool {
    for words in rows {
        if is_no_node(alloc, words) != Some(true) {
            return false;
        }
    }
    true
}

fn is_that_driver(words: &AttachWords) -> bool {
    words.hub.as_bytes() == b"127.0.0.1:4444".as_slice()
        && words.driver.as_bytes() == b"localhost:4445".as_slice()
        && words.version.as_str() == "126.0"
        && words.once
        && words.platform.as_str() == "linux"
}

const DRIVER: &[&str] = &[
    "--driver=http://localhost:4445/",
    "--once",
    "--browser-version",
    "126.0",
];

fn is_driver_said(alloc: Global) -> Option<bool> {
    let list = list(alloc, DRIVER)?;
    let words = attach_words(alloc, list.as_slice()).ok()?;
    Some(is_that_driver(&words))
}

/// Words, and what the reason begins with.
const NO_DRIVER: &[(&[&str], &str)] = &[
    (
        &["--slots", "65"],
        "error: invalid value '65' for '--slots <slots>'",
    ),
    (&["--name", "a b"], "error: the value of --name is"),
    (&["--hub", "https://h:1"], "error: the value of --hub is"),
    (&["--driver", "h"], "error: the value of --driver is"),
    (&["--driver", ":1"], "error: the value of --driver is"),
    (
        &["--capability", "=1"],
        "error: a value of --capability is not NAME=VALUE",
    ),
    (
        &["--driver"],
        "error: a value is required for '--driver <driver>'",
    ),
];

fn begins(alloc: Global, fault: &AttachFault, reason: &str) -> bool {
    match format!(in alloc; "{fault}") {
        Ok(text) => text.as_str().starts_with(reason),
        Err(_) => false,
    }
}

fn is_no_driver(alloc: Global, words: &[&str], reason: &str) -> Option<bool> {
    let list = list(alloc, words)?;
    match attach_words(alloc, list.as_slice()) {
        Ok(_) => Some(false),
        Err(fault) => Some(begins(alloc, &fault, reason)),
    }
}

fn are_no_drivers(alloc: Global, rows: &[(&[&str], &str)]) -> bool {
    for (words, reason) in rows {
        if is_no_driver(alloc, words, *reason) != Some(true) {
            return false;
        }
    }
    true
}

#[test]
fn programs_take_their_words(rt: HostRuntime) {
    let alloc = rt.alloc();
    assert!(rt; is_hub_said(alloc) == Some(true));
    assert!(rt; is_node_said(alloc) == Some(true));
    assert!(rt; is_driver_said(alloc) == Some(true));
}

#[test]
fn programs_refuse_other_words(rt: HostRuntime) {
    let alloc = rt.alloc();
    assert!(rt; are_no_hubs(alloc, NO_HUB));
    assert!(rt; are_hosts(alloc, HOSTS));
    assert!(rt; are_no_nodes(alloc, NO_NODE));
    assert!(rt; are_no_drivers(alloc, NO_DRIVER));
}
