//! What a node is asked where a session is to be started there.
use crate::messages::Asked;
use crate::rows::input_of;
use grid_outside::{MemClock, MemLink, MemNodes, MemSink, MemSource};
use grid_types::{Bytes, HubConfig, Moment};
use hub_core::LocalHub;
use local_driver::serve_local;
use std::alloc::Global;

const REGISTRATION: &str =
    "{\"name\":\"n1\",\"address\":\"127.0.0.1:5555\",\"maxSessions\":1,\"slots\":[{\"count\":1,\"stereotype\":{\"browserName\":\"chrome\"}}]}";

/// Capabilities with spaces, among them some that the hub does not know.
const OPTIONS: &str =
    "{\"capabilities\": {\"firstMatch\": [{\"browserName\": \"chrome\", \"goog:chromeOptions\": {\"args\": [\"--headless=new\"], \"mobileEmulation\": {\"deviceMetrics\": {\"pixelRatio\": 3.0}}}}]}}";

const STARTS: &str =
    "POST 127.0.0.1:5555/session {\"capabilities\":{\"alwaysMatch\":{\"browserName\":\"chrome\",\"goog:chromeOptions\":{\"args\":[\"--headless=new\"],\"mobileEmulation\":{\"deviceMetrics\":{\"pixelRatio\":3.0}}}}}}; ";

fn str_of(bytes: &[u8]) -> &str {
    std::str::from_utf8(bytes).unwrap_or("")
}

/// Tells method, address, target and body of each exchange that was asked for. None is out of memory, as everywhere here.
fn put_asks(alloc: Global, told: &mut String, nodes: &MemNodes) -> Option<()> {
    for exchange in nodes.made() {
        let ask = &exchange.ask;
        let one = format!(in alloc;
            "{} {}{} {}; ",
            str_of(ask.method.as_bytes()),
            str_of(exchange.address.as_bytes()),
            str_of(ask.target.as_bytes()),
            str_of(ask.body.as_bytes())
        )
        .ok()?;
        let put = told.push_str(one.as_str()).ok();
        drop(one);
        put?;
    }
    Some(())
}

fn are_told(alloc: Global, nodes: &MemNodes, wanted: &str) -> Option<bool> {
    let mut told = String::new(alloc);
    let put = put_asks(alloc, &mut told, nodes);
    let is_so = told.as_str() == wanted;
    drop(told);
    put?;
    Some(is_so)
}

// Let go by a call: the check of a value that ends by itself writes out all its fields.
fn serve(alloc: Global, hub: &mut LocalHub, input: &[u8], nodes: &mut MemNodes) -> Option<()> {
    let source = MemSource::new(Bytes::of(alloc, input).ok()?, 1_000, Vec::new(alloc));
    let mut link = MemLink::new(source, MemSink::new(alloc, 1_000, Vec::new(alloc)));
    let mut clock = MemClock::new(Moment(0));
    let ended = serve_local(alloc, hub, &[], &mut link, nodes, &mut clock);
    drop(ended);
    drop(link);
    Some(())
}

fn served(alloc: Global, input: &[u8], nodes: &mut MemNodes) -> Option<()> {
    let mut hub = LocalHub::new(alloc, HubConfig::default()).ok()?;
    let served = serve(alloc, &mut hub, input, nodes);
    drop(hub);
    served
}

/// Whether the nodes are asked this where these bytes come on one connection.
fn asks(alloc: Global, input: &[u8], wanted: &str) -> Option<bool> {
    let mut nodes = MemNodes::new(alloc, Vec::new(alloc));
    let is_so = match served(alloc, input, &mut nodes) {
        Some(()) => are_told(alloc, &nodes, wanted),
        None => None,
    };
    drop(nodes);
    is_so
}

/// A node registers, and a client asks for these capabilities.
fn is_sent(alloc: Global) -> Option<bool> {
    let input = input_of(
        alloc,
        &[
            Asked::Send("/se/grid/distributor/node", REGISTRATION),
            Asked::New(OPTIONS),
        ],
    )?;
    asks(alloc, input.as_slice(), STARTS)
}

#[test]
fn a_node_is_sent_the_chosen_capabilities(rt: HostRuntime) {
    assert!(rt; is_sent(rt.alloc()) == Some(true));
}
