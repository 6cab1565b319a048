//! A client's connection, nodes that reply by a list, and what is seen of both.
use grid_outside::{MemLink, MemNodes, MemSink, MemSource, NodeReply, Reply};
use grid_types::Bytes;
use std::alloc::Global;

/// A client: what it sends, how many bytes a read gives and a write takes at most, and which of its reads and writes fail, from 0.
#[derive(Clone, Copy)]
pub(crate) struct Client<'a> {
    pub(crate) sends: &'a [u8],
    pub(crate) gives: usize,
    pub(crate) takes: usize,
    pub(crate) reads_fail: &'a [u64],
    pub(crate) writes_fail: &'a [u64],
}

/// Gives and takes as much as there is.
pub(crate) fn plain(sends: &[u8]) -> Client<'_> {
    Client {
        sends,
        gives: 65_536,
        takes: 65_536,
        reads_fail: &[],
        writes_fail: &[],
    }
}

/// The texts one after the other.
pub(crate) fn joined(alloc: Global, parts: &[&[u8]]) -> Option<Vec<u8>> {
    let mut all = Vec::new(alloc);
    for part in parts {
        all.extend_from_slice(part).ok()?;
    }
    Some(all)
}

/// The client's connection. None is out of memory, or that a piece may have no byte.
pub(crate) fn link_of(alloc: Global, client: &Client<'_>) -> Option<MemLink> {
    if client.gives == 0 || client.takes == 0 {
        return None;
    }
    let sends = Bytes::of(alloc, client.sends).ok()?;
    let reads_fail = Vec::from_slice(alloc, client.reads_fail).ok()?;
    let writes_fail = Vec::from_slice(alloc, client.writes_fail).ok()?;
    Some(MemLink::new(
        MemSource::new(sends, client.gives, reads_fail),
        MemSink::new(alloc, client.takes, writes_fail),
    ))
}

fn reply_of(alloc: Global, status: u16, body: &[u8]) -> Option<Reply> {
    let body = Bytes::of(alloc, body).ok()?;
    if status == 0 {
        return Some(Reply::NotHttp(body));
    }
    Some(Reply::Http(NodeReply {
        status,
        reason: Bytes::of(alloc, b"R").ok()?,
        content_type: None,
        content_encoding: None,
        cache_control: None,
        body,
    }))
}

fn push_all(alloc: Global, nodes: &mut MemNodes, replies: &[(u16, &str)]) -> Option<()> {
    for (status, body) in replies {
        nodes.push(reply_of(alloc, *status, body.as_bytes())?).ok()?;
    }
    Some(())
}

/// Nodes that reply in this order, each with a status, 0 for what is no HTTP, and a body; these exchanges fail, from 0.
pub(crate) fn nodes_of(alloc: Global, replies: &[(u16, &str)], fails: &[u64]) -> Option<MemNodes> {
    let mut nodes = MemNodes::new(alloc, Vec::from_slice(alloc, fails).ok()?);
    if push_all(alloc, &mut nodes, replies).is_some() {
        Some(nodes)
    } else {
        drop(nodes);
        None
    }
}

fn str_of(bytes: &[u8]) -> &str {
    std::str::from_utf8(bytes).unwrap_or("")
}

/// Method, address and target of each exchange that was made.
pub(crate) fn asks_of(alloc: Global, nodes: &MemNodes) -> Option<String> {
    let mut told = String::new(alloc);
    for exchange in nodes.made() {
        let ask = &exchange.ask;
        let one = format!(in alloc;
            "{} {}{}; ",
            str_of(ask.method.as_bytes()),
            str_of(exchange.address.as_bytes()),
            str_of(ask.target.as_bytes())
        )
        .ok()?;
        told.push_str(one.as_str()).ok()?;
    }
    Some(told)
}
