//! Whole connections as a table has them.
use crate::tables::{Client, Told};
use hub_conn::End;
use std::alloc::Global;

/// What a client sends.
#[derive(Clone, Copy)]
pub(crate) enum Sends {
    /// A New Session with this body.
    New(&'static str),
    Get(&'static str),
    Delete(&'static str),
    /// A path and a body.
    Post(&'static str, &'static str),
    /// These bytes.
    Raw(&'static [u8]),
    /// These bytes so many times.
    Many(&'static [u8], usize),
}

/// One connection to a hub of its own.
#[derive(Clone, Copy)]
pub(crate) struct Play {
    /// Browser, version and slots of each node. They are named `play-1` and so on, at the addresses `loop:1` and so on.
    pub(crate) nodes: &'static [(&'static str, &'static str, u8)],
    pub(crate) sends: &'static [Sends],
    /// What the nodes reply in this order: a status, 0 for what is no HTTP, and a body. Behind these they are unreachable.
    pub(crate) replies: &'static [(u16, &'static str)],
    pub(crate) told: &'static [Told],
    /// How many requests are answered.
    pub(crate) frames: u64,
    pub(crate) end: End,
    /// What the nodes are asked.
    pub(crate) asks: &'static str,
}

fn push_post(alloc: Global, text: &mut Vec<u8>, path: &str, body: &str) -> Option<()> {
    let head = format!(in alloc;
        "POST {path} HTTP/1.1\r\nHost: h\r\nContent-Length: {}\r\n\r\n",
        body.len()
    )
    .ok()?;
    text.extend_from_slice(head.as_bytes()).ok()?;
    text.extend_from_slice(body.as_bytes()).ok()
}

fn push_bare(alloc: Global, text: &mut Vec<u8>, method: &str, path: &str) -> Option<()> {
    let head = format!(in alloc; "{method} {path} HTTP/1.1\r\nHost: h\r\n\r\n").ok()?;
    text.extend_from_slice(head.as_bytes()).ok()
}

fn push_many(text: &mut Vec<u8>, bytes: &[u8], times: usize) -> Option<()> {
    for _ in 0..times {
        text.extend_from_slice(bytes).ok()?;
    }
    Some(())
}

/// The bytes one after the other.
pub(crate) fn sent(alloc: Global, sends: &[Sends]) -> Option<Vec<u8>> {
    let mut text = Vec::new(alloc);
    for one in sends {
        match one {
            Sends::New(body) => push_post(alloc, &mut text, "/session", body)?,
            Sends::Get(path) => push_bare(alloc, &mut text, "GET", path)?,
            Sends::Delete(path) => push_bare(alloc, &mut text, "DELETE", path)?,
            Sends::Post(path, body) => push_post(alloc, &mut text, path, body)?,
            Sends::Raw(bytes) => push_many(&mut text, bytes, 1)?,
            Sends::Many(bytes, times) => push_many(&mut text, bytes, *times)?,
        }
    }
    Some(text)
}

/// The registrations of the nodes.
pub(crate) fn registers(alloc: Global, nodes: &[(&str, &str, u8)]) -> Option<Vec<u8>> {
    let mut text = Vec::new(alloc);
    for (i, (browser, version, slots)) in nodes.iter().enumerate() {
        let number = i + 1;
        let body = format!(in alloc;
            "{{\"name\":\"play-{number}\",\"address\":\"loop:{number}\",\"maxSessions\":{slots},\"slots\":[{{\"count\":{slots},\"stereotype\":{{\"browserName\":\"{browser}\",\"browserVersion\":\"{version}\",\"platformName\":\"linux\"}}}}]}}"
        ).ok()?;
        push_post(alloc, &mut text, "/se/grid/distributor/node", body.as_str())?;
    }
    Some(text)
}

// How many bytes a read gives at least: tens of thousands one by one take long.
fn fewest(sends: usize) -> usize {
    if sends < 10_000 { 1 } else { 997 }
}

/// The client that sends these bytes, of which a read gives and a write takes so many at most.
pub(crate) fn client_in(sends: &[u8], gives: usize, takes: usize) -> Client<'_> {
    Client {
        sends,
        gives: gives.max(fewest(sends.len())),
        takes,
        reads_fail: &[],
        writes_fail: &[],
    }
}

/// Bytes that a read gives and a write takes at most: as many as there are, and one by one.
pub(crate) const PIECES: [(usize, usize); 4] = [(65_536, 65_536), (1, 65_536), (65_536, 1), (1, 1)];
