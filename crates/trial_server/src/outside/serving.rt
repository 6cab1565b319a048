//! A node in memory over one connection.
use crate::outside::looping::node;
use crate::outside::parts::link;
use grid_outside::MemLink;
use grid_types::NoMemory;
use loop_node::{LoopNode, NodeFault, serve_node};
use std::alloc::Global;

/// Two requests, the first with a client that waits for a word, and one that is refused.
const ASKED: &[u8] =
    b"POST /session HTTP/1.1\r\nExpect: 100-continue\r\nContent-Length: 2\r\n\r\n{}GET /status HTTP/1.1\r\n\r\n\0";

const ANSWERED: &[u8] =
    b"HTTP/1.1 100 Continue\r\n\r\nHTTP/1.1 500 Internal Server Error\r\nContent-Type: application/json; charset=utf-8\r\nCache-Control: no-cache\r\nContent-Length: 87\r\n\r\n{\"value\":{\"error\":\"session not created\",\"message\":\"refused by script\",\"stacktrace\":\"\"}}HTTP/1.1 200 OK\r\nContent-Type: application/json; charset=utf-8\r\nCache-Control: no-cache\r\nContent-Length: 46\r\n\r\n{\"value\":{\"ready\":true,\"message\":\"loop node\"}}HTTP/1.1 400 Bad Request\r\nContent-Type: application/json; charset=utf-8\r\nCache-Control: no-cache\r\nContent-Length: 84\r\nConnection: close\r\n\r\n{\"value\":{\"error\":\"invalid argument\",\"message\":\"bad request: head\",\"stacktrace\":\"\"}}";

/// Which reads and writes fail, what comes of it, and how many of the bytes are written.
type Row = (
    &'static [u64],
    &'static [u64],
    Result<u64, NodeFault>,
    usize,
);

/// The first request is whole after ten reads. The word to go on takes 25 bytes, and its response 217.
const ROWS: &[Row] = &[
    (&[], &[], Ok(2), 622),
    (&[0], &[], Err(NodeFault::Read), 0),
    (&[10], &[], Err(NodeFault::Read), 242),
    (&[], &[0], Err(NodeFault::Write), 0),
    (&[], &[2], Err(NodeFault::Write), 18),
];

/// Whether the connection goes so, and a front of what is due is written.
fn serves(alloc: Global, node: &mut LoopNode, link: &mut MemLink, row: &Row) -> bool {
    let served = serve_node(alloc, node, link);
    let written = link.taken();
    served == row.2 && written.len() == row.3 && ANSWERED.starts_with(written)
}

/// The same by a node of its own.
fn serves_alone(alloc: Global, row: &Row) -> Result<bool, NoMemory> {
    let mut node = node(alloc)?;
    let so = match link(alloc, ASKED, row.0, row.1) {
        Ok(mut link) => {
            let so = serves(alloc, &mut node, &mut link, row);
            // Let go by a call: the check of a value that ends by itself writes out all its fields.
            drop(link);
            Ok(so)
        }
        Err(fault) => Err(fault),
    };
    drop(node);
    so
}

fn all_are_served(alloc: Global, rows: &[Row]) -> Result<bool, NoMemory> {
    for row in rows {
        if !serves_alone(alloc, row)? {
            return Ok(false);
        }
    }
    Ok(true)
}

/// Up to the refusal, to a read or a write that fails.
#[test]
fn a_connection_is_served(rt: HostRuntime) {
    assert!(rt; all_are_served(rt.alloc(), ROWS) == Ok(true));
}
