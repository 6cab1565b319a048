//! Replies that are there as a whole, from outside cases of HTTP, and what is written.
use grid_types::{Bytes, NoMemory};
use http_frames::*;
use std::alloc::Global;

/// What `next_response` answers, without the reply.
#[derive(Clone, Copy, PartialEq, Eq)]
enum Heard {
    /// How many bytes are read, and the status.
    Reply(usize, u16),
    Waits,
    NotHttp,
}

use Heard::{NotHttp, Reply, Waits};

fn hear(alloc: Global, buf: &[u8], ended: bool) -> Result<Heard, NoMemory> {
    match next_response(alloc, buf, ended, LIMITS)? {
        RStep::Whole(reply, n) => Ok(Reply(n, reply.status)),
        RStep::More => Ok(Waits),
        RStep::NotHttp => Ok(NotHttp),
    }
}

/// Bytes, and the answers where more may come and where none do.
type Row = (&'static [u8], Heard, Heard);

const REPLIES: &[Row] = &[
    (b"", Waits, NotHttp),
    (b"HTTP/1.1 20", Waits, NotHttp),
    (
        b"HTTP/1.1 200 OK\r\nContent-Length: 2\r\n\r\nhixx",
        Reply(40, 200),
        Reply(40, 200),
    ),
    (
        b"HTTP/1.1 200 OK\r\nContent-Length: 2\r\n\r\nh",
        Waits,
        NotHttp,
    ),
    (b"HTTP/1.1 200 OK\r\n\r\nhello", Waits, Reply(24, 200)),
    (b"HTTP/1.0 200 OK\r\n\r\n", Waits, Reply(19, 200)),
    (b"HTTP/1.1 200\r\n\r\n", Waits, Reply(16, 200)),
    (b"HTTP/1.1 200 OK\n\n", Waits, Reply(17, 200)),
    (
        b"HTTP/1.1 999 x\r\nContent-Length: 0\r\n\r\n",
        Reply(37, 999),
        Reply(37, 999),
    ),
    // No body for 204 and 304, whatever their headers say.
    (
        b"HTTP/1.1 204 No Content\r\n\r\nxyz",
        Reply(27, 204),
        Reply(27, 204),
    ),
    (
        b"HTTP/1.1 204 No\r\nContent-Length: 5\r\n\r\nhello",
        Reply(38, 204),
        Reply(38, 204),
    ),
    (
        b"HTTP/1.1 304 NM\r\nTransfer-Encoding: chunked\r\n\r\n",
        Reply(47, 304),
        Reply(47, 304),
    ),
    (
        b"HTTP/1.1 304 NM\r\nContent-Length: 99999999\r\n\r\n",
        Reply(45, 304),
        Reply(45, 304),
    ),
    // Interim responses are passed over.
    (b"HTTP/1.1 100 Continue\r\n\r\n", Waits, NotHttp),
    (
        b"HTTP/1.1 100 Continue\r\n\r\nHTTP/1.1 200 OK\r\nContent-Length: 0\r\n\r\n",
        Reply(63, 200),
        Reply(63, 200),
    ),
    (
        b"HTTP/1.1 103 Early Hints\r\nContent-Length: 9\r\n\r\nHTTP/1.1 199 x\r\n\r\nHTTP/1.1 204 x\r\n\r\n",
        Reply(83, 204),
        Reply(83, 204),
    ),
    (b"HTTP/1.1 100 Continue\r\n\r\nhello", NotHttp, NotHttp),
    (
        b"HTTP/1.1 200 OK\r\nTransfer-Encoding: chunked\r\n\r\n3\r\nabc\r\n0\r\n\r\nrest",
        Reply(60, 200),
        Reply(60, 200),
    ),
    (
        b"HTTP/1.1 200 OK\r\nTransfer-Encoding: chunked\r\n\r\n3\r\nabc\r\n0\r\n",
        Waits,
        NotHttp,
    ),
    (
        b"HTTP/1.1 200 OK\r\nTransfer-Encoding: chunked\r\n\r\n3\r\nabcd",
        NotHttp,
        NotHttp,
    ),
    (
        b"HTTP/1.1 200 OK\r\nTransfer-Encoding: chunked\r\n\r\n1000001\r\n",
        NotHttp,
        NotHttp,
    ),
    (
        b"HTTP/1.1 200 OK\r\nContent-Length: 16777216\r\n\r\n",
        Waits,
        NotHttp,
    ),
    (
        b"HTTP/1.1 200 OK\r\nContent-Length: 16777217\r\n\r\n",
        NotHttp,
        NotHttp,
    ),
    (
        b"HTTP/1.1 200 OK\r\nContent-Length: +1\r\n\r\n",
        NotHttp,
        NotHttp,
    ),
    (
        b"HTTP/1.1 200 OK\r\nContent-Length: 1\r\nContent-Length: 2\r\n\r\n",
        NotHttp,
        NotHttp,
    ),
    (
        b"HTTP/1.1 200 OK\r\nContent-Length: 1\r\nTransfer-Encoding: chunked\r\n\r\n",
        NotHttp,
        NotHttp,
    ),
    (
        b"HTTP/1.1 200 OK\r\nTransfer-Encoding: gzip\r\n\r\n",
        NotHttp,
        NotHttp,
    ),
    (b"HTTP/1.1 099 x\r\n\r\n", NotHttp, NotHttp),
    (b"HTTP/1.1 1000 x\r\n\r\n", NotHttp, NotHttp),
    (b"HTTP/2 200 OK\r\n\r\n", NotHttp, NotHttp),
    (b"hello", NotHttp, NotHttp),
];

fn are_heard(alloc: Global, rows: &[Row]) -> Result<bool, NoMemory> {
    for (bytes, open, ended) in rows {
        let told = hear(alloc, bytes, false)?;
        let last = hear(alloc, bytes, true)?;
        if told != *open || last != *ended {
            return Ok(false);
        }
    }
    Ok(true)
}

#[test]
fn replies(rt: HostRuntime) {
    assert!(rt; are_heard(rt.alloc(), REPLIES) == Ok(true));
}

const HEADERS: ReplyHeaders<'static> = ReplyHeaders {
    content_type: Some(b"application/json; charset=utf-8"),
    content_encoding: None,
    cache_control: Some(b"no-cache"),
};

const RESPONSE: &[u8] =
    b"HTTP/1.1 200 OK\r\nContent-Type: application/json; charset=utf-8\r\nCache-Control: no-cache\r\nContent-Length: 14\r\nConnection: close\r\n\r\n{\"value\":null}";

const REQUEST: NodeRequest<'static> = NodeRequest {
    method: b"DELETE",
    target: b"/session/a",
    accept: Some(b"*/*"),
    accept_encoding: None,
    content_type: None,
    content_encoding: None,
    body: b"",
};

const WRITTEN: &[u8] =
    b"DELETE /session/a HTTP/1.1\r\nHost: 127.0.0.1:5555\r\nAccept: */*\r\nContent-Length: 0\r\nConnection: close\r\n\r\n";

fn is(written: Result<Bytes, NoMemory>, wanted: &[u8]) -> bool {
    match written {
        Ok(written) => written.as_bytes() == wanted,
        Err(_) => false,
    }
}

#[test]
fn what_is_written(rt: HostRuntime) {
    let response = write_response(rt.alloc(), 200, b"OK", HEADERS, b"{\"value\":null}", true);
    assert!(rt; is(response, RESPONSE));
    let request = write_request(rt.alloc(), b"127.0.0.1:5555", &REQUEST);
    assert!(rt; is(request, WRITTEN));
}
