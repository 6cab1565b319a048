//! Requests that are there as a whole, from outside cases of HTTP.
use http_frames::FrameFault::{
    BadChunk, BadHead, BadLength, BodyTooLong, BothLengths, HeadTooLong, OtherCoding,
};
use http_frames::*;
use std::alloc::{AllocError, Global};

/// What `next_request` answers, without the frame.
#[derive(Clone, Copy, PartialEq, Eq)]
enum Told {
    Whole(usize),
    More,
    /// A body is awaited, and its client waits for `100 Continue`.
    Expects,
    Refused(FrameFault),
}

use Told::{Expects, More, Refused, Whole};

fn read_front(buf: &[u8]) -> Told {
    match next_request(buf, LIMITS) {
        Step::Whole(_, n) => Whole(n),
        Step::More { expects: false } => More,
        Step::More { expects: true } => Expects,
        Step::Refused(why) => Refused(why),
    }
}

fn frame_of(text: &[u8]) -> Option<Frame<'_>> {
    match next_request(text, LIMITS) {
        Step::Whole(frame, _) => Some(frame),
        _ => None,
    }
}

// Borrows the text, so that no early return drops it.
fn put(text: &mut Vec<u8>, pieces: &[(&[u8], u64)]) -> Result<(), AllocError> {
    for (piece, times) in pieces {
        for _ in 0..*times {
            text.extend_from_slice(piece)?;
        }
    }
    Ok(())
}

/// Reads the pieces one behind the other, each so many times.
fn read(alloc: Global, pieces: &[(&[u8], u64)]) -> Result<Told, AllocError> {
    let mut text = Vec::new(alloc);
    put(&mut text, pieces)?;
    Ok(read_front(text.as_slice()))
}

/// A text, and what it is read as.
type Row = (&'static [u8], Told);

/// Whether the texts are read so between this front and this end.
fn are_read(alloc: Global, front: &[u8], rows: &[Row], end: &[u8]) -> Result<bool, AllocError> {
    for (text, answer) in rows {
        if read(alloc, &[(front, 1), (text, 1), (end, 1)])? != *answer {
            return Ok(false);
        }
    }
    Ok(true)
}

const HEADS: &[Row] = &[
    (b"", More),
    (b"GET", More),
    (b"GET ", More),
    (b"GET /", More),
    (b"GET / HTTP/1.1", More),
    (b"GET / HTTP/1.1\r", More),
    (b"GET / HTTP/1.1\r\n", More),
    (b"GET / HTTP/1.1\r\n\r\n", Whole(18)),
    (b"GET / HTTP/1.1\n\n", Whole(16)),
    (b"\r\n\nGET / HTTP/1.0\n\nrest", Whole(19)),
    (b"OPTIONS * HTTP/1.1\r\n\r\n", Whole(22)),
    (b"GET http://a/b HTTP/1.1\r\n\r\n", Whole(27)),
    // Inside the target any byte is awaited, until a space, CR or LF.
    (b"GET /\x01\xff", More),
    (b"GET /\x01\xff ", Refused(BadHead)),
    (b"\rGET /\x01", Refused(BadHead)),
    // A target is UTF-8.
    (b"GET /\xc3\xa9 HTTP/1.1\r\n\r\n", Whole(20)),
    (b"GET /\xff HTTP/1.1\r\n\r\n", Refused(BadHead)),
    (b"GET /\x7f HTTP/1.1\r\n\r\n", Refused(BadHead)),
    (b"GET  HTTP/1.1\r\n", Refused(BadHead)),
    (b"GET /\r\n", Refused(BadHead)),
    (b"G\x00", Refused(BadHead)),
    (b"G@T / HTTP/1.1\r\n\r\n", Refused(BadHead)),
    (b" GET / HTTP/1.1\r\n\r\n", Refused(BadHead)),
    (b"GET / HTTP/1.1\rX", Refused(BadHead)),
    (b"GET / HTTP/1.2\r\n", Refused(BadHead)),
    (b"GET / HTTP/2.0\r\n", Refused(BadHead)),
    (b"GET / http/1.1\r\n", Refused(BadHead)),
    (b"GET / HTTP/1.1\r\nA:\r\n\r\n", Whole(22)),
    (b"GET / HTTP/1.1\r\nA: \xff\r\n\r\n", Whole(24)),
    (b"GET / HTTP/1.1\r\nHost: a\r\nHost: b\r\n\r\n", Whole(36)),
    // NUL and DEL in a header.
    (b"GET / HTTP/1.1\r\nA: \x00", Refused(BadHead)),
    (b"GET / HTTP/1.1\r\nA: b\x7f\r\n\r\n", Refused(BadHead)),
    // White space before a name, before a colon, and a folded line.
    (b"GET / HTTP/1.1\r\n Host: h\r\n\r\n", Refused(BadHead)),
    (b"GET / HTTP/1.1\r\nHost : h\r\n\r\n", Refused(BadHead)),
    (b"GET / HTTP/1.1\r\nA: b\r\n c\r\n\r\n", Refused(BadHead)),
    (
        b"GET / HTTP/1.1\r\nTransfer-Encoding : chunked\r\n\r\n",
        Refused(BadHead),
    ),
    (b"GET / HTTP/1.1\r\nA b\r\n\r\n", Refused(BadHead)),
    (b"GET / HTTP/1.1\r\n: b\r\n\r\n", Refused(BadHead)),
    (b"GET / HTTP/1.1\r\nA: b\r\n\rx", Refused(BadHead)),
    // A client of HTTP/1.0 does not wait.
    (
        b"GET / HTTP/1.0\r\nExpect: 100-continue\r\nContent-Length: 1\r\n\r\n",
        More,
    ),
    (
        b"GET / HTTP/1.1\r\nExpect: 100-continue\r\nContent-Length: 1\r\n\r\n",
        Expects,
    ),
];

const POST: &[u8] = b"POST / HTTP/1.1\r\n";

/// 17 bytes of the first line and 2 of the empty one.
const LENGTHS_AND_CODINGS: &[Row] = &[
    (b"", Whole(19)),
    (b"Content-Length: 0\r\n", Whole(38)),
    (b"Content-Length: 5\r\n", Whole(43)),
    (b"Content-Length:  5 \t\r\n", Whole(46)),
    (b"Content-Length: 00000000000000000000005\r\n", Whole(65)),
    (b"Content-Length: 5\r\ncontent-length: 005\r\n", Whole(64)),
    (b"Content-Length: 6\r\n", More),
    (b"Content-Length: 16777216\r\n", More),
    (b"Content-Length: 16777217\r\n", Refused(BodyTooLong)),
    (
        b"Content-Length: 99999999999999999999\r\n",
        Refused(BodyTooLong),
    ),
    (b"Content-Length:\r\n", Refused(BadLength)),
    (b"Content-Length: +1\r\n", Refused(BadLength)),
    (b"Content-Length: -1\r\n", Refused(BadLength)),
    (b"Content-Length: 0x5\r\n", Refused(BadLength)),
    (b"Content-Length: 5 5\r\n", Refused(BadLength)),
    (b"Content-Length: 5, 5\r\n", Refused(BadLength)),
    (
        b"Content-Length: 5\r\nContent-Length: 6\r\n",
        Refused(BadLength),
    ),
    (
        b"Content-Length: 99999999999999999999\r\nContent-Length: 99999999999999999998\r\n",
        Refused(BadLength),
    ),
    (b"Transfer-Encoding: gzip\r\n", Refused(OtherCoding)),
    (
        b"Transfer-Encoding: gzip, chunked\r\n",
        Refused(OtherCoding),
    ),
    (b"Transfer-Encoding: chunked;q=1\r\n", Refused(OtherCoding)),
    (b"Transfer-Encoding: xchunked\r\n", Refused(OtherCoding)),
    (b"Transfer-Encoding:\r\n", Refused(OtherCoding)),
    (
        b"Transfer-Encoding: chunked\r\nTransfer-Encoding: chunked\r\nContent-Length: x\r\n",
        Refused(OtherCoding),
    ),
    (
        b"Transfer-Encoding: CHUNKED\r\nContent-Length: x\r\n",
        Refused(BothLengths),
    ),
    (
        b"content-length: 5\r\ntransfer-encoding: chunked\r\n",
        Refused(BothLengths),
    ),
    // The body `hello` is no chunk line.
    (b"Transfer-Encoding:  Chunked \r\n", Refused(BadChunk)),
];

/// 47 bytes of the head.
const CHUNKED_BODIES: &[Row] = &[
    (b"", More),
    (b"0", More),
    (b"0\r\n", More),
    (b"0\r\n\r\n", Whole(52)),
    (b"0 ;a=b\r\n\r\n", Whole(57)),
    (b"A\r\n0123456789\r\n0\r\n\r\nGET", Whole(67)),
    (b"1\r\na\r\n0\r\nX: y\r\n\r\n", Whole(64)),
    (b"1\r\na", More),
    (b"1\r\na\r", More),
    (b"1\r\na\r\n0\r\nX: y\r\n", More),
    (b"1\r\na\r\nffffff\r\n", More),
    (b"0000000000000001\r\n", More),
    (b"00000000000000001\r\n", Refused(BadChunk)),
    (b"fffffffffffffffff\r\n", Refused(BadChunk)),
    (b"ffffffffffffffff\r\n", Refused(BodyTooLong)),
    (b"1\r\na\r\n1000000\r\n", Refused(BodyTooLong)),
    (b"1000001\r\n", Refused(BodyTooLong)),
    (b"x", Refused(BadChunk)),
    (b"-1\r\n", Refused(BadChunk)),
    (b"0x1\r\n", Refused(BadChunk)),
    (b" 1\r\n", Refused(BadChunk)),
    (b"0\n\n", Refused(BadChunk)),
    (b"1\ra", Refused(BadChunk)),
    (b"1\r\nab", Refused(BadChunk)),
    (b"1\r\na\n", Refused(BadChunk)),
    (b"1\r\na\rb", Refused(BadChunk)),
    (b"1\r\na\r\n0\r\n\x00", Refused(BadChunk)),
    (b"0\r\nX y\r\n", Refused(BadChunk)),
    (b"0\r\n: y\r\n\r\n", Refused(BadChunk)),
];

/// The lines, whether the connection ends, and whether the client waits.
const ASKS: &[(&[u8], bool, bool)] = &[
    (b"", false, false),
    (b"Connection: close\r\n", true, false),
    (b"connection: CLOSE\r\n", true, false),
    (b"Connection: keep-alive,close\r\n", true, false),
    (b"Connection: a,\t close ,b\r\n", true, false),
    (b"Connection: a\r\nConnection: close\r\n", true, false),
    (b"Connection: keep-alive\r\n", false, false),
    (b"Connection: closed\r\n", false, false),
    (b"Connection: not close\r\n", false, false),
    (
        b"Content-Length: 1\r\nExpect: 100-Continue\r\n",
        false,
        true,
    ),
    (
        b"Content-Length: 1\r\nExpect: 100-continue, x\r\n",
        false,
        false,
    ),
    (
        b"Content-Length: 0\r\nExpect: 100-continue\r\n",
        false,
        false,
    ),
    (b"Expect: 100-continue\r\n", false, false),
];

fn asks(text: &[u8], closes: bool, expects: bool) -> bool {
    match frame_of(text) {
        Some(frame) => frame.closes == closes && frame.expects == expects,
        None => false,
    }
}

fn request_asks(
    alloc: Global,
    lines: &[u8],
    closes: bool,
    expects: bool,
) -> Result<bool, AllocError> {
    let mut text = Vec::new(alloc);
    put(&mut text, &[(POST, 1), (lines, 1), (b"\r\na", 1)])?;
    Ok(asks(text.as_slice(), closes, expects))
}

fn all_ask(alloc: Global, rows: &[(&[u8], bool, bool)]) -> Result<bool, AllocError> {
    for (lines, closes, expects) in rows {
        if !request_asks(alloc, lines, *closes, *expects)? {
            return Ok(false);
        }
    }
    Ok(true)
}

#[test]
fn what_a_head_asks(rt: HostRuntime) {
    assert!(rt; all_ask(rt.alloc(), ASKS) == Ok(true));
}

/// A front, what stands behind it so many times, an end, and what that is read as.
type LongRow = (&'static [u8], &'static [u8], u64, &'static [u8], Told);

const LINE: &[u8] = b"GET / HTTP/1.1\r\n";

/// 16 bytes of the first line and 6 of each header.
const HEADER: &[u8] = b"A: b\r\n";

const TARGET: &[u8] = b"GET /\x01";

/// The head has 47 bytes.
const CHUNKED: &[u8] = b"POST / HTTP/1.1\r\nTransfer-Encoding: chunked\r\n\r\n";

const CHUNK_LINE: &[u8] = b"POST / HTTP/1.1\r\nTransfer-Encoding: chunked\r\n\r\n1;";

const TRAILER: &[u8] = b"POST / HTTP/1.1\r\nTransfer-Encoding: chunked\r\n\r\n0\r\nA:";

/// There is room for 100 headers, 65,536 bytes of a head or of trailers, and 4,096 of a chunk line.
const LONG: &[LongRow] = &[
    (LINE, HEADER, 100, b"\r\n", Whole(618)),
    (LINE, HEADER, 100, b"", More),
    (LINE, HEADER, 100, b"\r", More),
    (LINE, HEADER, 100, b"A", Refused(BadHead)),
    (LINE, HEADER, 101, b"\r\n", Refused(BadHead)),
    (b"GET / HTTP/1.1\r\nA: ", b"x", 65_516, b"", More),
    (
        b"GET / HTTP/1.1\r\nA: ",
        b"x",
        65_517,
        b"",
        Refused(HeadTooLong),
    ),
    (TARGET, b"x", 65_529, b"", More),
    (TARGET, b"x", 65_530, b"", Refused(HeadTooLong)),
    (CHUNK_LINE, b"x", 4_093, b"", More),
    (CHUNK_LINE, b"x", 4_094, b"", Refused(BadChunk)),
    (TRAILER, b"x", 65_533, b"", More),
    (TRAILER, b"x", 65_534, b"", Refused(BadChunk)),
];

fn long_are_read(alloc: Global, rows: &[LongRow]) -> Result<bool, AllocError> {
    for (front, piece, times, end, answer) in rows {
        if read(alloc, &[(front, 1), (piece, *times), (end, 1)])? != *answer {
            return Ok(false);
        }
    }
    Ok(true)
}

#[test]
fn requests_are_read(rt: HostRuntime) {
    assert!(rt; are_read(rt.alloc(), b"", HEADS, b"") == Ok(true));
    assert!(rt; are_read(rt.alloc(), POST, LENGTHS_AND_CODINGS, b"\r\nhello") == Ok(true));
    assert!(rt; are_read(rt.alloc(), CHUNKED, CHUNKED_BODIES, b"") == Ok(true));
    assert!(rt; long_are_read(rt.alloc(), LONG) == Ok(true));
}
