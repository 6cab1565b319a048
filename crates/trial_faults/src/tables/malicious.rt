//! Malicious and broken bytes: which refusal each gets (RFC 9112 §3 to §7, RFC 8259, WebDriver §6.6).
use crate::tables::plays::{Play, Sends};
use crate::tables::told::{BAD, CONTINUE, NO_COMMAND, Told};
use Sends::{Get, Many, New, Post, Raw};
use http_frames::FrameFault;
use http_frames::FrameFault::{
    BadChunk, BadHead, BadLength, BodyTooLong, BothLengths, HeadTooLong, OtherCoding,
};
use hub_conn::End;

const HEAD: Told = Told::Last(
    BAD,
    "{\"value\":{\"error\":\"invalid argument\",\"message\":\"bad request: head\",\"stacktrace\":\"\"}}",
);

const HEAD_TOO_LONG: Told = Told::Last(
    BAD,
    "{\"value\":{\"error\":\"invalid argument\",\"message\":\"bad request: head too long\",\"stacktrace\":\"\"}}",
);

const LENGTH: Told = Told::Last(
    BAD,
    "{\"value\":{\"error\":\"invalid argument\",\"message\":\"bad request: length\",\"stacktrace\":\"\"}}",
);

const BOTH_LENGTHS: Told = Told::Last(
    BAD,
    "{\"value\":{\"error\":\"invalid argument\",\"message\":\"bad request: both lengths\",\"stacktrace\":\"\"}}",
);

const CHUNK: Told = Told::Last(
    BAD,
    "{\"value\":{\"error\":\"invalid argument\",\"message\":\"bad request: chunk\",\"stacktrace\":\"\"}}",
);

const BODY_TOO_LONG: Told = Told::Last(
    BAD,
    "{\"value\":{\"error\":\"invalid argument\",\"message\":\"bad request: body too long\",\"stacktrace\":\"\"}}",
);

const CODING: Told = Told::Last(
    BAD,
    "{\"value\":{\"error\":\"invalid argument\",\"message\":\"bad request: coding\",\"stacktrace\":\"\"}}",
);

const DEEP: Told = Told::Hub(
    BAD,
    "{\"value\":{\"error\":\"invalid argument\",\"message\":\"body is nested too deep at byte 127\",\"stacktrace\":\"\"}}",
);

const AT_1: Told = Told::Hub(
    BAD,
    "{\"value\":{\"error\":\"invalid argument\",\"message\":\"body is not JSON at byte 1\",\"stacktrace\":\"\"}}",
);

const AT_17: Told = Told::Hub(
    BAD,
    "{\"value\":{\"error\":\"invalid argument\",\"message\":\"body is not JSON at byte 17\",\"stacktrace\":\"\"}}",
);

const NOT_UTF8: Told = Told::Hub(
    BAD,
    "{\"value\":{\"error\":\"invalid argument\",\"message\":\"body is not UTF-8\",\"stacktrace\":\"\"}}",
);

const TWICE: Told = Told::Hub(
    BAD,
    "{\"value\":{\"error\":\"invalid argument\",\"message\":\"body has a name twice at byte 7\",\"stacktrace\":\"\"}}",
);

const CHUNKED: Sends = Raw(b"POST /x HTTP/1.1\r\nTransfer-Encoding: chunked\r\n\r\n");

/// What is sent, what is told, how many requests are answered, and how the connection ends: Err is that its first request is refused.
pub(crate) type MaliciousRow = (
    &'static [Sends],
    &'static [Told],
    u64,
    Result<End, FrameFault>,
);

/// Bytes that are malicious or broken.
static MALICIOUS: [MaliciousRow; 32] = [
    // 65,536 bytes without an end: in the target and in a header; and one byte fewer.
    (
        &[Raw(b"GET /"), Many(b"a", 65_531)],
        &[HEAD_TOO_LONG],
        0,
        Err(HeadTooLong),
    ),
    (
        &[Raw(b"GET /"), Many(b"a", 65_530)],
        &[],
        0,
        Ok(End::Cut { at: 0 }),
    ),
    (
        &[Raw(b"GET / HTTP/1.1\r\nA: "), Many(b"a", 65_517)],
        &[HEAD_TOO_LONG],
        0,
        Err(HeadTooLong),
    ),
    // 101 headers, and 100.
    (
        &[
            Raw(b"GET /x HTTP/1.1\r\n"),
            Many(b"A: b\r\n", 101),
            Raw(b"\r\n"),
        ],
        &[HEAD],
        0,
        Err(BadHead),
    ),
    (
        &[
            Raw(b"GET /x HTTP/1.1\r\n"),
            Many(b"A: b\r\n", 100),
            Raw(b"\r\n"),
        ],
        &[NO_COMMAND],
        1,
        Ok(End::Closed),
    ),
    // Lengths.
    (
        &[Raw(b"POST /x HTTP/1.1\r\nContent-Length: 99999999999999999999\r\n\r\n")],
        &[BODY_TOO_LONG],
        0,
        Err(BodyTooLong),
    ),
    (
        &[Raw(b"POST /x HTTP/1.1\r\nContent-Length: +1\r\n\r\n{}")],
        &[LENGTH],
        0,
        Err(BadLength),
    ),
    (
        &[
            Raw(b"POST /x HTTP/1.1\r\nContent-Length: 2\r\nContent-Length: 02\r\n\r\n{}"),
            Get("/x"),
        ],
        &[NO_COMMAND, NO_COMMAND],
        2,
        Ok(End::Closed),
    ),
    (
        &[Raw(b"POST /x HTTP/1.1\r\nContent-Length: 2\r\nContent-Length: 3\r\n\r\n{}")],
        &[LENGTH],
        0,
        Err(BadLength),
    ),
    (
        &[Raw(b"POST /x HTTP/1.1\r\nContent-Length: 2\r\nTransfer-Encoding: chunked\r\n\r\n{}")],
        &[BOTH_LENGTHS],
        0,
        Err(BothLengths),
    ),
    (
        &[Raw(b"POST /x HTTP/1.1\r\nTransfer-Encoding: gzip, chunked\r\n\r\n")],
        &[CODING],
        0,
        Err(OtherCoding),
    ),
    // Chunks: sizes, what stands behind the data, a line of 4,097 bytes, 101 trailers.
    (
        &[CHUNKED, Raw(b"ffffffffffffffff\r\n")],
        &[BODY_TOO_LONG],
        0,
        Err(BodyTooLong),
    ),
    (
        &[CHUNKED, Raw(b"fffffffffffffffff\r\n")],
        &[CHUNK],
        0,
        Err(BadChunk),
    ),
    (
        &[CHUNKED, Raw(b"1000001\r\n")],
        &[BODY_TOO_LONG],
        0,
        Err(BodyTooLong),
    ),
    (&[CHUNKED, Raw(b"-1\r\n")], &[CHUNK], 0, Err(BadChunk)),
    (&[CHUNKED, Raw(b"1\r\naGET")], &[CHUNK], 0, Err(BadChunk)),
    (
        &[CHUNKED, Raw(b"1;"), Many(b"x", 4_093), Raw(b"\r\na\r\n")],
        &[CHUNK],
        0,
        Err(BadChunk),
    ),
    (
        &[CHUNKED, Raw(b"0\r\n"), Many(b"A: b\r\n", 101), Raw(b"\r\n")],
        &[CHUNK],
        0,
        Err(BadChunk),
    ),
    // NUL in a header, in a name, in the target, and at the start.
    (
        &[Raw(b"GET /x HTTP/1.1\r\nA: b\x00c\r\n\r\n")],
        &[HEAD],
        0,
        Err(BadHead),
    ),
    (
        &[Raw(b"GET /x HTTP/1.1\r\nA\x00: b\r\n\r\n")],
        &[HEAD],
        0,
        Err(BadHead),
    ),
    (
        &[Raw(b"GET /x\x00 HTTP/1.1\r\n\r\n")],
        &[HEAD],
        0,
        Err(BadHead),
    ),
    (&[Raw(b"\x00")], &[HEAD], 0, Err(BadHead)),
    // The first line of HTTP/2, a folded line, and a space before a colon.
    (
        &[Raw(b"PRI * HTTP/2.0\r\n\r\nSM\r\n\r\n")],
        &[HEAD],
        0,
        Err(BadHead),
    ),
    (
        &[Raw(b"GET /x HTTP/1.1\r\nA: b\r\n Content-Length: 5\r\n\r\n")],
        &[HEAD],
        0,
        Err(BadHead),
    ),
    (
        &[Raw(b"GET /x HTTP/1.1\r\nContent-Length : 5\r\n\r\n")],
        &[HEAD],
        0,
        Err(BadHead),
    ),
    // A body that never comes: the client is told to go on, and no more.
    (
        &[Raw(b"POST /session HTTP/1.1\r\nExpect: 100-continue\r\nContent-Length: 9\r\n\r\n")],
        &[CONTINUE],
        0,
        Ok(End::Cut { at: 0 }),
    ),
    // Bodies: 128 brackets, halves of a pair of surrogates, no UTF-8, a name twice. The connection goes on.
    (
        &[
            Raw(b"POST /session HTTP/1.1\r\nContent-Length: 256\r\n\r\n"),
            Many(b"[", 128),
            Many(b"]", 128),
            Get("/x"),
        ],
        &[DEEP, NO_COMMAND],
        2,
        Ok(End::Closed),
    ),
    (
        &[New("\"\\ud800\""), Get("/x")],
        &[AT_1, NO_COMMAND],
        2,
        Ok(End::Closed),
    ),
    (
        &[New("{\"capabilities\":\"\\udc00\"}"), Get("/x")],
        &[AT_17, NO_COMMAND],
        2,
        Ok(End::Closed),
    ),
    (
        &[
            Raw(b"POST /session HTTP/1.1\r\nContent-Length: 3\r\n\r\n\"\xff\""),
            Get("/x"),
        ],
        &[NOT_UTF8, NO_COMMAND],
        2,
        Ok(End::Closed),
    ),
    (
        &[New("{\"a\":1,\"a\":2}"), Get("/x")],
        &[TWICE, NO_COMMAND],
        2,
        Ok(End::Closed),
    ),
    // A request in the body of another is no request of its own.
    (
        &[Post(
            "/x",
            "DELETE /se/grid/newsessionqueue/queue HTTP/1.1\r\n\r\n",
        )],
        &[NO_COMMAND],
        1,
        Ok(End::Closed),
    ),
];

/// The rows.
pub(crate) fn malicious_rows() -> &'static [MaliciousRow] {
    &MALICIOUS
}

/// The row as a connection to a hub without nodes.
pub(crate) fn malicious_play(row: &MaliciousRow) -> Play {
    let (sends, told, frames, end) = *row;
    Play {
        nodes: &[],
        sends,
        replies: &[],
        told,
        frames,
        end: match end {
            Ok(end) => end,
            Err(why) => End::Refused { why, at: 0 },
        },
        asks: "",
    }
}
