//! What a request asks for, and what it may not.
use crate::messages::{Answered, Asked};
use crate::rows::{CHROME, CREATED, FIREFOX, NOTHING, Row};

const ONE: &[&str] = &["play", "chrome", "1"];

const NO_BODY: &str = "{}";

pub(crate) const REQUESTS: &[Row] = &[
    Row {
        words: ONE,
        asked: &[Asked::New(CHROME)],
        answered: &[Answered::Success(CREATED)],
    },
    Row {
        words: ONE,
        asked: &[],
        answered: &[],
    },
    Row {
        words: ONE,
        asked: &[Asked::New(CHROME), Asked::New(CHROME)],
        answered: &[
            Answered::Success(CREATED),
            Answered::Error(
                "500 Internal Server Error",
                "session not created",
                "request 2 timed out",
            ),
        ],
    },
    Row {
        words: ONE,
        asked: &[Asked::New(
            "{\"capabilities\":{\"alwaysMatch\":{\"browserName\":null},\"firstMatch\":[{\"browserName\":\"chrome\"}]}}",
        )],
        answered: &[Answered::Success(CREATED)],
    },
    Row {
        words: ONE,
        asked: &[Asked::New(
            "{\"capabilities\":{\"alwaysMatch\":{\"browserName\":\"chrome\"},\"firstMatch\":[{\"browserName\":\"chrome\"}]}}",
        )],
        answered: &[Answered::Error(
            "400 Bad Request",
            "invalid argument",
            "firstMatch 0: browserName stands in alwaysMatch too",
        )],
    },
    Row {
        words: ONE,
        asked: &[Asked::New("{\"capabilities\":{\"firstMatch\":[]}}")],
        answered: &[Answered::Error(
            "400 Bad Request",
            "invalid argument",
            "firstMatch is not a list with an entry",
        )],
    },
    Row {
        words: ONE,
        asked: &[Asked::New("{\"capabilities\":{\"firstMatch\":[{}]}}")],
        answered: &[Answered::Success(CREATED)],
    },
    Row {
        words: ONE,
        asked: &[Asked::New("{\"capabilities\":{}}")],
        answered: &[Answered::Success(CREATED)],
    },
    Row {
        words: ONE,
        asked: &[Asked::New(
            "{\"capabilities\": {\"firstMatch\": [{\"browserName\": \"chrome\", \"goog:chromeOptions\": {\"args\": [\"--headless=new\"], \"mobileEmulation\": {\"deviceMetrics\": {\"pixelRatio\": 3.0}}}}]}}",
        )],
        answered: &[Answered::Success(CREATED)],
    },
    Row {
        words: &["play", "firefox", "1"],
        asked: &[Asked::New(
            "{\"capabilities\":{\"firstMatch\":[{\"browserName\":\"safari\"},{\"browserName\":\"firefox\"}]}}",
        )],
        answered: &[Answered::Success(
            "{\"value\":{\"sessionId\":\"00000000-0000-0001-0000-000000000001\",\"capabilities\":{\"browserName\":\"firefox\",\"browserVersion\":\"126.0\",\"platformName\":\"linux\"}}}",
        )],
    },
    // A request that no slot matches waits until its time is over, or is refused at once.
    Row {
        words: ONE,
        asked: &[Asked::New(FIREFOX)],
        answered: &[Answered::Error(
            "500 Internal Server Error",
            "session not created",
            "request 1 timed out",
        )],
    },
    Row {
        words: &["play", "chrome", "1", "--reject-unsupported-caps", "true"],
        asked: &[Asked::New(FIREFOX)],
        answered: &[Answered::Error(
            "500 Internal Server Error",
            "session not created",
            "no registered slot matches",
        )],
    },
    // It may ask for a time of its own.
    Row {
        words: ONE,
        asked: &[Asked::New(
            "{\"capabilities\":{\"alwaysMatch\":{\"browserName\":\"safari\",\"grid:queueTimeout\":2000}}}",
        )],
        answered: &[Answered::Error(
            "500 Internal Server Error",
            "session not created",
            "request 1 timed out",
        )],
    },
    Row {
        words: ONE,
        asked: &[Asked::New(
            "{\"capabilities\":{\"alwaysMatch\":{\"browserName\":\"safari\",\"grid:queueTimeout\":999}}}",
        )],
        answered: &[Answered::Error(
            "400 Bad Request",
            "invalid argument",
            "alwaysMatch: grid:queueTimeout is refused",
        )],
    },
    Row {
        words: ONE,
        asked: &[Asked::New(NO_BODY)],
        answered: &[Answered::Error(
            "400 Bad Request",
            "invalid argument",
            "capabilities is not an object",
        )],
    },
    Row {
        words: ONE,
        asked: &[Asked::Send("/wd/hub/session", CHROME)],
        answered: &[Answered::Success(CREATED)],
    },
    Row {
        words: ONE,
        asked: &[
            Asked::Bytes(b"PUT /session HTTP/1.1\r\nHost: h\r\n\r\n"),
            Asked::Get("/nothing"),
            Asked::Post("/nothing"),
        ],
        answered: &[
            Answered::Error(
                "405 Method Not Allowed",
                "unknown method",
                "this path has no such method",
            ),
            Answered::Error(
                "404 Not Found",
                "unknown command",
                "no command has this path",
            ),
            Answered::Error(
                "404 Not Found",
                "unknown command",
                "no command has this path",
            ),
        ],
    },
    // Two lengths end the connection, and what stands behind is not answered.
    Row {
        words: ONE,
        asked: &[
            Asked::Bytes(
                b"POST /session HTTP/1.1\r\nHost: h\r\nContent-Length: 2\r\nTransfer-Encoding: chunked\r\n\r\n{}",
            ),
            Asked::Get("/status"),
        ],
        answered: &[Answered::LastError(
            "400 Bad Request",
            "invalid argument",
            "bad request: both lengths",
        )],
    },
    // So does a client that asks for it.
    Row {
        words: ONE,
        asked: &[
            Asked::Bytes(
                b"POST /session HTTP/1.1\r\nHost: h\r\nContent-Length: 57\r\nConnection: close\r\n\r\n{\"capabilities\":{\"alwaysMatch\":{\"browserName\":\"chrome\"}}}",
            ),
            Asked::New(CHROME),
        ],
        answered: &[Answered::LastSuccess(CREATED)],
    },
    // A body in one chunk, and a client that waits with its body.
    Row {
        words: ONE,
        asked: &[Asked::Bytes(
            b"POST /session HTTP/1.1\r\nHost: h\r\nTransfer-Encoding: chunked\r\n\r\n39;x=1\r\n{\"capabilities\":{\"alwaysMatch\":{\"browserName\":\"chrome\"}}}\r\n0\r\n\r\n",
        )],
        answered: &[Answered::Success(CREATED)],
    },
    Row {
        words: ONE,
        asked: &[Asked::Bytes(
            b"POST /session HTTP/1.1\r\nHost: h\r\nContent-Length: 57\r\nExpect: 100-continue\r\n\r\n{\"capabilities\":{\"alwaysMatch\":{\"browserName\":\"chrome\"}}}",
        )],
        answered: &[Answered::Continue, Answered::Success(CREATED)],
    },
    Row {
        words: ONE,
        asked: &[
            Asked::New(CHROME),
            Asked::Delete("/se/grid/newsessionqueue/queue"),
            Asked::Get("/se/grid/newsessionqueue/queue"),
        ],
        answered: &[
            Answered::Success(CREATED),
            Answered::Success("{\"value\":0}"),
            Answered::Success("{\"value\":[]}"),
        ],
    },
];
