//! Sessions that are used, ended and left alone.
use crate::messages::{Answered, Asked};
use crate::rows::{CHROME, CREATED, NOTHING, Row};

const ONE: &[&str] = &["play", "chrome", "1"];

const PATH: &str = "/session/00000000-0000-0001-0000-000000000001";

const URL: &str = "/session/00000000-0000-0001-0000-000000000001/url";

pub(crate) const SESSIONS: &[Row] = &[
    Row {
        words: ONE,
        asked: &[
            Asked::New(CHROME),
            Asked::Delete(PATH),
            Asked::Delete(PATH),
            Asked::Get(URL),
        ],
        answered: &[
            Answered::Success(CREATED),
            Answered::Success(NOTHING),
            Answered::Error("404 Not Found", "invalid session id", "no such session"),
            Answered::Error("404 Not Found", "invalid session id", "no such session"),
        ],
    },
    Row {
        words: ONE,
        asked: &[Asked::New(CHROME), Asked::Delete(PATH), Asked::New(CHROME)],
        answered: &[
            Answered::Success(CREATED),
            Answered::Success(NOTHING),
            Answered::Success(
                "{\"value\":{\"sessionId\":\"00000000-0000-0001-0000-000000000002\",\"capabilities\":{\"browserName\":\"chrome\",\"browserVersion\":\"126.0\",\"platformName\":\"linux\"}}}",
            ),
        ],
    },
    Row {
        words: ONE,
        asked: &[
            Asked::New(CHROME),
            Asked::Send(URL, "{\"url\":\"http://a/\"}"),
            Asked::Get(URL),
        ],
        answered: &[
            Answered::Success(CREATED),
            Answered::Success(NOTHING),
            Answered::Success("{\"value\":\"http://a/\"}"),
        ],
    },
    // A session that is left alone for as long as the second request waits is ended before the third.
    Row {
        words: ONE,
        asked: &[Asked::New(CHROME), Asked::New(CHROME), Asked::Delete(PATH)],
        answered: &[
            Answered::Success(CREATED),
            Answered::Error(
                "500 Internal Server Error",
                "session not created",
                "request 2 timed out",
            ),
            Answered::Error("404 Not Found", "invalid session id", "no such session"),
        ],
    },
    // A node that drains keeps its session, takes no other, and is removed once it has ended.
    Row {
        words: &["play", "chrome", "2", "--session-request-timeout", "10"],
        asked: &[
            Asked::New(CHROME),
            Asked::Post("/se/grid/distributor/node/1/drain"),
            Asked::Get(URL),
            Asked::New(CHROME),
            Asked::Delete(PATH),
            Asked::Get("/status"),
        ],
        answered: &[
            Answered::Success(CREATED),
            Answered::Success(NOTHING),
            Answered::Success("{\"value\":\"about:blank\"}"),
            Answered::Error(
                "500 Internal Server Error",
                "session not created",
                "request 2 timed out",
            ),
            Answered::Success(NOTHING),
            Answered::Success(
                "{\"value\":{\"ready\":false,\"message\":\"grid has no free slot\",\"nodes\":[]}}",
            ),
        ],
    },
];
