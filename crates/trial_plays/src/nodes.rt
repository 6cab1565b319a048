//! Nodes: how they are shown, how they refuse, and how they come and go.
use crate::messages::{Answered, Asked};
use crate::rows::{CHROME, CREATED, FIREFOX, NOTHING, Row};

const ONE: &[&str] = &["play", "chrome", "1"];

const FREE: &str =
    "{\"value\":{\"ready\":true,\"message\":\"grid is ready\",\"nodes\":[{\"node\":1,\"name\":\"play-1\",\"address\":\"loop:1\",\"availability\":\"UP\",\"maxSessions\":1,\"slots\":[{\"stereotype\":{\"browserName\":\"chrome\",\"browserVersion\":\"126.0\",\"platformName\":\"linux\"},\"states\":[{\"slot\":0,\"state\":\"FREE\",\"session\":null}]}]}]}}";

const SECOND: &str =
    "{\"value\":{\"sessionId\":\"00000000-0000-0002-0000-000000000001\",\"capabilities\":{\"browserName\":\"chrome\",\"browserVersion\":\"126.0\",\"platformName\":\"linux\"}}}";

const REGISTRATION: &str =
    "{\"name\":\"n2\",\"address\":\"127.0.0.1:5555\",\"maxSessions\":1,\"slots\":[{\"count\":1,\"stereotype\":{\"browserName\":\"firefox\"}}]}";

const PLAY_2: &str = "{\"name\":\"play-2\"}";

const NO_NODE: Answered = Answered::Error(
    "400 Bad Request",
    "invalid argument",
    "no registered node has this number",
);

pub(crate) const NODES: &[Row] = &[
    Row {
        words: ONE,
        asked: &[
            Asked::Get("/status"),
            Asked::Get("/se/grid/newsessionqueue/queue"),
        ],
        answered: &[Answered::Success(FREE), Answered::Success("{\"value\":[]}")],
    },
    // It gives a sign of life before each request, so it is still there when a request has waited for five minutes.
    Row {
        words: ONE,
        asked: &[Asked::New(FIREFOX), Asked::Get("/status")],
        answered: &[
            Answered::Error(
                "500 Internal Server Error",
                "session not created",
                "request 1 timed out",
            ),
            Answered::Success(FREE),
        ],
    },
    // A node that refuses a start is not asked again for that request.
    Row {
        words: &["play", "chrome!1", "1", "chrome", "1"],
        asked: &[Asked::New(CHROME)],
        answered: &[Answered::Success(SECOND)],
    },
    Row {
        words: &["play", "chrome!1", "1"],
        asked: &[Asked::New(CHROME), Asked::New(CHROME)],
        answered: &[
            Answered::Error(
                "500 Internal Server Error",
                "session not created",
                "start failed: refused by script",
            ),
            Answered::Success(CREATED),
        ],
    },
    Row {
        words: &["play", "chrome@125.0", "1", "chrome@126.0", "1"],
        asked: &[Asked::New("{\"capabilities\":{\"alwaysMatch\":{\"browserVersion\":\"126\"}}}")],
        answered: &[Answered::Success(SECOND)],
    },
    Row {
        words: &["play", "chrome", "1", "chrome", "1"],
        asked: &[
            Asked::Delete("/se/grid/distributor/node/1"),
            Asked::New(CHROME),
        ],
        answered: &[Answered::Success(NOTHING), Answered::Success(SECOND)],
    },
    // A node that registers by itself, under a name that is taken from then on, at an address where nothing answers.
    Row {
        words: ONE,
        asked: &[
            Asked::Send("/se/grid/distributor/node", REGISTRATION),
            Asked::Send("/se/grid/distributor/node", REGISTRATION),
            Asked::New(FIREFOX),
        ],
        answered: &[
            Answered::Success("{\"value\":{\"node\":2}}"),
            Answered::Error(
                "400 Bad Request",
                "invalid argument",
                "name is taken by node 2",
            ),
            Answered::Error(
                "500 Internal Server Error",
                "session not created",
                "start failed: node is unreachable",
            ),
        ],
    },
    Row {
        words: ONE,
        asked: &[
            Asked::Post("/se/grid/distributor/node/9/beat"),
            Asked::Post("/se/grid/distributor/node/1/beat"),
        ],
        answered: &[NO_NODE, Answered::Success(NOTHING)],
    },
    // Nodes 1 and 2 are play-1 and play-2: a beat under a name is heard where it is the name of the node of that number.
    Row {
        words: &["play", "chrome", "1", "chrome", "1"],
        asked: &[
            Asked::Send("/se/grid/distributor/node/2/beat", PLAY_2),
            Asked::Send("/se/grid/distributor/node/1/beat", PLAY_2),
            Asked::Send("/se/grid/distributor/node/3/beat", PLAY_2),
            Asked::Send("/se/grid/distributor/node/03/beat", "{}"),
            Asked::Send("/se/grid/distributor/node/1/beat", "{}"),
        ],
        answered: &[
            Answered::Success(NOTHING),
            NO_NODE,
            NO_NODE,
            NO_NODE,
            Answered::Error(
                "400 Bad Request",
                "invalid argument",
                "beat: name is refused",
            ),
        ],
    },
];
