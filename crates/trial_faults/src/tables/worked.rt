//! Worked connections.
use crate::tables::plays::{Play, Sends};
use crate::tables::{BAD, CONTINUE, FAULT, NO_COMMAND, NO_SESSION, NULL, OK, Told};
use Sends::{Delete, Get, New, Post, Raw};
use http_frames::FrameFault;
use hub_conn::End;

type Node = (&'static str, &'static str, u8);

const CHROME_NODE: Node = ("chrome", "126.0", 1);

const FIREFOX_NODE: Node = ("firefox", "126.0", 1);

const CHROME: &str = "{\"capabilities\":{\"alwaysMatch\":{\"browserName\":\"chrome\"}}}";

const FIREFOX: &str = "{\"capabilities\":{\"alwaysMatch\":{\"browserName\":\"firefox\"}}}";

const ANY: &str = "{\"capabilities\":{}}";

// Sessions of the nodes 1 and 2.
const SESSION_1: &str =
    "{\"value\":{\"sessionId\":\"00000000-0000-0001-0000-000000000001\",\"capabilities\":{\"browserName\":\"chrome\",\"browserVersion\":\"126.0\",\"platformName\":\"linux\"}}}";

const SESSION_2: &str =
    "{\"value\":{\"sessionId\":\"00000000-0000-0001-0000-000000000002\",\"capabilities\":{\"browserName\":\"chrome\",\"browserVersion\":\"126.0\",\"platformName\":\"linux\"}}}";

const OTHER_1: &str =
    "{\"value\":{\"sessionId\":\"00000000-0000-0002-0000-000000000001\",\"capabilities\":{\"browserName\":\"chrome\",\"browserVersion\":\"126.0\",\"platformName\":\"linux\"}}}";

const FIREFOX_1: &str =
    "{\"value\":{\"sessionId\":\"00000000-0000-0001-0000-000000000001\",\"capabilities\":{\"browserName\":\"firefox\",\"browserVersion\":\"126.0\",\"platformName\":\"linux\"}}}";

const NAMES_A: &str =
    "{\"value\":{\"sessionId\":\"a\",\"capabilities\":{\"browserName\":\"chrome\"}}}";

const REPEATS: &str =
    "{\"value\":{\"sessionId\":\"a\",\"capabilities\":{\"browserName\":\"chrome\",\"browserName\":\"chrome\"}}}";

const REFUSED: &str =
    "{\"value\":{\"error\":\"session not created\",\"message\":\"refused by script\",\"stacktrace\":\"\"}}";

const DONE: &str = "{\"value\":null}";

const AT_1: &str = "/session/00000000-0000-0001-0000-000000000001";

const URL_1: &str = "/session/00000000-0000-0001-0000-000000000001/url";

const NODES: &str = "/se/grid/distributor/node";

const X300: &str =
    "{\"value\":{\"message\":\"xxxxxxxxxxxxxxxxxxxxxxxxxxxxxxxxxxxxxxxxxxxxxxxxxxxxxxxxxxxxxxxxxxxxxxxxxxxxxxxxxxxxxxxxxxxxxxxxxxxxxxxxxxxxxxxxxxxxxxxxxxxxxxxxxxxxxxxxxxxxxxxxxxxxxxxxxxxxxxxxxxxxxxxxxxxxxxxxxxxxxxxxxxxxxxxxxxxxxxxxxxxxxxxxxxxxxxxxxxxxxxxxxxxxxxxxxxxxxxxxxxxxxxxxxxxxxxxxxxxxxxxxxxxxxxxxxxxxxxxxxxxxxxxxxxxxxxxxxxxx\"}}";

const CREATED_1: Told = Told::Hub(OK, SESSION_1);

const TIMED_OUT_1: Told = Told::Hub(
    FAULT,
    "{\"value\":{\"error\":\"session not created\",\"message\":\"request 1 timed out\",\"stacktrace\":\"\"}}",
);

const TIMED_OUT_2: Told = Told::Hub(
    FAULT,
    "{\"value\":{\"error\":\"session not created\",\"message\":\"request 2 timed out\",\"stacktrace\":\"\"}}",
);

const CLASH: Told = Told::Hub(
    BAD,
    "{\"value\":{\"error\":\"invalid argument\",\"message\":\"firstMatch 0: browserName stands in alwaysMatch too\",\"stacktrace\":\"\"}}",
);

const NO_ENTRY: Told = Told::Hub(
    BAD,
    "{\"value\":{\"error\":\"invalid argument\",\"message\":\"firstMatch is not a list with an entry\",\"stacktrace\":\"\"}}",
);

const NO_CAPABILITIES: Told = Told::Hub(
    BAD,
    "{\"value\":{\"error\":\"invalid argument\",\"message\":\"capabilities is not an object\",\"stacktrace\":\"\"}}",
);

const BROWSER: Told = Told::Hub(
    BAD,
    "{\"value\":{\"error\":\"invalid argument\",\"message\":\"alwaysMatch: browser is refused\",\"stacktrace\":\"\"}}",
);

const QUEUE_TIME: Told = Told::Hub(
    BAD,
    "{\"value\":{\"error\":\"invalid argument\",\"message\":\"alwaysMatch: grid:queueTimeout is refused\",\"stacktrace\":\"\"}}",
);

const UNSUPPORTED: Told = Told::Hub(
    FAULT,
    "{\"value\":{\"error\":\"session not created\",\"message\":\"no registered slot matches\",\"stacktrace\":\"\"}}",
);

const TIMEOUTS: Told = Told::Hub(
    BAD,
    "{\"value\":{\"error\":\"invalid argument\",\"message\":\"firstMatch 1: timeouts is refused\",\"stacktrace\":\"\"}}",
);

const BY_SCRIPT: Told = Told::Hub(
    FAULT,
    "{\"value\":{\"error\":\"session not created\",\"message\":\"start failed: refused by script\",\"stacktrace\":\"\"}}",
);

const NAMELESS: Told = Told::Hub(
    FAULT,
    "{\"value\":{\"error\":\"session not created\",\"message\":\"start failed: node's reply names no session\",\"stacktrace\":\"\"}}",
);

const MISMATCH: Told = Told::Hub(
    FAULT,
    "{\"value\":{\"error\":\"session not created\",\"message\":\"start failed: node's capabilities do not match\",\"stacktrace\":\"\"}}",
);

const DUPLICATE: Told = Told::Hub(
    FAULT,
    "{\"value\":{\"error\":\"session not created\",\"message\":\"start failed: node's session id is in use\",\"stacktrace\":\"\"}}",
);

const NOT_STARTED: Told = Told::Hub(
    FAULT,
    "{\"value\":{\"error\":\"session not created\",\"message\":\"start failed: node is unreachable\",\"stacktrace\":\"\"}}",
);

const NO_HTTP_STARTED: Told = Told::Hub(
    FAULT,
    "{\"value\":{\"error\":\"session not created\",\"message\":\"start failed: node's reply is not HTTP\",\"stacktrace\":\"\"}}",
);

const X200: Told = Told::Hub(
    FAULT,
    "{\"value\":{\"error\":\"session not created\",\"message\":\"start failed: xxxxxxxxxxxxxxxxxxxxxxxxxxxxxxxxxxxxxxxxxxxxxxxxxxxxxxxxxxxxxxxxxxxxxxxxxxxxxxxxxxxxxxxxxxxxxxxxxxxxxxxxxxxxxxxxxxxxxxxxxxxxxxxxxxxxxxxxxxxxxxxxxxxxxxxxxxxxxxxxxxxxxxxxxxxxxxxxxxxxxxxxxxxxxxxxxxxxxxxx\",\"stacktrace\":\"\"}}",
);

const UNREACHABLE: Told = Told::Hub(
    FAULT,
    "{\"value\":{\"error\":\"unknown error\",\"message\":\"node is unreachable\",\"stacktrace\":\"\"}}",
);

const NOT_HTTP: Told = Told::Hub(
    FAULT,
    "{\"value\":{\"error\":\"unknown error\",\"message\":\"node's reply is not HTTP\",\"stacktrace\":\"\"}}",
);

const TAKEN: Told = Told::Hub(
    BAD,
    "{\"value\":{\"error\":\"invalid argument\",\"message\":\"name is taken by node 2\",\"stacktrace\":\"\"}}",
);

const NO_NODE: Told = Told::Hub(
    BAD,
    "{\"value\":{\"error\":\"invalid argument\",\"message\":\"no registered node has this number\",\"stacktrace\":\"\"}}",
);

const NO_METHOD: Told = Told::Hub(
    "405 Method Not Allowed",
    "{\"value\":{\"error\":\"unknown method\",\"message\":\"this path has no such method\",\"stacktrace\":\"\"}}",
);

const BOTH_LENGTHS: Told = Told::Last(
    BAD,
    "{\"value\":{\"error\":\"invalid argument\",\"message\":\"bad request: both lengths\",\"stacktrace\":\"\"}}",
);

const NODE_2: Told = Told::Hub(OK, "{\"value\":{\"node\":2}}");

const QUEUE: Told = Told::Hub(OK, "{\"value\":[]}");

const FREE: Told = Told::Hub(
    OK,
    "{\"value\":{\"ready\":true,\"message\":\"grid is ready\",\"nodes\":[{\"node\":1,\"name\":\"play-1\",\"address\":\"loop:1\",\"availability\":\"UP\",\"maxSessions\":1,\"slots\":[{\"stereotype\":{\"browserName\":\"chrome\",\"browserVersion\":\"126.0\",\"platformName\":\"linux\"},\"states\":[{\"slot\":0,\"state\":\"FREE\",\"session\":null}]}]}]}}",
);

const SUSPECT: Told = Told::Hub(
    OK,
    "{\"value\":{\"ready\":false,\"message\":\"grid has no free slot\",\"nodes\":[{\"node\":1,\"name\":\"play-1\",\"address\":\"loop:1\",\"availability\":\"SUSPECT\",\"maxSessions\":1,\"slots\":[{\"stereotype\":{\"browserName\":\"chrome\",\"browserVersion\":\"126.0\",\"platformName\":\"linux\"},\"states\":[{\"slot\":0,\"state\":\"FREE\",\"session\":null}]}]}]}}",
);

const NO_NODES: Told = Told::Hub(
    OK,
    "{\"value\":{\"ready\":false,\"message\":\"grid has no free slot\",\"nodes\":[]}}",
);

const DRAINED: Told = Told::Hub(
    OK,
    "{\"value\":{\"ready\":false,\"message\":\"grid has no free slot\",\"nodes\":[{\"node\":1,\"name\":\"play-1\",\"address\":\"loop:1\",\"availability\":\"DRAINING\",\"maxSessions\":2,\"slots\":[{\"stereotype\":{\"browserName\":\"chrome\",\"browserVersion\":\"126.0\",\"platformName\":\"linux\"},\"states\":[{\"slot\":0,\"state\":\"FREE\",\"session\":null},{\"slot\":1,\"state\":\"FREE\",\"session\":null}]}]}]}}",
);

const BLANK: Told = Told::Raw(
    "HTTP/1.1 200 R\r\nContent-Length: 23\r\n\r\n{\"value\":\"about:blank\"}",
);

const SET: Told = Told::Raw("HTTP/1.1 200 R\r\nContent-Length: 14\r\n\r\n{\"value\":null}");

const HTTP_A: Told = Told::Raw(
    "HTTP/1.1 200 R\r\nContent-Length: 21\r\n\r\n{\"value\":\"http://a/\"}",
);

const ASKS_1: &str = "POST loop:1/session; ";

/// Sessions that are asked for. Each goes the same way over each hub, as those below.
pub(crate) static STARTED: [Play; 11] = [
    // A session; nothing; two where one fits; in whatever form it is asked for.
    Play {
        nodes: &[CHROME_NODE],
        sends: &[New(CHROME)],
        replies: &[(200, SESSION_1)],
        told: &[CREATED_1],
        frames: 1,
        end: End::Closed,
        asks: ASKS_1,
    },
    Play {
        nodes: &[CHROME_NODE],
        sends: &[],
        replies: &[],
        told: &[],
        frames: 0,
        end: End::Closed,
        asks: "",
    },
    Play {
        nodes: &[CHROME_NODE],
        sends: &[New(CHROME), New(CHROME)],
        replies: &[(200, SESSION_1)],
        told: &[CREATED_1, TIMED_OUT_2],
        frames: 2,
        end: End::Closed,
        asks: ASKS_1,
    },
    Play {
        nodes: &[CHROME_NODE],
        sends: &[New(
            "{\"capabilities\":{\"alwaysMatch\":{\"browserName\":null},\"firstMatch\":[{\"browserName\":\"chrome\"}]}}",
        )],
        replies: &[(200, SESSION_1)],
        told: &[CREATED_1],
        frames: 1,
        end: End::Closed,
        asks: ASKS_1,
    },
    Play {
        nodes: &[CHROME_NODE],
        sends: &[New("{\"capabilities\":{\"firstMatch\":[{}]}}")],
        replies: &[(200, SESSION_1)],
        told: &[CREATED_1],
        frames: 1,
        end: End::Closed,
        asks: ASKS_1,
    },
    Play {
        nodes: &[CHROME_NODE],
        sends: &[New(ANY)],
        replies: &[(200, SESSION_1)],
        told: &[CREATED_1],
        frames: 1,
        end: End::Closed,
        asks: ASKS_1,
    },
    Play {
        nodes: &[CHROME_NODE],
        sends: &[New(
            "{\"capabilities\": {\"firstMatch\": [{\"browserName\": \"chrome\", \"goog:chromeOptions\": {\"args\": [\"--headless=new\"], \"mobileEmulation\": {\"deviceMetrics\": {\"pixelRatio\": 3.0}}}}]}}",
        )],
        replies: &[(200, SESSION_1)],
        told: &[CREATED_1],
        frames: 1,
        end: End::Closed,
        asks: ASKS_1,
    },
    Play {
        nodes: &[FIREFOX_NODE],
        sends: &[New(
            "{\"capabilities\":{\"firstMatch\":[{\"browserName\":\"safari\"},{\"browserName\":\"firefox\"}]}}",
        )],
        replies: &[(200, FIREFOX_1)],
        told: &[Told::Hub(OK, FIREFOX_1)],
        frames: 1,
        end: End::Closed,
        asks: ASKS_1,
    },
    // Requests that are refused, behind which the connection goes on.
    Play {
        nodes: &[CHROME_NODE],
        sends: &[
            New(
                "{\"capabilities\":{\"alwaysMatch\":{\"browserName\":\"chrome\"},\"firstMatch\":[{\"browserName\":\"chrome\"}]}}",
            ),
            New("{\"capabilities\":{\"firstMatch\":[]}}"),
            New("{}"),
            New("{\"desiredCapabilities\":{}}"),
            New("{\"capabilities\":{\"alwaysMatch\":{\"browser\":\"chrome\"}}}"),
            New("{\"capabilities\":{\"firstMatch\":[{},{\"timeouts\":{\"script\":-1}}]}}"),
            Post("/nothing", ""),
            Get("/nothing"),
            Raw(b"PUT /session HTTP/1.1\r\nHost: h\r\n\r\n"),
            Post("/se/grid/distributor/node/9/beat", ""),
            New(CHROME),
        ],
        replies: &[(200, SESSION_1)],
        told: &[
            CLASH,
            NO_ENTRY,
            NO_CAPABILITIES,
            NO_CAPABILITIES,
            BROWSER,
            TIMEOUTS,
            NO_COMMAND,
            NO_COMMAND,
            NO_METHOD,
            NO_NODE,
            CREATED_1,
        ],
        frames: 11,
        end: End::Closed,
        asks: ASKS_1,
    },
    // A start that fails goes on at another node, or fails the request.
    Play {
        nodes: &[CHROME_NODE, CHROME_NODE],
        sends: &[New(CHROME)],
        replies: &[(500, REFUSED), (200, OTHER_1)],
        told: &[Told::Hub(OK, OTHER_1)],
        frames: 1,
        end: End::Closed,
        asks: "POST loop:1/session; POST loop:2/session; ",
    },
    Play {
        nodes: &[CHROME_NODE],
        sends: &[New(CHROME), New(CHROME)],
        replies: &[(500, REFUSED), (200, SESSION_1)],
        told: &[BY_SCRIPT, CREATED_1],
        frames: 2,
        end: End::Closed,
        asks: "POST loop:1/session; POST loop:1/session; ",
    },
];

/// Sessions that are used, nodes that are chosen or gone, and how long a request waits.
pub(crate) static USED: [Play; 7] = [
    // Sessions that are used and ended.
    Play {
        nodes: &[CHROME_NODE],
        sends: &[New(CHROME), Delete(AT_1), Delete(AT_1), Get(URL_1)],
        replies: &[(200, SESSION_1), (200, DONE)],
        told: &[CREATED_1, NULL, NO_SESSION, NO_SESSION],
        frames: 4,
        end: End::Closed,
        asks: "POST loop:1/session; DELETE loop:1/session/00000000-0000-0001-0000-000000000001; ",
    },
    Play {
        nodes: &[CHROME_NODE],
        sends: &[New(CHROME), Delete(AT_1), New(CHROME)],
        replies: &[(200, SESSION_1), (200, DONE), (200, SESSION_2)],
        told: &[CREATED_1, NULL, Told::Hub(OK, SESSION_2)],
        frames: 3,
        end: End::Closed,
        asks: "POST loop:1/session; DELETE loop:1/session/00000000-0000-0001-0000-000000000001; POST loop:1/session; ",
    },
    Play {
        nodes: &[CHROME_NODE],
        sends: &[
            New(CHROME),
            Post(URL_1, "{\"url\":\"http://a/\"}"),
            Get(URL_1),
        ],
        replies: &[
            (200, SESSION_1),
            (200, DONE),
            (200, "{\"value\":\"http://a/\"}"),
        ],
        told: &[CREATED_1, SET, HTTP_A],
        frames: 3,
        end: End::Closed,
        asks: "POST loop:1/session; POST loop:1/session/00000000-0000-0001-0000-000000000001/url; GET loop:1/session/00000000-0000-0001-0000-000000000001/url; ",
    },
    // No node for the browser, or for the version; a node that was removed.
    Play {
        nodes: &[CHROME_NODE],
        sends: &[New(FIREFOX)],
        replies: &[],
        told: &[TIMED_OUT_1],
        frames: 1,
        end: End::Closed,
        asks: "",
    },
    Play {
        nodes: &[("chrome", "125.0", 1), CHROME_NODE],
        sends: &[New("{\"capabilities\":{\"alwaysMatch\":{\"browserVersion\":\"126\"}}}")],
        replies: &[(200, OTHER_1)],
        told: &[Told::Hub(OK, OTHER_1)],
        frames: 1,
        end: End::Closed,
        asks: "POST loop:2/session; ",
    },
    Play {
        nodes: &[CHROME_NODE, CHROME_NODE],
        sends: &[Delete("/se/grid/distributor/node/1"), New(CHROME)],
        replies: &[(200, OTHER_1)],
        told: &[NULL, Told::Hub(OK, OTHER_1)],
        frames: 2,
        end: End::Closed,
        asks: "POST loop:2/session; ",
    },
    // How long a request waits of its own: too short a time, and two seconds.
    Play {
        nodes: &[CHROME_NODE],
        sends: &[
            New("{\"capabilities\":{\"alwaysMatch\":{\"grid:queueTimeout\":999}}}"),
            New(
                "{\"capabilities\":{\"alwaysMatch\":{\"browserName\":\"safari\",\"grid:queueTimeout\":2000}}}",
            ),
        ],
        replies: &[],
        told: &[QUEUE_TIME, TIMED_OUT_1],
        frames: 2,
        end: End::Closed,
        asks: "",
    },
];

/// The forms of a request, the status, the queue, and nodes that register.
pub(crate) static FORMS: [Play; 9] = [
    // The forms of a request: cut short, with both lengths, on an older path, that closes, in chunks, with a client that waits.
    Play {
        nodes: &[CHROME_NODE],
        sends: &[Raw(
            b"POST /session HTTP/1.1\r\nHost: h\r\nContent-Length: 57\r\n\r\n{\"capabilities\":{\"alwaysMatch\":{\"browserName\"",
        )],
        replies: &[],
        told: &[],
        frames: 0,
        end: End::Cut { at: 0 },
        asks: "",
    },
    Play {
        nodes: &[CHROME_NODE],
        sends: &[
            New(CHROME),
            Raw(b"POST /session HTTP/1.1\r\nHost: h\r\nContent-Length: 57\r\n\r\n{\"capa"),
        ],
        replies: &[(200, SESSION_1)],
        told: &[CREATED_1],
        frames: 1,
        end: End::Cut { at: 112 },
        asks: ASKS_1,
    },
    Play {
        nodes: &[CHROME_NODE],
        sends: &[
            Raw(
                b"POST /session HTTP/1.1\r\nHost: h\r\nContent-Length: 2\r\nTransfer-Encoding: chunked\r\n\r\n{}",
            ),
            Get("/status"),
        ],
        replies: &[],
        told: &[BOTH_LENGTHS],
        frames: 0,
        end: End::Refused {
            why: FrameFault::BothLengths,
            at: 0,
        },
        asks: "",
    },
    Play {
        nodes: &[CHROME_NODE],
        sends: &[Post("/wd/hub/session", CHROME)],
        replies: &[(200, SESSION_1)],
        told: &[CREATED_1],
        frames: 1,
        end: End::Closed,
        asks: ASKS_1,
    },
    Play {
        nodes: &[CHROME_NODE],
        sends: &[
            Raw(
                b"POST /session HTTP/1.1\r\nHost: h\r\nContent-Length: 57\r\nConnection: close\r\n\r\n{\"capabilities\":{\"alwaysMatch\":{\"browserName\":\"chrome\"}}}",
            ),
            New(CHROME),
        ],
        replies: &[(200, SESSION_1)],
        told: &[Told::Last(OK, SESSION_1)],
        frames: 1,
        end: End::Asked,
        asks: ASKS_1,
    },
    Play {
        nodes: &[CHROME_NODE],
        sends: &[Raw(
            b"POST /session HTTP/1.1\r\nHost: h\r\nTransfer-Encoding: chunked\r\n\r\n39;x=1\r\n{\"capabilities\":{\"alwaysMatch\":{\"browserName\":\"chrome\"}}}\r\n0\r\n\r\n",
        )],
        replies: &[(200, SESSION_1)],
        told: &[CREATED_1],
        frames: 1,
        end: End::Closed,
        asks: ASKS_1,
    },
    Play {
        nodes: &[CHROME_NODE],
        sends: &[Raw(
            b"POST /session HTTP/1.1\r\nHost: h\r\nContent-Length: 57\r\nExpect: 100-continue\r\n\r\n{\"capabilities\":{\"alwaysMatch\":{\"browserName\":\"chrome\"}}}",
        )],
        replies: &[(200, SESSION_1)],
        told: &[CONTINUE, CREATED_1],
        frames: 1,
        end: End::Closed,
        asks: ASKS_1,
    },
    // The status, the queue, and nodes that register.
    Play {
        nodes: &[CHROME_NODE],
        sends: &[Get("/status"), Get("/se/grid/newsessionqueue/queue")],
        replies: &[],
        told: &[FREE, QUEUE],
        frames: 2,
        end: End::Closed,
        asks: "",
    },
    Play {
        nodes: &[CHROME_NODE],
        sends: &[
            Post(
                NODES,
                "{\"name\":\"n2\",\"address\":\"127.0.0.1:5555\",\"maxSessions\":1,\"slots\":[{\"count\":1,\"stereotype\":{\"browserName\":\"firefox\"}}]}",
            ),
            Post(
                NODES,
                "{\"name\":\"n2\",\"address\":\"127.0.0.1:5555\",\"maxSessions\":1,\"slots\":[{\"count\":1,\"stereotype\":{\"browserName\":\"firefox\"}}]}",
            ),
            New(FIREFOX),
        ],
        replies: &[],
        told: &[NODE_2, TAKEN, NOT_STARTED],
        frames: 3,
        end: End::Closed,
        asks: "POST 127.0.0.1:5555/session; ",
    },
];

/// What nodes reply that misbehave.
pub(crate) static MISBEHAVING: [Play; 13] = [
    // A relay that is answered with no HTTP, and one that does not reach its node.
    Play {
        nodes: &[CHROME_NODE],
        sends: &[New(CHROME), Get(URL_1), Get(URL_1)],
        replies: &[(200, SESSION_1), (0, "SSH-2.0")],
        told: &[CREATED_1, NOT_HTTP, UNREACHABLE],
        frames: 3,
        end: End::Closed,
        asks: "POST loop:1/session; GET loop:1/session/00000000-0000-0001-0000-000000000001/url; GET loop:1/session/00000000-0000-0001-0000-000000000001/url; ",
    },
    // Another browser than the one that was wanted.
    Play {
        nodes: &[CHROME_NODE],
        sends: &[New(CHROME)],
        replies: &[(200, FIREFOX_1), (200, DONE)],
        told: &[MISMATCH],
        frames: 1,
        end: End::Closed,
        asks: "POST loop:1/session; DELETE loop:1/session/00000000-0000-0001-0000-000000000001; ",
    },
    // A name that is no session id, none at all, and no reply.
    Play {
        nodes: &[CHROME_NODE],
        sends: &[New(CHROME)],
        replies: &[(
            200,
            "{\"value\":{\"sessionId\":\"a b\",\"capabilities\":{}}}",
        )],
        told: &[NAMELESS],
        frames: 1,
        end: End::Closed,
        asks: ASKS_1,
    },
    Play {
        nodes: &[CHROME_NODE],
        sends: &[New(CHROME)],
        replies: &[(200, "null")],
        told: &[NAMELESS],
        frames: 1,
        end: End::Closed,
        asks: ASKS_1,
    },
    // Another status than that of a success, a name that stands twice, and no HTTP.
    Play {
        nodes: &[CHROME_NODE],
        sends: &[New(CHROME)],
        replies: &[(201, NAMES_A)],
        told: &[NAMELESS],
        frames: 1,
        end: End::Closed,
        asks: ASKS_1,
    },
    Play {
        nodes: &[CHROME_NODE],
        sends: &[New(CHROME)],
        replies: &[(
            200,
            "{\"value\":{\"sessionId\":\"a\",\"sessionId\":\"a\",\"message\":\"m\"}}",
        )],
        told: &[NAMELESS],
        frames: 1,
        end: End::Closed,
        asks: ASKS_1,
    },
    Play {
        nodes: &[CHROME_NODE],
        sends: &[New(CHROME)],
        replies: &[(0, "SSH-2.0")],
        told: &[NO_HTTP_STARTED],
        frames: 1,
        end: End::Closed,
        asks: ASKS_1,
    },
    Play {
        nodes: &[CHROME_NODE],
        sends: &[New(CHROME)],
        replies: &[],
        told: &[NOT_STARTED],
        frames: 1,
        end: End::Closed,
        asks: ASKS_1,
    },
    // Capabilities with a name twice are none.
    Play {
        nodes: &[CHROME_NODE],
        sends: &[New(CHROME)],
        replies: &[(200, REPEATS), (200, DONE)],
        told: &[MISMATCH],
        frames: 1,
        end: End::Closed,
        asks: "POST loop:1/session; DELETE loop:1/session/a; ",
    },
    Play {
        nodes: &[CHROME_NODE],
        sends: &[New(ANY)],
        replies: &[(200, REPEATS)],
        told: &[Told::Hub(OK, "{\"value\":{\"sessionId\":\"a\",\"capabilities\":{}}}")],
        frames: 1,
        end: End::Closed,
        asks: ASKS_1,
    },
    // A long message: 200 characters of it are told.
    Play {
        nodes: &[CHROME_NODE],
        sends: &[New(CHROME)],
        replies: &[(500, X300)],
        told: &[X200],
        frames: 1,
        end: End::Closed,
        asks: ASKS_1,
    },
    // Two nodes that give one session id: the second start is undone at its node, and the request waits for the first node.
    Play {
        nodes: &[CHROME_NODE, CHROME_NODE],
        sends: &[New(CHROME), New(CHROME)],
        replies: &[(200, NAMES_A), (200, NAMES_A), (200, DONE)],
        told: &[Told::Hub(OK, NAMES_A), TIMED_OUT_2],
        frames: 2,
        end: End::Closed,
        asks: "POST loop:1/session; POST loop:2/session; DELETE loop:2/session/a; ",
    },
    Play {
        nodes: &[CHROME_NODE, CHROME_NODE],
        sends: &[
            New(CHROME),
            Post("/se/grid/distributor/node/1/drain", ""),
            New(CHROME),
        ],
        replies: &[(200, NAMES_A), (200, NAMES_A), (200, DONE)],
        told: &[Told::Hub(OK, NAMES_A), NULL, DUPLICATE],
        frames: 3,
        end: End::Closed,
        asks: "POST loop:1/session; POST loop:2/session; DELETE loop:2/session/a; ",
    },
];

/// A node that is drained serves on, and takes no more. It stays listed where nobody sweeps.
pub(crate) const DRAINED_STAYS: Play = Play {
    nodes: &[("chrome", "126.0", 2)],
    sends: &[
        New(CHROME),
        Post("/se/grid/distributor/node/1/drain", ""),
        Get(URL_1),
        New(CHROME),
        Delete(AT_1),
        Get("/status"),
    ],
    replies: &[
        (200, SESSION_1),
        (200, "{\"value\":\"about:blank\"}"),
        (200, DONE),
    ],
    told: &[CREATED_1, NULL, BLANK, TIMED_OUT_2, NULL, DRAINED],
    frames: 6,
    end: End::Closed,
    asks: "POST loop:1/session; GET loop:1/session/00000000-0000-0001-0000-000000000001/url; DELETE loop:1/session/00000000-0000-0001-0000-000000000001; ",
};

/// The same where the hub is swept before each request: it is removed once its session has ended.
pub(crate) const DRAINED_GOES: Play = Play {
    nodes: &[("chrome", "126.0", 2)],
    sends: &[
        New(CHROME),
        Post("/se/grid/distributor/node/1/drain", ""),
        Get(URL_1),
        New(CHROME),
        Delete(AT_1),
        Get("/status"),
    ],
    replies: &[
        (200, SESSION_1),
        (200, "{\"value\":\"about:blank\"}"),
        (200, DONE),
    ],
    told: &[CREATED_1, NULL, BLANK, TIMED_OUT_2, NULL, NO_NODES],
    frames: 6,
    end: End::Closed,
    asks: "POST loop:1/session; GET loop:1/session/00000000-0000-0001-0000-000000000001/url; DELETE loop:1/session/00000000-0000-0001-0000-000000000001; ",
};

/// A second request waits for five minutes. A hub whose idle sessions are ended before each request has ended the first session then.
pub(crate) const IDLE_ENDS: Play = Play {
    nodes: &[CHROME_NODE],
    sends: &[New(CHROME), New(CHROME), Delete(AT_1), Get("/status")],
    replies: &[(200, SESSION_1), (200, DONE)],
    told: &[CREATED_1, TIMED_OUT_2, NO_SESSION, FREE],
    frames: 4,
    end: End::Closed,
    asks: "POST loop:1/session; DELETE loop:1/session/00000000-0000-0001-0000-000000000001; ",
};

/// A request waits for five minutes, in which the node gives no sign of life.
pub(crate) const SILENT_LAPSES: Play = Play {
    nodes: &[CHROME_NODE],
    sends: &[New(FIREFOX), Get("/status")],
    replies: &[],
    told: &[TIMED_OUT_1, NO_NODES],
    frames: 2,
    end: End::Closed,
    asks: "",
};

/// The same where the node gives a sign of life before each request.
pub(crate) const BEATEN_STAYS: Play = Play {
    nodes: &[CHROME_NODE],
    sends: &[New(FIREFOX), Get("/status")],
    replies: &[],
    told: &[TIMED_OUT_1, FREE],
    frames: 2,
    end: End::Closed,
    asks: "",
};

/// A request waits for two minutes and a half, in which the node gives no sign of life; then it gives one.
pub(crate) const SILENT_IS_SUSPECT: Play = Play {
    nodes: &[CHROME_NODE],
    sends: &[
        New(FIREFOX),
        Get("/status"),
        Post("/se/grid/distributor/node/1/beat", ""),
        Get("/status"),
    ],
    replies: &[],
    told: &[TIMED_OUT_1, SUSPECT, NULL, FREE],
    frames: 4,
    end: End::Closed,
    asks: "",
};

/// A request that no node serves, on a hub that refuses such.
pub(crate) const NONE_MATCHES: Play = Play {
    nodes: &[CHROME_NODE],
    sends: &[New(FIREFOX), Get("/status")],
    replies: &[],
    told: &[UNSUPPORTED, FREE],
    frames: 2,
    end: End::Closed,
    asks: "",
};
