//! Messages of errors in fixed words. What is said of a refused request stands in `http_frames`, of a body's fault and
//! of the other causes of a failed start in `conn_script`.

/// No command has the path of a request (`unknown command`).
pub const NO_COMMAND: &str = "no command has this path";

/// The path of a request has no such method (`unknown method`).
pub const NO_METHOD: &str = "this path has no such method";

/// No session of the id is live (`invalid session id`).
pub const NO_SESSION: &str = "no such session";

/// No registered node has the number (`invalid argument`).
pub const NO_NODE: &str = "no registered node has this number";

/// No number is left for a node or a request (`unknown error`).
pub const NUMBERS_SPENT: &str = "numbers are spent";

/// No slot of a registered node has what a request wants (`session not created`).
pub const NO_SLOT_MATCHES: &str = "no registered slot matches";

/// The hub answers no more calls (`unknown error`).
pub const HUB_SPENT: &str = "hub is spent";

/// A node took no connection or gave no answer (`unknown error`, and the cause of a start that failed).
pub const NODE_UNREACHABLE: &str = "node is unreachable";

/// A node answered by something else than HTTP (`unknown error`, and the cause of a start that failed).
pub const NODE_NOT_HTTP: &str = "node's reply is not HTTP";
