//! What the files of the examples say, without their comments: each key that has a default.

/// `hub.toml`.
pub(crate) const HUB_FILE: &str = r#"[server]
host = "0.0.0.0"
port = 4444
handlers = 64
connections = 10_000
[sessionqueue]
session-request-timeout = 300
queue-limit = 10_000
[distributor]
reject-unsupported-caps = false
workers = 4
journal-sync = "second"
[node]
session-timeout = 300
"#;

/// `node.toml`.
pub(crate) const NODE_FILE: &str = r#"[node]
hub = "127.0.0.1:4444"
name = "loop"
browser = "chrome"
slots = 1
[server]
port = 5555
"#;

/// `attach.toml`.
pub(crate) const ATTACH_FILE: &str = r#"[node]
hub = "127.0.0.1:4444"
driver = "127.0.0.1:9515"
name = "driver"
browser = "chrome"
platform = "linux"
slots = 1
once = false
"#;
