//! The JSON bodies that the hub writes, byte for byte, and what goes with them: statuses, headers, fixed messages, and
//! the paths that the hub and its nodes have in common.
//!
//! Choices that concern this crate alone:
//!
//! - `phrase_of` is the phrase of a status by `http`, `json_text` a text as a JSON string, for the crates above.
//! - What is written is read again by `document` of the crate `json`, which reads 128 levels; `serde_json` reads 127.
//!   A raw value counts as the JSON that is read from it alone.
//! - `start_body` leaves out each member named `grid:queueTimeout`, and makes no second list for that.
#![tactic(auto)]

mod bodies;
mod capabilities;
mod code;
mod headers;
mod laws;
mod messages;
mod paths;

pub use bodies::{created_body, error_body, start_body, value_body};
pub use capabilities::{caps_text, json_text};
pub use code::{ErrorCode, phrase_of, status_of};
pub use headers::{JSON_TYPE, NO_CACHE};
pub use laws::{
    capabilities_are_read_again, created_are_read_again, errors_are_read_again, fixed_headers,
    fixed_messages, fixed_paths, starts_are_read_again, values_are_read_again,
};
pub use messages::{
    HUB_SPENT, NO_COMMAND, NO_METHOD, NO_NODE, NO_SESSION, NO_SLOT_MATCHES, NODE_NOT_HTTP,
    NODE_UNREACHABLE, NUMBERS_SPENT,
};
pub use paths::{BEFORE_NODE, BEFORE_SESSION, NODES, SESSIONS, STATUS};
