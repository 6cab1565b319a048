//! What a hub's answer says beside its status.

use grid_outside::{ExchangeFault, Reply};
use node_signs::number_told;
use serde_json::Value;
use std::alloc::Global;

/// The message of an error (WebDriver §6.6).
fn message_in(alloc: Global, body: &[u8]) -> Option<String> {
    let told = Value::from_slice(alloc, body).ok()?;
    let message = told.get("value")?.get("message")?.as_str()?;
    String::from_str(alloc, message).ok()
}

/// The node's number of a registration, or the message of an error. None where there is neither, and where there is no
/// memory to say it.
pub(crate) fn answer_of(alloc: Global, came: &Result<Reply, ExchangeFault>) -> Option<String> {
    let Ok(Reply::Http(reply)) = came else {
        return None;
    };
    let body = reply.body.as_bytes();
    match number_told(body) {
        Some(number) => format!(in alloc; "registered as node {number}").ok(),
        None => message_in(alloc, body),
    }
}
