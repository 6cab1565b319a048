//! What a client is to be told, spelled out as the formats say (RFC 9112 §4, WebDriver §6.6).
use std::alloc::Global;

/// A response.
#[derive(Clone, Copy)]
pub(crate) enum Told {
    /// Of the hub: the status with its phrase, and the body.
    Hub(&'static str, &'static str),
    /// Of the hub, behind which the connection ends.
    Last(&'static str, &'static str),
    /// These bytes.
    Raw(&'static str),
}

/// The status line of a success.
pub(crate) const OK: &str = "200 OK";

/// The status line of a request with a fault.
pub(crate) const BAD: &str = "400 Bad Request";

/// The status line of what is not there.
pub(crate) const MISSING: &str = "404 Not Found";

/// The status line of what the hub could not do.
pub(crate) const FAULT: &str = "500 Internal Server Error";

/// What a client that waits for it is told before its response.
pub(crate) const CONTINUE: Told = Told::Raw("HTTP/1.1 100 Continue\r\n\r\n");

/// A success without a value.
pub(crate) const NULL: Told = Told::Hub(OK, "{\"value\":null}");

/// No session has the id.
pub(crate) const NO_SESSION: Told = Told::Hub(
    MISSING,
    "{\"value\":{\"error\":\"invalid session id\",\"message\":\"no such session\",\"stacktrace\":\"\"}}",
);

/// No command has the path.
pub(crate) const NO_COMMAND: Told = Told::Hub(
    MISSING,
    "{\"value\":{\"error\":\"unknown command\",\"message\":\"no command has this path\",\"stacktrace\":\"\"}}",
);

// Puts a response of the hub behind the text.
fn push_hub(alloc: Global, text: &mut String, status: &str, ends: &str, body: &str) -> Option<()> {
    let response = format!(in alloc;
        "HTTP/1.1 {status}\r\nContent-Type: application/json; charset=utf-8\r\nCache-Control: no-cache\r\nContent-Length: {}\r\n{ends}\r\n{body}",
        body.len()
    )
    .ok()?;
    text.push_str(response.as_str()).ok()?;
    Some(())
}

/// The responses one after the other.
pub(crate) fn text_of(alloc: Global, told: &[Told]) -> Option<String> {
    let mut text = String::new(alloc);
    for one in told {
        match one {
            Told::Hub(status, body) => push_hub(alloc, &mut text, status, "", body)?,
            Told::Last(status, body) => {
                push_hub(alloc, &mut text, status, "Connection: close\r\n", body)?
            }
            Told::Raw(bytes) => text.push_str(bytes).ok()?,
        }
    }
    Some(text)
}
