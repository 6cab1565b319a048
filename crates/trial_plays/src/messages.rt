//! Requests and responses, spelled out.
use std::alloc::Global;

/// A request.
#[derive(Clone, Copy)]
pub enum Asked {
    /// A New Session with this body.
    New(&'static str),
    Get(&'static str),
    Delete(&'static str),
    /// A POST without a body.
    Post(&'static str),
    /// A POST to this path with this body.
    Send(&'static str, &'static str),
    /// Bytes as they stand.
    Bytes(&'static [u8]),
}

/// A response.
#[derive(Clone, Copy)]
pub enum Answered {
    /// A success with this JSON body.
    Success(&'static str),
    /// The same, after which the connection ends.
    LastSuccess(&'static str),
    /// An error: its status line, its code and its message.
    Error(&'static str, &'static str, &'static str),
    /// The same, after which the connection ends.
    LastError(&'static str, &'static str, &'static str),
    /// `100 Continue`.
    Continue,
}

/// Puts the head and the body behind it.
fn put(bytes: &mut Vec<u8>, head: &str, body: &str) -> Option<()> {
    bytes.extend_from_slice(head.as_bytes()).ok()?;
    bytes.extend_from_slice(body.as_bytes()).ok()
}

/// A POST with a body.
fn send(alloc: Global, bytes: &mut Vec<u8>, path: &str, body: &str) -> Option<()> {
    let size = body.len();
    let head = format!(in alloc;
        "POST {path} HTTP/1.1\r\nHost: h\r\nContent-Length: {size}\r\n\r\n"
    ).ok()?;
    let put = put(bytes, head.as_str(), body);
    drop(head);
    put
}

/// A request without a body.
fn bare(alloc: Global, bytes: &mut Vec<u8>, method: &str, path: &str) -> Option<()> {
    let head = format!(in alloc; "{method} {path} HTTP/1.1\r\nHost: h\r\n\r\n").ok()?;
    let put = put(bytes, head.as_str(), "");
    drop(head);
    put
}

/// Puts the request last.
pub fn ask(alloc: Global, bytes: &mut Vec<u8>, asked: &Asked) -> Option<()> {
    match asked {
        Asked::New(body) => send(alloc, bytes, "/session", body),
        Asked::Get(path) => bare(alloc, bytes, "GET", path),
        Asked::Delete(path) => bare(alloc, bytes, "DELETE", path),
        Asked::Post(path) => send(alloc, bytes, path, ""),
        Asked::Send(path, body) => send(alloc, bytes, path, body),
        Asked::Bytes(raw) => bytes.extend_from_slice(raw).ok(),
    }
}

/// Puts a response with a JSON body last.
fn respond(
    alloc: Global,
    bytes: &mut Vec<u8>,
    status: &str,
    close: &str,
    body: &str,
) -> Option<()> {
    let size = body.len();
    let head = format!(in alloc;
        "HTTP/1.1 {status}\r\nContent-Type: application/json; charset=utf-8\r\nCache-Control: no-cache\r\nContent-Length: {size}\r\n{close}\r\n"
    ).ok()?;
    let put = put(bytes, head.as_str(), body);
    drop(head);
    put
}

/// Puts the response of an error last.
fn fail(
    alloc: Global,
    bytes: &mut Vec<u8>,
    status: &str,
    close: &str,
    code: &str,
    message: &str,
) -> Option<()> {
    let body = format!(in alloc;
        "{{\"value\":{{\"error\":\"{code}\",\"message\":\"{message}\",\"stacktrace\":\"\"}}}}"
    ).ok()?;
    let put = respond(alloc, bytes, status, close, body.as_str());
    drop(body);
    put
}

/// The line that ends a connection.
const CLOSE: &str = "Connection: close\r\n";

/// Puts the response last.
pub fn answer(alloc: Global, bytes: &mut Vec<u8>, answered: &Answered) -> Option<()> {
    match answered {
        Answered::Success(body) => respond(alloc, bytes, "200 OK", "", body),
        Answered::LastSuccess(body) => respond(alloc, bytes, "200 OK", CLOSE, body),
        Answered::Error(status, code, message) => fail(alloc, bytes, status, "", code, message),
        Answered::LastError(status, code, message) => {
            fail(alloc, bytes, status, CLOSE, code, message)
        }
        Answered::Continue => put(bytes, "HTTP/1.1 100 Continue\r\n\r\n", ""),
    }
}
