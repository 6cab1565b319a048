//! What a request asks for.
ghost use Rattle.std.specs.Prelude.{◌≡◌, MatchOption, None, Some};
ghost use Rattle.loop_node.specs.Paths.{behind as behind_text, up_to as up_to_first, from_first, path_of_id, path_behind, path_of_text, path_of as path_in, path_told, asked_at, asked_of, asked_told};

use wd_bodies::{BEFORE_SESSION, SESSIONS, STATUS};

/// The paths that the node knows.
#[derive(Clone, Copy, Debug)]
pub(crate) enum Place<'a> {
    Sessions,
    Session(&'a [u8]),
    Url(&'a [u8]),
    Status,
    Unknown,
}

/// What a request asks for, with the id that its path names.
#[derive(Clone, Copy, Debug)]
pub(crate) enum Wanted<'a> {
    NewSession,
    DeleteSession(&'a [u8]),
    SetUrl(&'a [u8]),
    GetUrl(&'a [u8]),
    GetStatus,
    UnknownCommand,
    UnknownMethod,
}

/// The text up to the first of these bytes, or all of it.
fn up_to(text: &[u8], stop: u8) -> &[u8]
    ensures { result.now ≡ up_to_first stop text.now }
{
    for (index, byte) in text.iter().enumerate() {
        if *byte == stop {
            return &text[..index];
        }
    }
    text
}

/// The text from its first slash on.
fn from_slash(text: &[u8]) -> &[u8]
    ensures { result.now ≡ from_first 47 text.now }
{
    for (index, byte) in text.iter().enumerate() {
        if *byte == b'/' {
            return &text[index..];
        }
    }
    &[]
}

/// The path behind `/session/`.
fn place_behind(rest: &[u8]) -> Place<'_>
    ensures { path_told result ≡ path_behind (Some rest.now) }
{
    let id = up_to(rest, b'/');
    let tail = from_slash(rest);
    if id.is_empty() {
        Place::Unknown
    } else if tail.is_empty() {
        Place::Session(id)
    } else if tail == b"/url".as_slice() {
        Place::Url(id)
    } else {
        Place::Unknown
    }
}

fn place_of_text(path: &[u8]) -> Place<'_>
    ensures { path_told result ≡ path_of_text path.now }
{
    if path == SESSIONS.as_bytes() {
        return Place::Sessions;
    }
    if path == STATUS.as_bytes() {
        return Place::Status;
    }
    match path.strip_prefix(BEFORE_SESSION.as_bytes()) {
        Some(rest) => place_behind(rest),
        None => Place::Unknown,
    }
}

/// The path of a target, up to its query.
fn place_of(target: &[u8]) -> Place<'_>
    ensures { path_told result ≡ path_in target.now }
{
    let path = up_to(target, b'?');
    match str::from_utf8(path) {
        Ok(_) => place_of_text(path),
        Err(_) => Place::Unknown,
    }
}

fn wanted_at<'a>(place: Place<'a>, method: &[u8]) -> Wanted<'a>
    ensures { asked_told result ≡ asked_at (path_told place.entry) method.now }
{
    let gets = method == b"GET".as_slice();
    let posts = method == b"POST".as_slice();
    let deletes = method == b"DELETE".as_slice();
    match place {
        Place::Sessions if posts => Wanted::NewSession,
        Place::Session(id) if deletes => Wanted::DeleteSession(id),
        Place::Url(id) if posts => Wanted::SetUrl(id),
        Place::Url(id) if gets => Wanted::GetUrl(id),
        Place::Status if gets => Wanted::GetStatus,
        Place::Unknown => Wanted::UnknownCommand,
        _ => Wanted::UnknownMethod,
    }
}

/// What a request with this method and this target asks for.
pub(crate) fn asked<'a>(method: &[u8], target: &'a [u8]) -> Wanted<'a>
    ensures { asked_told result ≡ asked_of method.now target.now }
{
    wanted_at(place_of(target), method)
}
