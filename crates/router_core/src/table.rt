//! The table of paths: its rows, and what stands at them.
ghost use Rattle.std.specs.Prelude.{◌≡◌, IfOk, option_map, drop};
ghost use Rattle.matchit.specs.Seek.{first};
ghost use Rattle.router_core.specs.Routes.{route_told, asked as asked_at, method_named};
ghost use Rattle.router_core.specs.Rows.{rows};
ghost use Rattle.router_core.specs.Patterns.{first_part};
ghost use Rattle.router_core.specs.Ids.{id_at};

use crate::place::{Method, Place};
use crate::routed::Routed;
use crate::target::up_to;
use matchit::InsertError;
use std::alloc::Global;
use wd_bodies::{BEFORE_NODE, BEFORE_SESSION, NODES, SESSIONS, STATUS};

/// The row that the path is in.
pub(crate) fn find(router: &matchit::Router<Place>, path: &str) -> Option<Place>
    ensures { result ≡ option_map (λ r. r.value) (first router.now path.now) }
{
    match router.at(path) {
        Ok(found) => Some(*found.value),
        Err(_) => None,
    }
}

/// All rows.
pub(crate) fn routes(alloc: Global) -> Result<matchit::Router<Place>, InsertError>
    ensures ok { IfOk result (λ r. r ≡ rows) }
{
    let mut router = matchit::Router::new(alloc);
    router.insert(SESSIONS, Place::Session)?;
    router.insert("/session/{id}", Place::OneSession)?;
    router.insert("/session/{id}/{*rest}", Place::Commands)?;
    router.insert(STATUS, Place::Status)?;
    router.insert("/se/grid/newsessionqueue/queue", Place::Queue)?;
    router.insert(NODES, Place::Nodes)?;
    router.insert("/se/grid/distributor/node/{id}", Place::OneNode)?;
    router.insert("/se/grid/distributor/node/{id}/drain", Place::Drain)?;
    router.insert("/se/grid/distributor/node/{id}/beat", Place::Beat)?;
    Ok(router)
}

/// The id that stands in the path, empty at a place that has none.
pub(crate) fn id(place: Place, path: &[u8]) -> &[u8]
    ensures { result.now ≡ id_at place path.now }
{
    match place {
        Place::OneSession | Place::Commands => part_behind(path, BEFORE_SESSION.len()),
        Place::OneNode | Place::Drain | Place::Beat => part_behind(path, BEFORE_NODE.len()),
        Place::Session | Place::Status | Place::Queue | Place::Nodes => &[],
    }
}

/// The part of the path that begins at a place, empty past the end.
fn part_behind(path: &[u8], start: usize) -> &[u8]
    ensures { result.now ≡ first_part (drop start path.now) }
{
    match path.get(start..) {
        Some(behind) => up_to(behind, b'/'),
        None => &[],
    }
}

/// Methods are compared byte by byte (RFC 9110 §9.1).
pub(crate) fn method_of(method: &[u8]) -> Method
    ensures { result ≡ method_named method.now }
{
    if method == b"GET".as_slice() {
        Method::Get
    } else if method == b"POST".as_slice() {
        Method::Post
    } else if method == b"DELETE".as_slice() {
        Method::Delete
    } else {
        Method::Other
    }
}

/// What a method asks for at a place.
pub(crate) fn asked<'a>(
    place: Place,
    method: Method,
    id: &'a [u8],
    target: &'a [u8],
) -> Option<Routed<'a>>
    ensures { option_map route_told result ≡ asked_at place method id.now target.now }
{
    match (place, method) {
        (Place::Session, Method::Post) => Some(Routed::NewSession),
        (Place::OneSession, Method::Delete) => Some(Routed::DeleteSession(id)),
        (Place::Commands, Method::Get | Method::Post | Method::Delete) => {
            Some(Routed::Relay { id, target })
        }
        (Place::Status, Method::Get) => Some(Routed::Status),
        (Place::Queue, Method::Get) => Some(Routed::Queue),
        (Place::Queue, Method::Delete) => Some(Routed::ClearQueue),
        (Place::Nodes, Method::Post) => Some(Routed::Register),
        (Place::OneNode, Method::Delete) => Some(Routed::Remove(id)),
        (Place::Drain, Method::Post) => Some(Routed::Drain(id)),
        (Place::Beat, Method::Post) => Some(Routed::Beat(id)),
        _ => None,
    }
}
