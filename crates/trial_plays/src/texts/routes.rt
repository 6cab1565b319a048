//! Paths and methods with their routes.
use grid_types::NoMemory;
use router_core::{RouteFault, Routed, Router, route};
use std::alloc::Global;

const RELAYED: Routed<'static> = Routed::Relay {
    id: b"a",
    target: b"/session/a/url?x=1",
};

/// A method, a target and its route.
type Case = (
    &'static str,
    &'static str,
    Result<Routed<'static>, RouteFault>,
);

/// Paths and methods, and what comes before and behind a path.
const CASES: &[Case] = &[
    ("POST", "/session", Ok(Routed::NewSession)),
    ("POST", "/wd/hub/session", Ok(Routed::NewSession)),
    ("POST", "http://h/wd/hub/session?x", Ok(Routed::NewSession)),
    ("DELETE", "/session/a", Ok(Routed::DeleteSession(b"a"))),
    ("DELETE", "/session/a?q", Ok(Routed::DeleteSession(b"a"))),
    ("GET", "/session/a/url?x=1", Ok(RELAYED)),
    ("POST", "/wd/hub/session/a/url?x=1", Ok(RELAYED)),
    ("GET", "/status", Ok(Routed::Status)),
    ("GET", "/se/grid/newsessionqueue/queue", Ok(Routed::Queue)),
    (
        "DELETE",
        "/se/grid/newsessionqueue/queue",
        Ok(Routed::ClearQueue),
    ),
    ("POST", "/se/grid/distributor/node", Ok(Routed::Register)),
    (
        "DELETE",
        "/se/grid/distributor/node/7",
        Ok(Routed::Remove(b"7")),
    ),
    (
        "POST",
        "/se/grid/distributor/node/7/drain",
        Ok(Routed::Drain(b"7")),
    ),
    (
        "POST",
        "/se/grid/distributor/node/7/beat",
        Ok(Routed::Beat(b"7")),
    ),
    ("PUT", "/session", Err(RouteFault::UnknownMethod)),
    ("post", "/session", Err(RouteFault::UnknownMethod)),
    ("GET", "/nothing", Err(RouteFault::UnknownCommand)),
    ("GET", "http://h", Err(RouteFault::UnknownCommand)),
    ("DELETE", "/session/", Err(RouteFault::UnknownCommand)),
    ("GET", "/session/a/", Err(RouteFault::UnknownCommand)),
    ("GET", "/session//url", Err(RouteFault::UnknownCommand)),
    ("GET", "/status/", Err(RouteFault::UnknownCommand)),
    (
        "GET",
        "/wd/hub/wd/hub/status",
        Err(RouteFault::UnknownCommand),
    ),
];

fn are_routed(router: &Router, cases: &[Case]) -> bool {
    for (method, target, want) in cases {
        if router.route(method.as_bytes(), target.as_bytes()) != *want {
            return false;
        }
    }
    true
}

fn one_is_routed(alloc: Global) -> bool {
    route(alloc, b"GET", b"/status") == Ok(Routed::Status)
        && route(alloc, b"GET", b"/session/\xff/url") == Err(RouteFault::UnknownCommand)
}

#[test]
fn requests_have_their_routes(rt: HostRuntime) -> Result<(), NoMemory> {
    let router = Router::new(rt.alloc())?;
    assert!(rt; are_routed(&router, CASES));
    assert!(rt; one_is_routed(rt.alloc()));
    Ok(())
}
