//! From a request's method and target to its route.
ghost use Rattle.std.specs.Prelude.{◌≡◌, ◌≢◌, Ok, Err, IfOk, IfErr, None, Some, option_map};
ghost use Rattle.router_core.specs.Routes.{route_told, route_of, place_of as place_in};
ghost use Rattle.router_core.specs.Rows.{rows};

use crate::place::Place;
use crate::routed::{RouteFault, Routed};
use crate::table::{asked, find, id, method_of, routes};
use crate::target::{own_target, path_of};
use grid_types::NoMemory;
use std::alloc::Global;
use std::str::from_utf8;

/// The table of paths. It is made once and lent, since making it costs more than all else of a small request.
#[derive(Drop)]
pub struct Router {
    paths: matchit::Router<Place>,
    ghost are_rows: { paths ≡ rows },
}

impl Router {
    /// The table with all its rows. Err: out of memory.
    pub fn new(alloc: Global) -> Result<Router, NoMemory> {
        match routes(alloc) {
            Ok(paths) => Ok(Router { paths }),
            Err(_) => Err(NoMemory),
        }
    }

    /// What a request with this method and this target asks for. The slices of the answer are slices of the target. It takes
    /// no memory.
    pub fn route<'a>(&self, method: &[u8], target: &'a [u8]) -> Result<Routed<'a>, RouteFault>
        ensures ok { IfOk result (λ r. route_of method.now target.now ≡ Ok (route_told r)) }
        ensures fault { IfErr result (λ e. route_of method.now target.now ≡ Err e) }
    {
        let own = own_target(target);
        let path = path_of(own);
        match self.place_of(path) {
            Some(place) => match asked(place, method_of(method), id(place, path), own) {
                Some(routed) => Ok(routed),
                None => Err(RouteFault::UnknownMethod),
            },
            None => Err(RouteFault::UnknownCommand),
        }
    }

    /// The row of the table that the path is in. A path that is no text is in none.
    fn place_of(&self, path: &[u8]) -> Option<Place>
        ensures { result ≡ option_map (λ f. f.0) (place_in path.now) }
    {
        match from_utf8(path) {
            Ok(path) => find(&self.paths, path),
            Err(_) => None,
        }
    }
}

/// What [`Router::route`] gives, by a table that is made for this one request.
pub fn route<'a>(alloc: Global, method: &[u8], target: &'a [u8]) -> Result<Routed<'a>, RouteFault>
    ensures ok { IfOk result (λ r. route_of method.now target.now ≡ Ok (route_told r)) }
    ensures fault { IfErr result (λ e. e ≢ RouteFault.Memory →
        route_of method.now target.now ≡ Err e) }
{
    match Router::new(alloc) {
        Ok(router) => router.route(method, target),
        Err(NoMemory) => Err(RouteFault::Memory),
    }
}
