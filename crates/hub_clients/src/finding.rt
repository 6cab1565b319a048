//! Look-ups without a turn.
ghost use Rattle.std.specs.Prelude.{◌≡◌, IfSome};
ghost use Rattle.hub_cell.specs.Passes.{knows, noting, reader_of, IsOf};
ghost use Rattle.hub_cell.specs.Published.{FromMap};
ghost use Rattle.hub_cell.specs.Shared.{past};

use grid_types::{Found, SessionId};
use hub_cell::{Pass, SharedHub};
use std::thread;
use std::thread::Threads;

/// Where the session runs by the published map, as a thread of its own finds it. The thread is handed nothing by which it
/// could wait for another, so no lock and no turn stands between it and its answer.
pub fn find_published<R: Threads>(
    rt: &R,
    hub: &SharedHub,
    pass: Pass,
    session: SessionId,
) -> (Pass, Option<Found>)
    requires { IsOf hub.now pass }
    ensures own { IsOf hub.now result.0 × (knows result.0 ≡ noting session result.1 (knows pass)) }
    ensures found { IfSome result.1 (FromMap (reader_of pass) (reader_of result.0)
        (past (knows pass)) session) }
{
    let (found, ()) = thread::join(
        rt,
        move || -> (Pass, Option<Found>)
            requires { IsOf hub.now pass }
            ensures { IsOf hub.entry.now result.0
                × (knows result.0 ≡ noting session result.1 (knows pass))
                × IfSome result.1 (FromMap (reader_of pass) (reader_of result.0) (past (knows pass))
                session) }
        { find(hub, pass, &session) },
        || {},
    );
    found
}

fn find(hub: &SharedHub, mut pass: Pass, session: &SessionId) -> (Pass, Option<Found>)
    requires { IsOf hub.now pass }
    ensures own { IsOf hub.now result.0
        × (knows result.0 ≡ noting session.now result.1 (knows pass)) }
    ensures found { IfSome result.1 (FromMap (reader_of pass) (reader_of result.0)
        (past (knows pass)) session.now) }
{
    let found = hub.lookup(&mut pass, session);
    (pass, found)
}
