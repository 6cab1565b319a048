//! A connection is served by the hub of the team that it belongs to.
ghost use Rattle.std.specs.Prelude.{◌≡◌, ◌<◌, length};
ghost use Rattle.grid_outside.specs.Told.{LinkView};
ghost use Rattle.again_link.specs.Again.{view_without};
ghost use Rattle.hub_cell.specs.Passes.{IsOf, knows};
ghost use Rattle.hub_workers.specs.World.{world_of};
ghost use Rattle.hub_serving.specs.Outside.{outside_of};
ghost use Rattle.hub_serving.specs.Served.{ServesConnection};
ghost use Rattle.grid_teams_shared.specs.declared.ahead.HeadEnd.TheVariants as ending;
ghost use Rattle.grid_teams_shared.specs.Heads.{HeadEnded};
ghost use Rattle.grid_teams_shared.specs.Teams.{PassesAre, passes_of, teams_of};
ghost use Rattle.grid_teams_shared.specs.Telling.{cut_end, served_none};
ghost use Rattle.grid_teams_shared.specs.Serving.{HandedOut, ServedAt, ServesTeams, around};

use crate::ahead::{Ahead, HeadEnd};
use crate::heads::read_head;
use crate::teams::{SharedTeams, TeamPasses};
use crate::telling::{refuse, tell};
use again_link::{AgainLink, last_bytes_are_untold};
use conn_script::fixed_limits as read_limits;
use grid_outside::{Clock, Link, NodeLink, fixed_limits as piece_limits};
use grid_teams::{NO_SUCH_TEAM, NOT_NAMED, TeamName, team_of};
use http_frames::{fixed_limits, one_head, refused_heads_stay, stays};
use hub_cell::{Pass, SharedHub};
use hub_serving::{ConnFault, End, Served, serve_shared};
use std::alloc::Global;
use std::sync::Wait;

/// Serves a connection by a hub, to which what was read of it is handed out again.
fn serve_again<R: Wait, L: Link, N: NodeLink, C: Clock>(
    rt: &R,
    alloc: Global,
    hub: &SharedHub,
    pass: &mut Pass,
    again: &[u8],
    link: &mut L,
    nodes: &mut N,
    clock: &mut C,
) -> Result<Served, ConnFault>
    requires { IsOf hub.now pass.old }
    ensures own { IsOf hub.now pass.new }
    ensures serves { (handed : HandedOut again.now (L.view link.old) (L.view link.new))
        × ServesConnection hub.now N.gives C.gives
        (outside_of (world_of (knows pass.old) nodes.old clock.old (C.view clock.old))
        (view_without again.now (L.view link.old))) result
        (outside_of (world_of (knows pass.new) nodes.new clock.new (C.view clock.new))
        (view_without handed.left (L.view link.new))) }
    ensures same { L.Same link.old link.new }
{
    let mut handing = AgainLink::new(link, again);
    serve_shared(rt, alloc, hub, pass, &mut handing, nodes, clock)
}

/// Serves it by the hub of the team at a place and the pass that stands there. Every other pass stays as it is.
fn serve_at<R: Wait, L: Link, N: NodeLink, C: Clock>(
    rt: &R,
    alloc: Global,
    teams: &SharedTeams,
    passes: &mut TeamPasses,
    place: usize,
    again: &[u8],
    link: &mut L,
    nodes: &mut N,
    clock: &mut C,
) -> Result<Served, ConnFault>
    requires place { place < length (teams_of teams.now) }
    requires own { PassesAre (teams_of teams.now) (passes_of passes.old) }
    ensures own { PassesAre (teams_of teams.now) (passes_of passes.new) }
    ensures served { (handed : HandedOut again.now (L.view link.old) (L.view link.new))
        × ServedAt N.gives C.gives (teams_of teams.now) place handed.left
        (around (passes_of passes.old) nodes.old clock.old (C.view clock.old)
        (view_without again.now (L.view link.old)))
        result (around (passes_of passes.new) nodes.new clock.new (C.view clock.new) (L.view link.new)) }
    ensures same { L.Same link.old link.new }
{
    serve_again(
        rt,
        alloc,
        teams.hub(place),
        &mut passes.passes[place],
        again,
        link,
        nodes,
        clock,
    )
}

/// Serves a connection of which so much was read, and whose first head is accepted.
fn serve_named<R: Wait, L: Link, N: NodeLink, C: Clock>(
    rt: &R,
    alloc: Global,
    teams: &SharedTeams,
    passes: &mut TeamPasses,
    ahead: &Ahead,
    link: &mut L,
    nodes: &mut N,
    clock: &mut C,
) -> Result<Served, ConnFault>
    requires own { PassesAre (teams_of teams.now) (passes_of passes.old) }
    requires accepted { (first : LinkView) × HeadEnded first ending.Accepted ahead.now (L.view link.old) }
    ensures own { PassesAre (teams_of teams.now) (passes_of passes.new) }
    ensures serves { (first : LinkView) → HeadEnded first ending.Accepted ahead.now (L.view link.old) →
        ServesTeams N.gives C.gives (teams_of teams.now)
        (around (passes_of passes.old) nodes.old clock.old (C.view clock.old) first)
        result (around (passes_of passes.new) nodes.new clock.new (C.view clock.new) (L.view link.new)) }
    ensures same { L.Same link.old link.new }
{
    // Laws of what lies below, which do nothing.
    fixed_limits();
    read_limits();
    piece_limits();
    one_head();
    last_bytes_are_untold();
    match team_of(&ahead.reader) {
        TeamName::Named(name) => match teams.find(name) {
            Some(place) => serve_at(
                rt,
                alloc,
                teams,
                passes,
                place,
                ahead.bytes.as_slice(),
                link,
                nodes,
                clock,
            ),
            None => tell(alloc, link, NO_SUCH_TEAM),
        },
        TeamName::Unnamed => tell(alloc, link, NOT_NAMED),
        TeamName::NoHead => unreachable!(),
    }
}

/// How a connection ended whose input ended before a head.
fn cut_off(ahead: &Ahead) -> Served
    ensures { result ≡ served_none (cut_end ahead.now.bytes.items) }
{
    let end = if ahead.bytes.is_empty() {
        End::Closed
    } else {
        End::Cut { at: 0 }
    };
    Served {
        frames: 0,
        end,
        short: false,
    }
}

/// Serves a connection by the hub of the team that its first head names, and by that team's pass, as `hub_serving::serve_shared` does;
/// later heads are not looked at. Every other team's pass stays as it is.
///
/// Where the head names no team, or one that is not there, the client is told so and the connection ends. Where no head is accepted the
/// connection is answered as any, which makes no call of a hub. Then no pass, no node and no clock does anything.
///
/// It waits as long as the link, the nodes and the turns of other passes do. Err tells that a read or a write failed, or that memory was
/// wanted where no response tells it.
pub fn serve_teams_shared<R: Wait, L: Link, N: NodeLink, C: Clock>(
    rt: &R,
    alloc: Global,
    teams: &SharedTeams,
    passes: &mut TeamPasses,
    link: &mut L,
    nodes: &mut N,
    clock: &mut C,
) -> Result<Served, ConnFault>
    requires { PassesAre (teams_of teams.now) (passes_of passes.old) }
    ensures own { PassesAre (teams_of teams.now) (passes_of passes.new) }
    ensures serves { ServesTeams N.gives C.gives (teams_of teams.now)
        (around (passes_of passes.old) nodes.old clock.old (C.view clock.old) (L.view link.old))
        result
        (around (passes_of passes.new) nodes.new clock.new (C.view clock.new) (L.view link.new)) }
    ensures same { L.Same link.old link.new }
{
    // Laws of what lies below, which do nothing.
    fixed_limits();
    read_limits();
    piece_limits();
    one_head();
    stays();
    refused_heads_stay();
    let mut ahead = Ahead::new(alloc);
    match read_head(rt, link, &mut ahead) {
        HeadEnd::Accepted => serve_named(rt, alloc, teams, passes, &ahead, link, nodes, clock),
        HeadEnd::Refused(why) => refuse(alloc, link, why),
        HeadEnd::Ended => Ok(cut_off(&ahead)),
        HeadEnd::ReadFailed => Err(ConnFault::Read),
        HeadEnd::NoMemory => Err(ConnFault::Memory),
    }
}
