//! Two teams whose hubs threads share: each hub numbers its own nodes, and a connection of no team is told so.
ghost use Rattle.std.specs.Prelude.{◌≡◌, ◌≢◌, ◌≤◌, [], ◌∷◌, IfSome, vec_capacity};
ghost use Rattle.hub_cell.specs.Passes.{IsOf};
ghost use Rattle.grid_teams_shared.specs.Teams.{PassesAre, passes_of, teams_of};

use grid_outside::{Clock, Link, MemClock, MemLink, MemNodes, MemSink, MemSource, NodeLink};
use grid_teams_shared::{
    ConnFault, End, Served, SharedTeam, SharedTeams, TeamPasses, serve_teams_shared,
};
use grid_types::{Bytes, HubConfig, Moment, Text};
use hub_cell::{Pass, SharedHub};
use std::alloc::Global;
use std::sync::Wait;

/// What comes on a connection, what goes out, how many requests are answered, and how it ends.
struct Row {
    asked: &'static str,
    answered: &'static str,
    frames: u64,
    end: End,
}

/// Each team's first node has the number 1. The second head of a connection is not looked at.
const ROWS: &[Row] = &[
    Row {
        asked: "POST /se/grid/distributor/node HTTP/1.1\r\nHost: h\r\nGrid-Team: red\r\nContent-Length: 82\r\n\r\n{\"name\":\"n\",\"address\":\"n:1\",\"maxSessions\":1,\"slots\":[{\"count\":1,\"stereotype\":{}}]}POST /se/grid/distributor/node HTTP/1.1\r\nHost: h\r\nGrid-Team: blue\r\nContent-Length: 82\r\n\r\n{\"name\":\"m\",\"address\":\"m:1\",\"maxSessions\":1,\"slots\":[{\"count\":1,\"stereotype\":{}}]}",
        answered: "HTTP/1.1 200 OK\r\nContent-Type: application/json; charset=utf-8\r\nCache-Control: no-cache\r\nContent-Length: 20\r\n\r\n{\"value\":{\"node\":1}}HTTP/1.1 200 OK\r\nContent-Type: application/json; charset=utf-8\r\nCache-Control: no-cache\r\nContent-Length: 20\r\n\r\n{\"value\":{\"node\":2}}",
        frames: 2,
        end: End::Closed,
    },
    Row {
        asked: "POST /se/grid/distributor/node HTTP/1.1\r\nHost: h\r\nGrid-Team: blue\r\nContent-Length: 82\r\n\r\n{\"name\":\"n\",\"address\":\"n:1\",\"maxSessions\":1,\"slots\":[{\"count\":1,\"stereotype\":{}}]}",
        answered: "HTTP/1.1 200 OK\r\nContent-Type: application/json; charset=utf-8\r\nCache-Control: no-cache\r\nContent-Length: 20\r\n\r\n{\"value\":{\"node\":1}}",
        frames: 1,
        end: End::Closed,
    },
    Row {
        asked: "GET /status HTTP/1.1\r\nHost: h\r\n\r\nGET /status HTTP/1.1\r\nHost: h\r\nGrid-Team: red\r\n\r\n",
        answered: "HTTP/1.1 400 Bad Request\r\nContent-Type: application/json; charset=utf-8\r\nCache-Control: no-cache\r\nContent-Length: 83\r\nConnection: close\r\n\r\n{\"value\":{\"error\":\"invalid argument\",\"message\":\"no team is named\",\"stacktrace\":\"\"}}",
        frames: 0,
        end: End::Asked,
    },
    Row {
        asked: "GET /status HTTP/1.1\r\nHost: h\r\nGrid-Team: green\r\n\r\n",
        answered: "HTTP/1.1 400 Bad Request\r\nContent-Type: application/json; charset=utf-8\r\nCache-Control: no-cache\r\nContent-Length: 88\r\nConnection: close\r\n\r\n{\"value\":{\"error\":\"invalid argument\",\"message\":\"no team has this name\",\"stacktrace\":\"\"}}",
        frames: 0,
        end: End::Asked,
    },
    Row {
        asked: "GET /status HTTP/1.1\r\nHost: h\r\nGrid-Te",
        answered: "",
        frames: 0,
        end: End::Cut { at: 0 },
    },
];

/// Two names.
fn names(alloc: Global) -> Option<(Text, Text)>
    ensures { IfSome result (λ names. names.0 ≢ names.1) }
{
    let red = Text::of(alloc, "red").ok()?;
    let blue = Text::of(alloc, "blue").ok()?;
    Some((red, blue))
}

/// Room for two.
fn room<T>(alloc: Global) -> Option<Vec<T>>
    ensures empty { IfSome result (λ list. list.items ≡ []) }
    ensures room { IfSome result (λ list. 2 ≤ vec_capacity list) }
{
    match Vec::with_capacity(alloc, 2) {
        Ok(list) => Some(list),
        Err(_) => None,
    }
}

/// A list of these two.
fn paired<T>(list: Vec<T>, first: T, second: T) -> Vec<T>
    requires empty { list.items ≡ [] }
    requires room { 2 ≤ vec_capacity list }
    ensures { result.items ≡ first ∷ second ∷ [] }
{
    let mut list = list;
    list.push_reserved(first);
    list.push_reserved(second);
    list
}

/// Two teams with a pass of each.
fn both(
    list: Vec<SharedTeam>,
    passes: Vec<Pass>,
    first: SharedTeam,
    second: SharedTeam,
    pass: Pass,
    its: Pass,
) -> (SharedTeams, TeamPasses)
    requires list { (list.items ≡ []) × (2 ≤ vec_capacity list) }
    requires passes { (passes.items ≡ []) × (2 ≤ vec_capacity passes) }
    requires names { first.name ≢ second.name }
    requires own { IsOf first.hub pass × IsOf second.hub its }
    ensures { PassesAre (teams_of result.0) (passes_of result.1) }
{
    (
        SharedTeams::new(paired(list, first, second)),
        TeamPasses::new(paired(passes, pass, its)),
    )
}

/// Both teams, or what was made of them is ended.
fn started<R: Wait>(rt: &R, alloc: Global) -> Option<(SharedTeams, TeamPasses)>
    ensures { IfSome result (λ r. PassesAre (teams_of r.0) (passes_of r.1)) }
{
    let (red, blue) = names(alloc)?;
    let passes = room(alloc)?;
    let Ok((hub, pass)) = SharedHub::new(rt, alloc, HubConfig::default(), 0, 1) else {
        return None;
    };
    let Ok((other, its)) = SharedHub::new(rt, alloc, HubConfig::default(), 0, 1) else {
        hub.close(rt);
        return None;
    };
    let Some(list) = room(alloc) else {
        hub.close(rt);
        other.close(rt);
        return None;
    };
    let first = SharedTeam { name: red, hub };
    let second = SharedTeam {
        name: blue,
        hub: other,
    };
    Some(both(list, passes, first, second, pass, its))
}

/// Serves a connection over any ends, of which a trial asks nothing more than that the passes stay those of the teams.
fn served_over<R: Wait, L: Link, N: NodeLink, C: Clock>(
    rt: &R,
    alloc: Global,
    teams: &SharedTeams,
    passes: &mut TeamPasses,
    link: &mut L,
    nodes: &mut N,
    clock: &mut C,
) -> Result<Served, ConnFault>
    requires { PassesAre (teams_of teams.now) (passes_of passes.old) }
    ensures { PassesAre (teams_of teams.now) (passes_of passes.new) }
{
    serve_teams_shared(rt, alloc, teams, passes, link, nodes, clock)
}

/// Whether the connection is answered so.
fn holds<R: Wait>(
    rt: &R,
    alloc: Global,
    teams: &SharedTeams,
    passes: &mut TeamPasses,
    row: &Row,
) -> Option<bool>
    requires { PassesAre (teams_of teams.now) (passes_of passes.old) }
    ensures { PassesAre (teams_of teams.now) (passes_of passes.new) }
{
    let asked = Bytes::of(alloc, row.asked.as_bytes()).ok()?;
    let source = MemSource::new(asked, 5, Vec::new(alloc));
    let mut link = MemLink::new(source, MemSink::new(alloc, 7, Vec::new(alloc)));
    let mut nodes = MemNodes::new(alloc, Vec::new(alloc));
    let mut clock = MemClock::new(Moment(0));
    let ended = served_over(rt, alloc, teams, passes, &mut link, &mut nodes, &mut clock);
    let wanted = Served {
        frames: row.frames,
        end: row.end,
        short: false,
    };
    Some(ended == Ok(wanted) && link.taken() == row.answered.as_bytes())
}

/// Whether all are, one behind the other.
fn all_hold<R: Wait>(
    rt: &R,
    alloc: Global,
    teams: &SharedTeams,
    passes: &mut TeamPasses,
) -> Option<bool>
    requires { PassesAre (teams_of teams.now) (passes_of passes.old) }
    ensures { PassesAre (teams_of teams.now) (passes_of passes.new) }
{
    for row in ROWS {
        if !holds(rt, alloc, teams, passes, row)? {
            return Some(false);
        }
    }
    Some(true)
}

fn are_apart<R: Wait>(rt: &R, alloc: Global) -> Option<bool> {
    let (teams, mut passes) = started(rt, alloc)?;
    let held = all_hold(rt, alloc, &teams, &mut passes);
    teams.close(rt);
    held
}

/// Two teams of which each has a hub of its own, one that nobody has, and none.
#[test]
fn teams_that_threads_share_are_apart(rt: HostRuntime) {
    assert!(rt; are_apart(&rt, rt.alloc()) == Some(true));
}
