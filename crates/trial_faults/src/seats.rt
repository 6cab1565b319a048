//! Connections that share their thread: each is stepped, and its calls find nothing there at first.
ghost use Rattle.std.specs.Prelude.{None};
ghost use Rattle.hub_cell.specs.Passes.{IsOf};
ghost use Rattle.hub_serving.specs.Tables.{pass_of};

use crate::grid::{are_asked, asked, says};
use crate::tables::{
    Client, FailingRow, Fails, REGISTERS, client_of, five_requests, foretold, front, link_of,
    nodes_failing,
};
use grid_outside::{Clock, Line, MemClock, MemLine, MemNodeLine, MemNodes, NodeLine};
use grid_types::{HubConfig, Moment};
use hub_cell::{Pass, SharedHub};
use hub_serving::{Act, ConnFault, Seat, Served};
use std::alloc::Global;
use std::sync::Wait;

/// More than any connection here takes.
const STEPS: u64 = 1_000;

pub(crate) const BUFFER_BYTES: usize = 4_096;

/// How long a request waits, in milliseconds.
pub(crate) const WAITS_MS: u64 = 300_000;

/// Each second call, from the first on.
fn every_other(alloc: Global) -> Option<Vec<u64>> {
    let mut planned = Vec::new(alloc);
    for count in 0..STEPS {
        planned.push(2 * count).ok()?;
    }
    Some(planned)
}

pub(crate) fn line_of(alloc: Global, client: &Client<'_>) -> Option<MemLine> {
    let link = link_of(alloc, client)?;
    Some(MemLine::new(link, every_other(alloc)?, every_other(alloc)?))
}

/// Steps a connection over any ends until it is over, of which a trial asks nothing more.
fn stepped<R: Wait, L: Line + Drop, N: NodeLine + Drop, C: Clock>(
    rt: &R,
    alloc: Global,
    hub: &SharedHub,
    pass: Pass,
    line: L,
    nodes: N,
    clock: &mut C,
) -> Seat<L, N, C>
    requires own { IsOf hub.now pass }
    requires idle { N.asks nodes None }
    ensures { IsOf hub.now (pass_of result) }
{
    let mut seat = Seat::new(alloc, pass, line, nodes, clock, WAITS_MS);
    let mut buffer = [0; BUFFER_BYTES];
    for _ in 0..STEPS {
        if let Act::Over(_) = seat.step(rt, alloc, hub, &mut buffer, clock) {
            return seat;
        }
    }
    seat
}

/// Whether a connection ended as the row has it, its client took just so many bytes of this, and its node was asked so.
fn is_so(alloc: Global, seat: &MemSeat, row: &FailingRow, told: &[u8]) -> bool {
    has_ended(seat, row.ended)
        && seat.line().link().taken() == front(told, row.written)
        && has_asked(alloc, seat, row.asks)
}

/// The ends of a connection, and the numbers of the questions that find nothing there.
#[derive(Drop)]
struct RowEnds {
    line: MemLine,
    nodes: MemNodes,
    waits: Vec<u64>,
}

fn row_ends(alloc: Global, fails: Fails) -> Option<RowEnds> {
    let sends = five_requests(alloc)?;
    let waits = every_other(alloc)?;
    let line = line_of(alloc, &client_of(sends.as_slice(), fails))?;
    match nodes_failing(alloc, fails) {
        Some(nodes) => Some(RowEnds { line, nodes, waits }),
        None => {
            drop(line);
            None
        }
    }
}

/// What is to be seen: what is told, and what the hub says afterwards.
#[derive(Clone, Copy)]
struct Wanted<'a> {
    told: &'a [u8],
    state: &'a str,
}

/// Whether a connection over these ends goes as the row says, and the hub says so afterwards.
fn goes_by<R: Wait>(
    rt: &R,
    alloc: Global,
    hub: &SharedHub,
    pass: Pass,
    ends: RowEnds,
    row: &FailingRow,
    wanted: &Wanted<'_>,
) -> bool
    requires { IsOf hub.now pass }
{
    let RowEnds { line, nodes, waits } = ends;
    let nodes = MemNodeLine::new(nodes, waits);
    let mut clock = MemClock::new(Moment(0));
    let seat = stepped(rt, alloc, hub, pass, line, nodes, &mut clock);
    let is_seen = is_so(alloc, &seat, row, wanted.told);
    let mut pass = seat.into_pass();
    let is_said = says(rt, alloc, hub, &mut pass, wanted.state);
    drop(pass);
    is_seen && is_said
}

/// Whether the five requests of the row are served so, and the hub says so afterwards.
fn goes_over<R: Wait>(
    rt: &R,
    alloc: Global,
    hub: &SharedHub,
    pass: Pass,
    row: &FailingRow,
) -> Option<bool>
    requires { IsOf hub.now pass }
{
    let mut pass = pass;
    drop(asked(rt, alloc, hub, &mut pass, REGISTERS)?);
    let (told, state) = foretold(alloc, row.told, row.slot)?;
    let ends = row_ends(alloc, row.fails)?;
    let wanted = Wanted {
        told: told.as_bytes(),
        state: state.as_str(),
    };
    Some(goes_by(rt, alloc, hub, pass, ends, row, &wanted))
}

/// Over a hub of its own.
fn goes<R: Wait>(rt: &R, alloc: Global, row: &FailingRow) -> Option<bool> {
    let (hub, pass) = SharedHub::new(rt, alloc, HubConfig::default(), 0, 1).ok()?;
    let so = goes_over(rt, alloc, &hub, pass, row);
    hub.close(rt);
    so
}

/// Whether each row goes so.
pub(crate) fn rows_go<R: Wait>(rt: &R, alloc: Global, rows: &[FailingRow]) -> bool {
    for row in rows {
        if goes(rt, alloc, row) != Some(true) {
            return false;
        }
    }
    true
}

/// A connection over ends in memory.
pub(crate) type MemSeat = Seat<MemLine, MemNodeLine<MemNodes>, MemClock>;

/// Whether its node was asked so.
pub(crate) fn has_asked(alloc: Global, seat: &MemSeat, asks: &str) -> bool {
    are_asked(alloc, seat.nodes().nodes(), asks)
}

/// Whether it is over, and ended so.
fn has_ended(seat: &MemSeat, ended: Result<Served, ConnFault>) -> bool {
    seat.result() == Some(ended)
}
