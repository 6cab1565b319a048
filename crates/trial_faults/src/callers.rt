//! Connections in memory that act beside each other over one hub, with what is to be seen of each.
ghost use Rattle.hub_cell.specs.Passes.{IsOf};

use crate::beside::ONE_HANGS;
use crate::grid::{asked, says};
use crate::leaving::THREE_LEAVE;
use crate::seats::{MemSeat, has_asked, line_of};
use crate::table::{Ends, Scene, play};
use crate::tables::{Told, joined, nodes_of, plain, text_of};
use grid_outside::{MemClock, MemLine, MemNodeLine, MemNodes, NodeLink};
use grid_types::{HubConfig, Moment};
use hub_cell::{Pass, SharedHub};
use hub_serving::{ConnFault, Served};
use std::alloc::Global;
use std::sync::Wait;

/// A client with its node, and what is to be seen of them.
#[derive(Clone, Copy)]
pub(crate) struct Caller {
    pub(crate) sends: &'static [&'static [u8]],
    /// From this look on it has left.
    pub(crate) leaves: Option<u64>,
    pub(crate) replies: &'static [(u16, &'static str)],
    /// So often the node is asked in vain whether its reply has come.
    pub(crate) silent: u64,
    pub(crate) told: &'static [Told],
    pub(crate) asks: &'static str,
    /// None where it isn't over.
    pub(crate) ended: Option<Result<Served, ConnFault>>,
}

/// The numbers up to this one.
fn up_to(alloc: Global, count: u64) -> Option<Vec<u64>> {
    let mut numbers = Vec::new(alloc);
    for number in 0..count {
        numbers.push(number).ok()?;
    }
    Some(numbers)
}

/// A line, what reaches the nodes, and the numbers of the questions that find nothing there.
#[derive(Drop)]
pub(crate) struct Reaching<N: Drop> {
    line: MemLine,
    nodes: N,
    waits: Vec<u64>,
}

impl<N: NodeLink + Drop> Ends for Reaching<N> {
    type L = MemLine;

    type N = MemNodeLine<N>;

    fn both(self) -> (MemLine, MemNodeLine<N>) {
        let Reaching { line, nodes, waits } = self;
        (line, MemNodeLine::new(nodes, waits))
    }
}

fn line_to(alloc: Global, caller: &Caller) -> Option<MemLine> {
    let sends = joined(alloc, caller.sends)?;
    let line = line_of(alloc, &plain(sends.as_slice()))?;
    match caller.leaves {
        Some(look) => Some(line.gone_from(look)),
        None => Some(line),
    }
}

/// The ends of its connection.
pub(crate) fn ends_of(alloc: Global, caller: &Caller) -> Option<Reaching<MemNodes>> {
    let waits = up_to(alloc, caller.silent)?;
    let line = line_to(alloc, caller)?;
    match nodes_of(alloc, caller.replies, &[]) {
        Some(nodes) => Some(Reaching { line, nodes, waits }),
        None => {
            drop(line);
            None
        }
    }
}

fn all_ends(alloc: Global, callers: &[Caller]) -> Option<Vec<Reaching<MemNodes>>> {
    let mut all = Vec::new(alloc);
    for caller in callers {
        all.push(ends_of(alloc, caller)?).ok()?;
    }
    Some(all)
}

/// Whether its client took just this.
pub(crate) fn has_told(alloc: Global, seat: &MemSeat, told: &[Told]) -> bool {
    match text_of(alloc, told) {
        Some(told) => seat.line().link().taken() == told.as_bytes(),
        None => false,
    }
}

pub(crate) fn is_so(alloc: Global, seat: &MemSeat, caller: &Caller) -> bool {
    seat.result() == caller.ended
        && has_told(alloc, seat, caller.told)
        && has_asked(alloc, seat, caller.asks)
}

fn are_so(alloc: Global, seats: &[MemSeat], callers: &[Caller]) -> bool {
    for (seat, caller) in seats.iter().zip(callers) {
        if !is_so(alloc, seat, caller) {
            return false;
        }
    }
    seats.len() == callers.len()
}

/// Whether the hub says this of its slots and of its queue afterwards.
pub(crate) fn is_left<R: Wait>(
    rt: &R,
    alloc: Global,
    hub: &SharedHub,
    pass: &mut Pass,
    after: &[Told],
) -> bool
    requires { IsOf hub.now pass.old }
    ensures { IsOf hub.now pass.new }
{
    match text_of(alloc, after) {
        Some(after) => says(rt, alloc, hub, pass, after.as_str()),
        None => false,
    }
}

/// What a node that registers says, who calls, who acts when, and what the hub says of its slots and of its queue afterwards.
#[derive(Clone, Copy)]
pub(crate) struct Story {
    pub(crate) registers: &'static [u8],
    pub(crate) callers: &'static [Caller],
    pub(crate) scenes: &'static [Scene],
    pub(crate) after: &'static [Told],
}

fn goes_over<R: Wait>(
    rt: &R,
    alloc: Global,
    hub: &SharedHub,
    first: &mut Pass,
    story: &Story,
) -> Option<bool>
    requires { IsOf hub.now first.old }
    ensures { IsOf hub.now first.new }
{
    drop(asked(rt, alloc, hub, first, story.registers)?);
    let mut clock = MemClock::new(Moment(0));
    let all = all_ends(alloc, story.callers)?;
    let seats = play(rt, alloc, hub, first, all, story.scenes, &mut clock)?;
    let is_seen = are_so(alloc, seats.as_slice(), story.callers);
    drop(seats);
    Some(is_seen && is_left(rt, alloc, hub, first, story.after))
}

/// Whether the story goes so over a hub of its own.
fn goes<R: Wait>(rt: &R, alloc: Global, story: &Story) -> Option<bool> {
    let (hub, mut first) = SharedHub::new(rt, alloc, HubConfig::default(), 0, 1).ok()?;
    let so = goes_over(rt, alloc, &hub, &mut first, story);
    first.let_go();
    hub.close(rt);
    so
}

#[test]
fn nobody_is_held_up(rt: HostRuntime) {
    assert!(rt; goes(&rt, rt.alloc(), &ONE_HANGS) == Some(true));
    assert!(rt; goes(&rt, rt.alloc(), &THREE_LEAVE) == Some(true));
}
