//! One step of a connection that shares its thread with others: it does what it wants where that can be done now, and never waits.
ghost use Rattle.std.specs.Prelude.{◌≡◌, ◌<◌, false, length};
ghost use Rattle.grid_outside.specs.Told.{later_by};
ghost use Rattle.hub_cell.specs.Passes.{IsOf};
ghost use Rattle.hub_serving.specs.Outside.{Outside};
ghost use Rattle.hub_conn.specs.Talk.{Feeds, HandsOut, StandsForSome, awaited};
ghost use Rattle.conn_script.specs.declared.wants.Answer.TheVariants as answers;
ghost use Rattle.conn_script.specs.declared.wants.Want.TheVariants as wants;
ghost use Rattle.conn_script.specs.Wanted.{came};
ghost use Rattle.hub_serving.specs.Seats.{Acted, FindsLeft, Sits, TakesPiece, TakesReply, seen_by};
ghost use Rattle.hub_workers.specs.SharedClock.{Remembers};

use crate::allowing::Allowance;
use crate::calls::make;
use grid_outside::{Clock, Line, NodeLine};
use grid_types::LAST_MOMENT;
use hub_cell::{Pass, SharedHub};
use hub_conn::{Answer, ConnFault, Served, Talk, Want, calls_are_rightful, wants_come_in_order};
use hub_links::{read_now, write_now};
use std::alloc::Global;
use std::snapshot::Snapshot;
use std::sync::Wait;

/// What a connection waits for. While a New Session waits to be polled again, each step looks whether its client has left.
#[derive(Clone, Copy, Debug, PartialEq, Eq)]
pub enum Rest {
    /// Bytes, or the end of them.
    Read,
    /// That bytes can be written.
    Write,
    /// Its node.
    Node,
    /// A moment, in milliseconds.
    Until(u64),
}

/// What a connection did.
#[derive(Clone, Copy, Debug, PartialEq, Eq)]
pub enum Act {
    /// It did something, and may do more at once.
    GoesOn,
    /// It waits, and has done nothing.
    Rests(Rest),
    /// It is over.
    Over(Result<Served, ConnFault>),
}

/// When a pause is over that began at the moment.
fn due_of(moment: u64, ms: u64) -> u64
    ensures { result ≡ later_by moment ms }
{
    moment.saturating_add(ms).min(LAST_MOMENT)
}

/// Whether a New Session waits whose client has left. False: all is as before.
fn has_left<L: Line>(talk: &Talk, line: &mut L) -> bool
    ensures { FindsLeft talk.now result (L.view line.old) (L.view line.new) }
{
    talk.waits() && line.gone()
}

/// Takes in what has come of the exchange that is under way, if it has.
fn take_reply<N: NodeLine>(alloc: Global, talk: &mut Talk, nodes: &mut N, asking: &mut bool) -> Act
    requires awaits { awaited talk.old ≡ came }
    requires stands { StandsForSome talk.old }
    ensures { TakesReply N.gives N.asks N.faults result
        talk.old (N.state nodes.old) nodes.old asking.old
        talk.new (N.state nodes.new) nodes.new asking.new }
{
    match nodes.came(alloc) {
        Some(came) => {
            talk.feed(Answer::Node(came));
            *asking = false;
            Act::GoesOn
        }
        None => Act::Rests(Rest::Node),
    }
}

// What each want takes stands in a function of its own: a step then makes room for what its own want takes alone.

/// Reads a piece, if there is one.
fn read_on<L: Line>(
    talk: &mut Talk,
    buffer: &mut [u8],
    line: &mut L,
    most: u32,
    asking: &mut bool,
) -> Act
    requires room { 0 < length buffer.old }
    requires wants { HandsOut talk.old (wants.Read most) }
    requires stands { StandsForSome talk.old }
    ensures { TakesPiece result most talk.old (L.view line.old) asking.old
        talk.new (L.view line.new) asking.new }
{
    wants_come_in_order();
    match read_now(line, most, buffer) {
        Some(answer) => {
            talk.feed(answer);
            *asking = false;
            Act::GoesOn
        }
        None => Act::Rests(Rest::Read),
    }
}

/// Does what goes before a request: nothing.
fn begin_on(talk: &mut Talk, asking: &mut bool)
    requires wants { HandsOut talk.old wants.Begin }
    requires stands { StandsForSome talk.old }
    ensures begun { Feeds talk.old answers.Begun talk.new }
    ensures asking { asking.new ≡ false }
{
    talk.feed(Answer::Begun);
    *asking = false;
}

/// Makes the call that is wanted. What reaches the nodes and the line are there for the proof alone.
fn call_on<R: Wait, L: Line, N: NodeLine, C: Clock>(
    rt: &R,
    hub: &SharedHub,
    pass: &mut Pass,
    talk: &mut Talk,
    line: &L,
    nodes: &N,
    clock: &mut C,
    asking: &mut bool,
    allowance: &mut Allowance,
    moment: &mut u64,
    last: &mut Snapshot<C>,
) -> Act
    requires own { IsOf hub.now pass.old }
    requires wants { HandsOut talk.old wants.Hub }
    requires remembers { Remembers C.gives C.view clock.old moment.old last.old.value }
    requires sits { (first : Outside N.State C) × Sits hub.now N.gives N.asks C.gives C.view
        first talk.old nodes.now asking.old
        (seen_by C.view pass.old (N.state nodes.now) last.old.value (L.view line.now)) }
    ensures own { IsOf hub.now pass.new }
    ensures remembers { Remembers C.gives C.view clock.new moment.new last.new.value }
    ensures acted { Acted hub.now N.gives N.asks C.gives C.view result
        clock.old talk.old nodes.now asking.old
        (seen_by C.view pass.old (N.state nodes.now) last.old.value (L.view line.now))
        clock.new talk.new nodes.now asking.new
        (seen_by C.view pass.new (N.state nodes.now) last.new.value (L.view line.now)) }
{
    calls_are_rightful();
    let call = talk.hub_call();
    let at = clock.now();
    let told = Snapshot::of(&*clock);
    allowance.note(&call, at.0);
    let answer = make(rt, hub, pass, call, at);
    talk.feed(Answer::Hub(answer));
    *moment = at.0;
    *last = told;
    *asking = false;
    Act::GoesOn
}

/// Goes on where the pause is over, or where the client of a New Session that waits has left. The hub, the pass and what reaches
/// the nodes are there for the proof alone.
fn pause_on<L: Line, N: NodeLine, C: Clock>(
    hub: &SharedHub,
    pass: &Pass,
    talk: &mut Talk,
    line: &mut L,
    nodes: &N,
    clock: &mut C,
    asking: &mut bool,
    moment: &mut u64,
    last: &mut Snapshot<C>,
    ms: u64,
) -> Act
    requires wants { HandsOut talk.old (wants.Pause ms) }
    requires remembers { Remembers C.gives C.view clock.old moment.old last.old.value }
    requires sits { (first : Outside N.State C) × Sits hub.now N.gives N.asks C.gives C.view
        first talk.old nodes.now asking.old
        (seen_by C.view pass.now (N.state nodes.now) last.old.value (L.view line.old)) }
    ensures remembers { Remembers C.gives C.view clock.new moment.new last.new.value }
    ensures acted { Acted hub.now N.gives N.asks C.gives C.view result
        clock.old talk.old nodes.now asking.old
        (seen_by C.view pass.now (N.state nodes.now) last.old.value (L.view line.old))
        clock.new talk.new nodes.now asking.new
        (seen_by C.view pass.now (N.state nodes.now) last.new.value (L.view line.new)) }
{
    let due = due_of(*moment, ms);
    let now = clock.now();
    if now.0 < due {
        if has_left(talk, line) {
            talk.feed(Answer::Gone);
            *asking = false;
            return Act::GoesOn;
        }
        return Act::Rests(Rest::Until(due));
    }
    let rested = Snapshot::of(&*clock);
    talk.feed(Answer::Paused);
    *moment = now.0;
    *last = rested;
    *asking = false;
    Act::GoesOn
}

/// Does what the connection wants, where that can be done now. `moment` is the one that it was told last, and `last` the clock as
/// it was then.
pub(crate) fn advance<R: Wait, L: Line, N: NodeLine, C: Clock>(
    rt: &R,
    alloc: Global,
    hub: &SharedHub,
    pass: &mut Pass,
    talk: &mut Talk,
    buffer: &mut [u8],
    line: &mut L,
    nodes: &mut N,
    clock: &mut C,
    asking: &mut bool,
    allowance: &mut Allowance,
    moment: &mut u64,
    last: &mut Snapshot<C>,
) -> Act
    requires own { IsOf hub.now pass.old }
    requires room { 0 < length buffer.old }
    requires remembers { Remembers C.gives C.view clock.old moment.old last.old.value }
    requires sits { (first : Outside N.State C) × Sits hub.now N.gives N.asks C.gives C.view
        first talk.old nodes.old asking.old
        (seen_by C.view pass.old (N.state nodes.old) last.old.value (L.view line.old)) }
    ensures own { IsOf hub.now pass.new }
    ensures remembers { Remembers C.gives C.view clock.new moment.new last.new.value }
    ensures acted { Acted hub.now N.gives N.asks C.gives C.view result
        clock.old talk.old nodes.old asking.old
        (seen_by C.view pass.old (N.state nodes.old) last.old.value (L.view line.old))
        clock.new talk.new nodes.new asking.new
        (seen_by C.view pass.new (N.state nodes.new) last.new.value (L.view line.new)) }
{
    let asked = *asking;
    // The request that was passed on need not be made again.
    if asked && talk.passes_on() {
        return take_reply(alloc, talk, nodes, asking);
    }
    match talk.next() {
        Want::Read(most) => {
            // For the proof alone: what is read stays within the limit.
            wants_come_in_order();
            read_on(talk, buffer, line, most, asking)
        }
        Want::Write(bytes) => match write_now(line, bytes) {
            Some(answer) => {
                talk.feed(answer);
                *asking = false;
                Act::GoesOn
            }
            None => Act::Rests(Rest::Write),
        },
        Want::Begin => {
            begin_on(talk, asking);
            Act::GoesOn
        }
        Want::Hub => call_on(
            rt, hub, pass, talk, line, nodes, clock, asking, allowance, moment, last,
        ),
        Want::Node(address, request) => {
            if !asked {
                nodes.allow(allowance.of(&request, *moment));
                nodes.ask(alloc, &address, &request);
                *asking = true;
                return Act::GoesOn;
            }
            take_reply(alloc, talk, nodes, asking)
        }
        Want::Pause(ms) => pause_on(
            hub, pass, talk, line, nodes, clock, asking, moment, last, ms,
        ),
        Want::Done(result) => Act::Over(result),
    }
}
