//! Connections that one thread serves beside each other, each by a pass of its own.
ghost use Rattle.std.specs.Prelude.{◌≡◌, ◌<◌, length, None, All, IfSome};
ghost use Rattle.std.specs.List.{AllZip};
ghost use Rattle.hub_cell.specs.declared.hub.SharedHub.{SharedHub};
ghost use Rattle.hub_cell.specs.Passes.{IsOf};
ghost use Rattle.hub_serving.specs.Seats.{seen_by};
ghost use Rattle.hub_workers.specs.SharedClock.{Asked};
ghost use Rattle.hub_serving.specs.declared.seats.Seat.{Seat};
ghost use Rattle.hub_serving.specs.Tables.{IsSeated, Says, ServesSeat, SitsOn, ended_of, first_of, line_of, nodes_of, pass_of};

mod lending;
mod places;
mod resting;

use crate::allowing::Allowance;
use crate::stepping::{Act, advance};
use grid_outside::{Clock, Line, NodeLine};
use hub_cell::{Pass, SharedHub};
use hub_conn::{ConnFault, Served, Talk, conversations_find_spent_last};
pub use places::Places;
use std::alloc::Global;
use std::snapshot::Snapshot;
use std::sync::Wait;

/// A connection with its pass, its line and what reaches its nodes. It shares its thread's clock with others.
#[derive(Drop)]
pub struct Seat<L: Drop, N: Drop, C> {
    pass: Pass,
    talk: Talk,
    line: L,
    nodes: N,
    /// An exchange with a node is under way.
    asking: bool,
    allowance: Allowance,
    /// The moment that it was told last.
    moment: u64,
    ended: Option<Result<Served, ConnFault>>,
    /// The clock as it was when it told that moment; and all as it was when the connection began. No code can read these.
    last: Snapshot<C>,
    first_pass: Snapshot<Pass>,
    first_line: Snapshot<L>,
    first_nodes: Snapshot<N>,
    first_clock: Snapshot<C>,
}

impl<L: Line + Drop, N: NodeLine + Drop, C: Clock> Seat<L, N, C> {
    /// A connection that begins now. Its requests for sessions are taken to wait so many milliseconds: a start by it may take as long
    /// as its request has left, at least 30 s and at most 600 s. Takes no memory.
    pub fn new(
        alloc: Global,
        pass: Pass,
        line: L,
        nodes: N,
        clock: &mut C,
        timeout_ms: u64,
    ) -> Seat<L, N, C>
        requires idle { N.asks nodes None }
        ensures seated { (hub : SharedHub) → IsOf hub pass →
            IsSeated hub L.view N.state N.gives N.asks C.gives C.view clock.new result }
        ensures first { first_of L.view N.state C.view result
            ≡ seen_by C.view pass (N.state nodes) clock.new (L.view line) }
        ensures begins { ended_of result ≡ None }
        ensures asked { Asked C.gives C.view clock.old clock.new }
    {
        let now = clock.now();
        let first_pass = Snapshot::of(&pass);
        let first_line = Snapshot::of(&line);
        let first_nodes = Snapshot::of(&nodes);
        let first_clock = Snapshot::of(&*clock);
        let last = Snapshot::of(&*clock);
        Seat {
            pass,
            talk: Talk::new(alloc),
            line,
            nodes,
            asking: false,
            allowance: Allowance::new(timeout_ms),
            moment: now.0,
            ended: None,
            last,
            first_pass,
            first_line,
            first_nodes,
            first_clock,
        }
    }

    /// Does what the connection wants, where that can be done now. It may be called at any time.
    pub fn step<R: Wait>(
        &mut self,
        rt: &R,
        alloc: Global,
        hub: &SharedHub,
        buffer: &mut [u8],
        clock: &mut C,
    ) -> Act
        requires seated { IsSeated hub.now L.view N.state N.gives N.asks C.gives C.view clock.old
            self.old }
        requires room { 0 < length buffer.old }
        ensures on { SitsOn hub.now L.view N.state N.gives N.asks C.gives C.view clock.new self.old
            self.new }
        ensures says { Says L.view N.state C.view result self.old self.new }
        ensures asked { Asked C.gives C.view clock.old clock.new }
    {
        if let Some(result) = self.ended {
            return Act::Over(result);
        }
        match advance(
            rt,
            alloc,
            hub,
            &mut self.pass,
            &mut self.talk,
            buffer,
            &mut self.line,
            &mut self.nodes,
            clock,
            &mut self.asking,
            &mut self.allowance,
            &mut self.moment,
            &mut self.last,
        ) {
            Act::GoesOn => Act::GoesOn,
            Act::Rests(rest) => Act::Rests(rest),
            Act::Over(result) => {
                self.ended = Some(result);
                Act::Over(result)
            }
        }
    }

    /// How it ended, where it has ended: then all that was read, done and written since it began is one conversation, and what
    /// is said of a connection that is served alone is true of it.
    pub fn result(&self) -> Option<Result<Served, ConnFault>>
        ensures ended { result ≡ ended_of self.now }
        ensures serves { (hub : SharedHub) (clock : C) →
            IsSeated hub L.view N.state N.gives N.asks C.gives C.view clock self.now →
            IfSome result (ServesSeat hub L.view N.state N.gives N.asks C.gives C.view self.now) }
    {
        // For the proof alone: what the pass has seen is legal and safe, and it found the hub spent at the end or not at all.
        conversations_find_spent_last();
        let _number = self.pass.number();
        self.ended
    }

    /// Its line.
    pub fn line(&self) -> &L
        ensures { result.now ≡ line_of self.now }
    {
        &self.line
    }

    /// What reaches its nodes.
    pub fn nodes(&self) -> &N
        ensures { result.now ≡ nodes_of self.now }
    {
        &self.nodes
    }

    /// Its pass, for another connection.
    pub fn into_pass(self) -> Pass
        ensures { result ≡ pass_of self }
    {
        let Seat {
            pass,
            talk,
            line,
            nodes,
            ..
        } = self;
        drop(talk);
        drop(line);
        drop(nodes);
        pass
    }
}

/// Each of the connections at these places does what it wants, where that can be done now, in this order.
pub fn round<R: Wait, L: Line + Drop, N: NodeLine + Drop, C: Clock>(
    rt: &R,
    alloc: Global,
    hub: &SharedHub,
    seats: &mut Vec<Seat<L, N, C>>,
    ready: &[usize],
    buffer: &mut [u8],
    clock: &mut C,
)
    requires seated { All (IsSeated hub.now L.view N.state N.gives N.asks C.gives C.view clock.old)
        seats.old.items }
    requires room { 0 < length buffer.old }
    ensures on { AllZip (SitsOn hub.now L.view N.state N.gives N.asks C.gives C.view clock.new)
        seats.old.items seats.new.items }
    ensures seated { All (IsSeated hub.now L.view N.state N.gives N.asks C.gives C.view clock.new)
        seats.new.items }
    ensures asked { Asked C.gives C.view clock.old clock.new }
{
    for place in ready {
        let place = *place;
        if place < seats.len() {
            seats[place].step(rt, alloc, hub, buffer, clock);
        }
    }
}

/// Each connection stays seated where others ask the clock on: it is told a moment that the clock gives then.
pub fn seats_stay_seated<L: Line + Drop, N: NodeLine + Drop, C: Clock>()
    ensures { (hub : SharedHub) (seat : Seat L N C) (clock later : C) → Asked C.gives C.view clock later →
        IsSeated hub L.view N.state N.gives N.asks C.gives C.view clock seat →
        IsSeated hub L.view N.state N.gives N.asks C.gives C.view later seat }
{}
