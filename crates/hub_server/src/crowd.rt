//! The connections of one loop.
ghost use Rattle.std.specs.Prelude.{◌<◌, length, IfOk, IfSome, None};
ghost use Rattle.hub_cell.specs.declared.hub.SharedHub.{SharedHub};
ghost use Rattle.hub_cell.specs.Passes.{IsOf};
ghost use Rattle.hub_server.specs.Crowds.{IsCrowd};

use crate::diary::Diary;
use crate::passes::{bare, next_pass};
use crossbeam_channel::Receiver;
use grid_outside::{Clock, Line, NodeLine};
use grid_types::NoMemory;
use hub_cell::{Pass, SharedHub};
use hub_serving::{Act, Places, Rest, Seat};
use std::alloc::Global;
use std::sync::Wait;
use std::sync::atomic::AtomicU64;

/// So many steps of one connection, and then the others have theirs.
const STEPS: u32 = 64;

/// What all loops share.
#[derive(Drop)]
pub(crate) struct Desk<'a, R, L: Drop> {
    pub(crate) rt: &'a R,
    pub(crate) alloc: Global,
    pub(crate) hub: &'a SharedHub,
    /// The links that have come in and that no loop has taken yet.
    pub(crate) links: Receiver<L>,
    /// How many connections of all loops pause.
    pub(crate) pausing: AtomicU64,
}

/// The connections that one thread drives, and what they share.
#[derive(Drop)]
pub(crate) struct Crowd<L: Drop, N: Drop, C: Drop> {
    places: Places<L, N, C>,
    /// How long their requests wait, in milliseconds.
    timeout_ms: u64,
    diary: Diary,
    clock: C,
    /// Passes are split off this one.
    root: Pass,
    /// Its reader of the published map is lent to each connection that is stepped.
    reader: Option<Pass>,
    /// Passes of connections that are over.
    passes: Vec<Pass>,
    /// Places at which no connection stands.
    free: Vec<usize>,
    /// How many connections there are.
    open: usize,
}

impl<L: Line + Drop, N: NodeLine + Drop, C: Clock + Drop> Crowd<L, N, C> {
    /// Without a connection, for so many, whose requests wait so long. What it holds it takes now, and no memory later.
    pub(crate) fn new(
        alloc: Global,
        count: usize,
        timeout_ms: u64,
        clock: C,
        root: Pass,
        reader: Pass,
    ) -> Result<Crowd<L, N, C>, NoMemory>
        ensures { (hub : SharedHub) → IsOf hub root → IsOf hub reader → IfOk result
            (IsCrowd hub L.view N.state N.gives N.asks C.gives C.view) }
    {
        let places = Places::new(alloc, count)?;
        let diary = Diary::new(alloc, count)?;
        let passes = Vec::with_capacity(alloc, count)?;
        let free = all_places(alloc, count)?;
        Ok(Crowd {
            places,
            timeout_ms,
            diary,
            clock,
            root,
            reader: Some(reader),
            passes,
            free,
            open: 0,
        })
    }

    /// Whether there is a place for one more connection.
    pub(crate) fn has_room(&self) -> bool {
        !self.free.is_empty()
    }

    /// Whether there is no connection.
    pub(crate) fn is_empty(&self) -> bool {
        self.open == 0
    }

    /// For how many milliseconds no connection is to be looked at whose line and node have nothing.
    pub(crate) fn leave_alone(&self) -> u64 {
        self.diary.leave()
    }

    /// A place at which no connection stands, which is kept for one.
    pub(crate) fn free_place(&mut self) -> Option<usize>
        ensures { (hub : SharedHub) →
            IsCrowd hub L.view N.state N.gives N.asks C.gives C.view self.old →
            IsCrowd hub L.view N.state N.gives N.asks C.gives C.view self.new }
    {
        self.free.pop()
    }

    /// A pass for one more connection: that of one that is over, or a new one. None: the hub is spent or out of memory.
    fn free_pass<R: Wait>(&mut self, desk: &Desk<'_, R, L>) -> Option<Pass>
        requires { IsCrowd desk.now.hub.now L.view N.state N.gives N.asks C.gives C.view self.old }
        ensures crowd { IsCrowd desk.now.hub.now L.view N.state N.gives N.asks C.gives C.view self.new }
        ensures pass { IfSome result (IsOf desk.now.hub.now) }
    {
        match next_pass(desk.hub, &mut self.passes) {
            Some(pass) => Some(pass),
            None => bare(desk.rt, desk.hub, &mut self.root),
        }
    }

    /// Seats a connection at the place, which was kept for it. Where there is no pass for it it is let go.
    pub(crate) fn sit<R: Wait>(&mut self, desk: &Desk<'_, R, L>, place: usize, line: L, nodes: N)
        requires crowd { IsCrowd desk.now.hub.now L.view N.state N.gives N.asks C.gives C.view self.old }
        requires idle { N.asks nodes None }
        ensures { IsCrowd desk.now.hub.now L.view N.state N.gives N.asks C.gives C.view self.new }
    {
        let Some(pass) = self.free_pass(desk) else {
            self.leave_free(place);
            return;
        };
        // For the proof alone: the others stay seated while the clock is asked for this one.
        self.places.stay();
        let seat = Seat::new(
            desk.alloc,
            pass,
            line,
            nodes,
            &mut self.clock,
            self.timeout_ms,
        );
        // Nothing stood there. A large value is let go by a call: the check of one that ends by itself writes out all its fields.
        drop(self.places.sit(place, seat));
        self.diary.goes_on(place);
        self.open = self.open.saturating_add(1);
    }

    /// Leaves the place to another connection.
    pub(crate) fn leave_free(&mut self, place: usize)
        ensures { (hub : SharedHub) →
            IsCrowd hub L.view N.state N.gives N.asks C.gives C.view self.old →
            IsCrowd hub L.view N.state N.gives N.asks C.gives C.view self.new }
    {
        self.diary.clear(place);
        // There is room for each place.
        let _ = self.free.push(place);
    }

    /// Takes the connection that is over from the place.
    fn leave(&mut self, place: usize)
        ensures { (hub : SharedHub) →
            IsCrowd hub L.view N.state N.gives N.asks C.gives C.view self.old →
            IsCrowd hub L.view N.state N.gives N.asks C.gives C.view self.new }
    {
        if let Some(seat) = self.places.take(place) {
            self.open = self.open.saturating_sub(1);
            // There is room for the pass of each place.
            drop(self.passes.push(seat.into_pass()));
            self.leave_free(place);
        }
    }

    /// Steps the connection at the place until it rests or is over, but not for too long.
    fn go_on<R: Wait>(
        &mut self,
        desk: &Desk<'_, R, L>,
        place: usize,
        buffer: &mut [u8],
    ) -> Option<Act>
        requires crowd { IsCrowd desk.now.hub.now L.view N.state N.gives N.asks C.gives C.view self.old }
        requires room { 0 < length buffer.old }
        ensures { IsCrowd desk.now.hub.now L.view N.state N.gives N.asks C.gives C.view self.new }
    {
        for _ in 0..STEPS {
            let act = self.places.step(
                desk.rt,
                desk.alloc,
                desk.hub,
                place,
                &mut self.reader,
                buffer,
                &mut self.clock,
            );
            if act != Some(Act::GoesOn) {
                return act;
            }
        }
        Some(Act::GoesOn)
    }

    /// Visits the connection at the place, if one stands there.
    fn visit<R: Wait>(&mut self, desk: &Desk<'_, R, L>, place: usize, at: u64, buffer: &mut [u8])
        requires crowd { IsCrowd desk.now.hub.now L.view N.state N.gives N.asks C.gives C.view self.old }
        requires room { 0 < length buffer.old }
        ensures { IsCrowd desk.now.hub.now L.view N.state N.gives N.asks C.gives C.view self.new }
    {
        match self.go_on(desk, place, buffer) {
            Some(Act::GoesOn) => self.diary.goes_on(place),
            Some(Act::Rests(Rest::Until(due))) => self.diary.pauses(place, due),
            Some(Act::Rests(Rest::Node)) => self.diary.awaits_node(place, at),
            Some(Act::Rests(_)) => self.diary.waits(place, at),
            Some(Act::Over(_)) => self.leave(place),
            None => {}
        }
    }

    /// Visits the connections at these places.
    pub(crate) fn visit_all<R: Wait>(
        &mut self,
        desk: &Desk<'_, R, L>,
        ready: &[usize],
        at: u64,
        buffer: &mut [u8],
    )
        requires crowd { IsCrowd desk.now.hub.now L.view N.state N.gives N.asks C.gives C.view self.old }
        requires room { 0 < length buffer.old }
        ensures { IsCrowd desk.now.hub.now L.view N.state N.gives N.asks C.gives C.view self.new }
    {
        for place in ready {
            self.visit(desk, *place, at, buffer);
        }
    }

    /// Notes that the lines or nodes of these places may have something.
    pub(crate) fn stir_all(&mut self, ready: &[usize], at: u64)
        ensures { (hub : SharedHub) →
            IsCrowd hub L.view N.state N.gives N.asks C.gives C.view self.old →
            IsCrowd hub L.view N.state N.gives N.asks C.gives C.view self.new }
    {
        for place in ready {
            self.diary.stirs(*place, at);
        }
    }

    /// Puts the places that are to be looked at behind `ready`.
    pub(crate) fn wake<R>(&mut self, desk: &Desk<'_, R, L>, at: u64, ready: &mut Vec<usize>)
        ensures { (hub : SharedHub) →
            IsCrowd hub L.view N.state N.gives N.asks C.gives C.view self.old →
            IsCrowd hub L.view N.state N.gives N.asks C.gives C.view self.new }
    {
        self.diary.wake(at, &desk.pausing, ready);
    }

    /// Connections that have rested for long give back memory.
    pub(crate) fn rest_all(&mut self, at: u64)
        ensures { (hub : SharedHub) →
            IsCrowd hub L.view N.state N.gives N.asks C.gives C.view self.old →
            IsCrowd hub L.view N.state N.gives N.asks C.gives C.view self.new }
    {
        for place in 0..self.diary.places() {
            if self.diary.has_rested(place, at) {
                self.places.rest(place);
            }
        }
    }

    /// The clock's moment, in milliseconds.
    pub(crate) fn now(&mut self) -> u64
        ensures { (hub : SharedHub) →
            IsCrowd hub L.view N.state N.gives N.asks C.gives C.view self.old →
            IsCrowd hub L.view N.state N.gives N.asks C.gives C.view self.new }
    {
        self.places.now(&mut self.clock).0
    }
}

/// All places, the first one last.
fn all_places(alloc: Global, count: usize) -> Result<Vec<usize>, NoMemory> {
    let mut all = Vec::with_capacity(alloc, count)?;
    for place in 0..count {
        if all.push(count - 1 - place).is_err() {
            return Err(NoMemory);
        }
    }
    Ok(all)
}
