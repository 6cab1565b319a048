//! A table of connections: at each place one may stand.
ghost use Rattle.std.specs.Prelude.{◌≡◌, ◌<◌, ◌≤◌, ℕ, length, true, None, Some, IfOk, IfSome, [], ◌∷◌, ◌++◌, is_some, slice_set};
ghost use Rattle.std.specs.List.{AllZip};
ghost use Rattle.hub_cell.specs.declared.hub.SharedHub.{SharedHub};
ghost use Rattle.hub_cell.specs.Passes.{IsOf};
ghost use Rattle.grid_outside.specs.Told.{to_tell};
ghost use Rattle.hub_workers.specs.SharedClock.{Asked};
ghost use Rattle.hub_serving.specs.Tables.{IsSeated, SaysAt, StaysAt, StillAt};

use crate::seats::Seat;
use crate::stepping::Act;
use grid_outside::{Clock, Line, NodeLine};
use grid_types::{Moment, NoMemory};
use hub_cell::{Pass, SharedHub};
use std::alloc::Global;
use std::sync::Wait;

/// The places of the connections that one thread drives, numbered from 0.
#[derive(Drop)]
pub struct Places<L: Drop, N: Drop, C> {
    seats: Vec<Option<Seat<L, N, C>>>,
}

/// Steps the connection that stands here, if one does.
fn step_here<R: Wait, L: Line + Drop, N: NodeLine + Drop, C: Clock>(
    rt: &R,
    alloc: Global,
    hub: &SharedHub,
    seat: &mut Option<Seat<L, N, C>>,
    reader: &mut Option<Pass>,
    buffer: &mut [u8],
    clock: &mut C,
) -> Option<Act>
    requires seated { IfSome seat.old (IsSeated hub.now L.view N.state N.gives N.asks C.gives C.view clock.old) }
    requires reader { IfSome reader.old (IsOf hub.now) }
    requires room { 0 < length buffer.old }
    ensures on { StaysAt hub.now L.view N.state N.gives N.asks C.gives C.view clock.new seat.old seat.new }
    ensures told { is_some result ≡ is_some seat.old }
    ensures says { SaysAt L.view N.state C.view result seat.old seat.new }
    ensures asked { Asked C.gives C.view clock.old clock.new }
    ensures reader { IfSome reader.new (IsOf hub.now) }
    ensures room { length buffer.new ≡ length buffer.old }
{
    match seat {
        Some(seat) => Some(seat.step_lent(rt, alloc, hub, reader, buffer, clock)),
        None => None,
    }
}

/// The connection that stands here, if one does, gives back memory.
fn rest_here<L: Line + Drop, N: NodeLine + Drop, C: Clock>(seat: &mut Option<Seat<L, N, C>>)
    ensures still { (hub : SharedHub) → StillAt hub L.view N.state N.gives N.asks C.gives C.view seat.old seat.new }
    ensures seated { (hub : SharedHub) (clock : C) →
        IfSome seat.old (IsSeated hub L.view N.state N.gives N.asks C.gives C.view clock) →
        IfSome seat.new (IsSeated hub L.view N.state N.gives N.asks C.gives C.view clock) }
{
    if let Some(seat) = seat {
        seat.rest();
    }
}

impl<L: Line + Drop, N: NodeLine + Drop, C: Clock> Places<L, N, C> {
    ghost use Rattle.hub_serving.specs.Places.{AreSeated, room_of, seats_of, stands_at};

    /// Room for so many places, at none of which a connection stands. Nothing that is done with them takes memory, and what no
    /// connection has stood at yet is not touched.
    pub fn new(alloc: Global, count: usize) -> Result<Places<L, N, C>, NoMemory>
        ensures seated { (hub : SharedHub) (clock : C) → IfOk result
            (AreSeated hub L.view N.state N.gives N.asks C.gives C.view clock) }
        ensures none { IfOk result (λ places. seats_of places ≡ []) }
        ensures count { IfOk result (λ places. room_of places ≡ count) }
    {
        let seats = Vec::with_capacity(alloc, count)?;
        Ok(Places { seats })
    }

    /// From now on the place is there, where it is the next one and there is room for it.
    fn grow(&mut self, place: usize)
        ensures next { place ≡ length (seats_of self.old) → place < room_of self.old →
            seats_of self.new ≡ seats_of self.old ++ None ∷ [] }
        ensures other { place < length (seats_of self.old) → seats_of self.new ≡ seats_of self.old }
        ensures beyond { length (seats_of self.old) < place → seats_of self.new ≡ seats_of self.old }
        ensures full { room_of self.old ≤ place → seats_of self.new ≡ seats_of self.old }
        ensures room { room_of self.new ≡ room_of self.old }
        ensures seated { (hub : SharedHub) (clock : C) →
            AreSeated hub L.view N.state N.gives N.asks C.gives C.view clock self.old →
            AreSeated hub L.view N.state N.gives N.asks C.gives C.view clock self.new }
    {
        if place == self.seats.len() && place < self.seats.capacity() {
            self.seats.push_reserved(None);
        }
    }

    /// Puts a connection at the place, and gives back the one that stood there; or this one, where there is no such place: each
    /// place comes once a connection has stood at all before it, as far as there is room.
    #[tactic(auto, using(crate::proofs::TableLemmas::put_last, crate::proofs::TableLemmas::last_of))]
    pub fn sit(&mut self, place: usize, seat: Seat<L, N, C>) -> Option<Seat<L, N, C>>
        ensures sits { place < length (seats_of self.old) →
            (seats_of self.new ≡ slice_set (seats_of self.old) place (Some seat)) × (result ≡ stands_at (seats_of self.old) place) }
        ensures next { place ≡ length (seats_of self.old) → place < room_of self.old →
            (seats_of self.new ≡ seats_of self.old ++ Some seat ∷ []) × (result ≡ None) }
        ensures beyond { length (seats_of self.old) < place → (seats_of self.new ≡ seats_of self.old) × (result ≡ Some seat) }
        ensures full { place ≡ length (seats_of self.old) → room_of self.old ≤ place →
            (seats_of self.new ≡ seats_of self.old) × (result ≡ Some seat) }
        ensures room { room_of self.new ≡ room_of self.old }
        ensures seated { (hub : SharedHub) (clock : C) →
            AreSeated hub L.view N.state N.gives N.asks C.gives C.view clock self.old →
            IsSeated hub L.view N.state N.gives N.asks C.gives C.view clock seat →
            AreSeated hub L.view N.state N.gives N.asks C.gives C.view clock self.new }
    {
        self.grow(place);
        if place >= self.seats.len() {
            return Some(seat);
        }
        self.seats[place].replace(seat)
    }

    /// Takes the connection from the place.
    pub fn take(&mut self, place: usize) -> Option<Seat<L, N, C>>
        ensures taken { result ≡ stands_at (seats_of self.old) place }
        ensures left { seats_of self.new ≡ slice_set (seats_of self.old) place None }
        ensures room { room_of self.new ≡ room_of self.old }
        ensures seated { (hub : SharedHub) (clock : C) →
            AreSeated hub L.view N.state N.gives N.asks C.gives C.view clock self.old →
            AreSeated hub L.view N.state N.gives N.asks C.gives C.view clock self.new
            × IfSome result (IsSeated hub L.view N.state N.gives N.asks C.gives C.view clock) }
    {
        if place < self.seats.len() {
            self.seats[place].take()
        } else {
            None
        }
    }

    /// The connection at the place does what it wants, where that can be done now, by the reader of another pass, which it is
    /// lent meanwhile. None: no connection is there.
    pub fn step<R: Wait>(
        &mut self,
        rt: &R,
        alloc: Global,
        hub: &SharedHub,
        place: usize,
        reader: &mut Option<Pass>,
        buffer: &mut [u8],
        clock: &mut C,
    ) -> Option<Act>
        requires seated { AreSeated hub.now L.view N.state N.gives N.asks C.gives C.view clock.old self.old }
        requires reader { IfSome reader.old (IsOf hub.now) }
        requires room { 0 < length buffer.old }
        ensures on { AllZip (StaysAt hub.now L.view N.state N.gives N.asks C.gives C.view clock.new) (seats_of self.old) (seats_of self.new) }
        ensures seated { AreSeated hub.now L.view N.state N.gives N.asks C.gives C.view clock.new self.new }
        ensures asked { Asked C.gives C.view clock.old clock.new }
        ensures reader { IfSome reader.new (IsOf hub.now) }
        ensures told { is_some result ≡ is_some (stands_at (seats_of self.old) place) }
        ensures says { SaysAt L.view N.state C.view result (stands_at (seats_of self.old) place) (stands_at (seats_of self.new) place) }
        ensures alone { seats_of self.new ≡ slice_set (seats_of self.old) place (stands_at (seats_of self.new) place) }
        ensures room { room_of self.new ≡ room_of self.old }
    {
        if place >= self.seats.len() {
            return None;
        }
        step_here(
            rt,
            alloc,
            hub,
            &mut self.seats[place],
            reader,
            buffer,
            clock,
        )
    }

    /// The connection at the place, if one stands there, gives back the memory that it can do without while it waits.
    pub fn rest(&mut self, place: usize)
        ensures still { (hub : SharedHub) → StillAt hub L.view N.state N.gives N.asks C.gives C.view
            (stands_at (seats_of self.old) place) (stands_at (seats_of self.new) place) }
        ensures alone { seats_of self.new ≡ slice_set (seats_of self.old) place (stands_at (seats_of self.new) place) }
        ensures room { room_of self.new ≡ room_of self.old }
        ensures seated { (hub : SharedHub) (clock : C) →
            AreSeated hub L.view N.state N.gives N.asks C.gives C.view clock self.old →
            AreSeated hub L.view N.state N.gives N.asks C.gives C.view clock self.new }
    {
        if place < self.seats.len() {
            rest_here(&mut self.seats[place]);
        }
    }

    /// The clock's moment. Each connection stays where it was.
    pub fn now(&self, clock: &mut C) -> Moment
        ensures gives { C.gives clock.old to_tell result.0 clock.new }
        ensures seated { (hub : SharedHub) →
            AreSeated hub L.view N.state N.gives N.asks C.gives C.view clock.old self.now →
            AreSeated hub L.view N.state N.gives N.asks C.gives C.view clock.new self.now }
    {
        clock.now()
    }

    /// They stay where they were while others ask the clock.
    pub fn stay(&self)
        ensures { (hub : SharedHub) (clock later : C) → Asked C.gives C.view clock later →
            AreSeated hub L.view N.state N.gives N.asks C.gives C.view clock self.now →
            AreSeated hub L.view N.state N.gives N.asks C.gives C.view later self.now }
    {}
}
