//! Starts of reservations.
ghost use Rattle.std.specs.Prelude.{◌≡◌, ◌<◌, ◌++◌, [], true, false, ◌&&◌, OnOk, option_to_list, vec_len, vec_capacity};
ghost use Rattle.std.specs.List.{slice_get, remove};
ghost use Rattle.grid_simulate.specs.World.{world_of};
ghost use Rattle.grid_simulate.specs.Starts.{StartsAll};
ghost use Rattle.grid_simulate.specs.Actions.{StartsAt, StartsOf};
ghost use Rattle.grid_simulate.specs.Held.{IsSound};

use crate::carrying::carry_out;
use crate::draws::{count_of, draw_place};
use crate::lists::{both, put_last, take_out};
use crate::simulation::{Kept, Simulation};
use grid_types::{Moment, NoMemory};
use std::alloc::Global;

/// Puts a session that was bound last, for which memory was taken.
fn keep(sessions: &mut Vec<Kept>, bound: Option<Kept>)
    requires { vec_len sessions.old < vec_capacity sessions.old }
    ensures { sessions.new.items ≡ sessions.old.items ++ option_to_list bound }
{
    if let Some(kept) = bound {
        put_last(sessions, kept);
    }
}

impl Simulation {
    /// Takes the reservation at a place out and makes its start: the session that was bound, and whether the start met
    /// want of memory.
    fn carry(&mut self, alloc: Global, place: usize) -> (Option<Kept>, bool)
        requires sound { IsSound self.old }
        requires within { place < vec_len self.old.reservations }
        ensures sound { IsSound self.new }
        ensures moment { self.new.moment ≡ self.old.moment }
        ensures number { self.new.number ≡ self.old.number }
        ensures tickets { self.new.tickets ≡ self.old.tickets }
        ensures rest { self.new.reservations.items ≡ remove self.old.reservations.items place }
        ensures sessions { self.new.sessions ≡ self.old.sessions }
        ensures starts { result.1 ≡ false → StartsAt (world_of self.old) place (slice_get self.old.reservations.items place)
            (record (world_of self.new) { sessions = self.old.sessions.items ++ option_to_list result.0 }) }
    {
        let reservation = take_out(&mut self.reservations, place);
        let at = Moment(self.moment);
        carry_out(alloc, reservation, &mut self.hub, &mut self.nodes, at)
    }

    /// Takes the reservation at a place out and makes its start, in any case. Err is out of memory.
    fn start_at(&mut self, alloc: Global, place: usize) -> Result<(), NoMemory>
        requires sound { IsSound self.old }
        requires within { place < vec_len self.old.reservations }
        ensures sound { IsSound self.new }
        ensures moment { self.new.moment ≡ self.old.moment }
        ensures rest { self.new.reservations.items ≡ remove self.old.reservations.items place }
        ensures acts { OnOk result (StartsAt (world_of self.old) place
            (slice_get self.old.reservations.items place) (world_of self.new)) }
    {
        let has_room = self.sessions.reserve(1).is_ok();
        let (bound, short) = self.carry(alloc, place);
        if short {
            return Err(NoMemory);
        }
        if !has_room {
            return Err(NoMemory);
        }
        keep(&mut self.sessions, bound);
        Ok(())
    }

    pub(super) fn start_one(&mut self, alloc: Global) -> Result<(), NoMemory>
        requires { IsSound self.old }
        ensures sound { IsSound self.new }
        ensures moment { self.new.moment ≡ self.old.moment }
        ensures acts { OnOk result (StartsOf (world_of self.old) self.old.reservations.items
            (world_of self.new)) }
    {
        let count = count_of(&self.reservations);
        if count == 0 {
            return Ok(());
        }
        let place = draw_place(&mut self.number, count);
        self.start_at(alloc, place)
    }

    /// Makes the start of each reservation, also after one that found no memory. Err is out of memory.
    pub(crate) fn start_all(&mut self, alloc: Global) -> Result<(), NoMemory>
        requires { IsSound self.old }
        ensures sound { IsSound self.new }
        ensures moment { self.new.moment ≡ self.old.moment }
        ensures none { self.new.reservations.items ≡ [] }
        ensures starts { OnOk result (StartsAll self.old.reservations.items (world_of self.old)
            (world_of self.new)) }
    {
        let mut full = true;
        'starts: while !self.reservations.is_empty() {
            let made = self.start_at(alloc, 0).is_ok();
            full = both(made, full);
        }
        if full { Ok(()) } else { Err(NoMemory) }
    }
}
