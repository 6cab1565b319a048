//! Rows that stay at their places while their order changes.
ghost use Rattle.std.specs.Prelude.{◌≡◌, ◌<◌, ◌≤◌, true, ℕ, List, [], length, slice_get, None, Some, IfOk, IfSome, IfNone};
ghost use Rattle.std.specs.List.{insert, remove};
ghost use Rattle.std.specs.Vec.{vec_capacity};
ghost use Rattle.map_view.specs.Rows.{is_before, before, in_order};
ghost use Rattle.map_view.specs.Racks.{IsRack, Places, times, told_before};

use crate::sheet::{ROOM, Row};
use grid_types::{NoMemory, SessionId};
use std::alloc::Global;
use std::marker::Model;

/// Rows, seen as their list. A row stays at its place in memory until it is taken out, and what moves is the list of
/// places. It never needs memory after it is made.
#[derive(Drop)]
pub struct Rack {
    rows: Vec<Row>,
    // The places of the list's rows, in its order.
    order: Vec<u32>,
    // The places whose rows were taken out.
    free: Vec<u32>,
}

impl Model for Rack {
    ghost use Rattle.std.specs.Prelude.{◌≡◌, List};
    ghost use Rattle.std.specs.Vec.{vec_capacity};
    ghost use Rattle.map_view.specs.declared.sheet.Row.{Row};
    ghost use Rattle.map_view.specs.declared.sheet.TheConstants.{ROOM};
    ghost use Rattle.map_view.specs.Racks.{IsRack, laid};

    ghost Value = { List Row };

    ghost view = { λ r. laid r.rows.items r.order.items };

    ghost invariant = { λ r. IsRack r.rows.items r.order.items r.free.items × (vec_capacity r.rows ≡ ROOM) × (vec_capacity r.order ≡ ROOM) × (vec_capacity r.free ≡ ROOM) };
}

fn comes_before<'x>(one: &'x [u8], other: &'x [u8]) -> bool
    ensures { result ≡ is_before one.now other.now }
{
    Ord::cmp(&one, &other).is_lt()
}

/// Puts the row at a place that was free, or at a new one.
fn place_for(rows: &mut Vec<Row>, free: &mut Vec<u32>, row: Row) -> u32
    requires room { vec_capacity rows.old ≡ ROOM }
    requires few { length free.old.items ≡ 0 → length rows.old.items < ROOM }
    requires inside { (p : ℕ) → 0 < times p free.old.items → p < length rows.old.items }
    ensures places { (order : List ℕ) → IsRack rows.old.items order free.old.items →
        Places rows.old.items rows.new.items order result row free.new.items }
    ensures room { (vec_capacity rows.new ≡ ROOM)
        × (vec_capacity free.new ≡ vec_capacity free.old) }
{
    match free.pop() {
        Some(place) => {
            rows[place as usize] = row;
            place
        }
        None => {
            let place = rows.len() as u32;
            rows.push_reserved(row);
            place
        }
    }
}

impl Rack {
    pub(crate) fn new(alloc: Global) -> Result<Rack, NoMemory>
        ensures { IfOk result (λ r. r ≡ []) }
    {
        Ok(Rack {
            rows: Vec::with_capacity(alloc, ROOM)?,
            order: Vec::with_capacity(alloc, ROOM)?,
            free: Vec::with_capacity(alloc, ROOM)?,
        })
    }

    pub(crate) fn len(&self) -> usize
        ensures { result ≡ length self.now }
    {
        self.order.len()
    }

    pub(crate) fn get(&self, index: usize) -> Option<&Row>
        ensures found { IfSome result (λ row. slice_get self.now index ≡ Some row.now) }
        ensures none { IfNone result (slice_get self.now index ≡ None) }
    {
        match self.order.get(index) {
            Some(place) => self.rows.get(*place as usize),
            None => None,
        }
    }

    /// How many rows come before the session's.
    pub(crate) fn count_before(&self, session: &SessionId) -> usize
        requires { in_order self.now ≡ true }
        ensures { result ≡ length (before session.now self.now) }
    {
        let rows = self.rows.as_slice();
        self.order.as_slice().partition_point(
            |place: &u32| -> bool
                ensures { result ≡ told_before session.entry.now
                    (slice_get rows.entry.now place.now) }
            {
                match rows.get(*place as usize) {
                    Some(row) => comes_before(row.session.as_bytes(), session.as_bytes()),
                    None => false,
                }
            },
        )
    }

    pub(crate) fn insert(&mut self, index: usize, row: Row)
        requires { (index ≤ length self.old) × (length self.old < ROOM) }
        ensures { self.new ≡ insert self.old index row }
    {
        let place = place_for(&mut self.rows, &mut self.free, row);
        self.order.insert(index, place).unwrap()
    }

    pub(crate) fn remove(&mut self, index: usize)
        requires { index < length self.old }
        ensures { self.new ≡ remove self.old index }
    {
        let place = self.order.remove(index);
        self.free.push_reserved(place);
    }
}
