//! A gate in memory.
ghost use Rattle.std.specs.Prelude.{◌≡◌, ℕ, ◌+◌, ◌-◌, ◌≤◌, min, List, ◌++◌, None, is_err, IfOk, OnOk, OnErr, vec_len, vec_capacity};

use crate::gate::Gate;
use crate::mem_gate_nodes::MemGateNodes;
use crate::mem_line::MemLine;
use crate::memory::{Failing, MemClock};
use crate::source::Failed;
use std::alloc::Global;

/// Names all places up to the greatest that it was asked for, in turn: a wait goes on behind the place that the wait before
/// named last. Its waits take no time, and its nodes have no reply to give.
#[derive(Drop)]
pub struct MemGate {
    alloc: Global,
    places: usize,
    next: usize,
    failing: Failing,
}

impl MemGate {
    ghost use Rattle.grid_outside.specs.MemGates.{in_turn, place_after, place_behind, with_place};
    ghost use Rattle.grid_outside.specs.Planned.{Begins};

    /// `fails` has the numbers of the links, from 0, that it finds no room for.
    pub fn new(alloc: Global, fails: Vec<u64>) -> MemGate
        ensures places { result.places ≡ 0 }
        ensures next { result.next ≡ 0 }
        ensures plan { Begins fails.items result.failing }
    {
        MemGate {
            alloc,
            places: 0,
            next: 0,
            failing: Failing::new(fails),
        }
    }

    /// The place behind the one that is named next.
    fn behind(&self) -> usize
        ensures { result ≡ place_behind self.now.places self.now.next }
    {
        let behind = self.next.saturating_add(1);
        if behind < self.places { behind } else { 0 }
    }

    /// Names so many places.
    fn name_some(&mut self, count: usize, ready: &mut Vec<usize>)
        requires { vec_len ready.old + count ≤ vec_capacity ready.old }
        ensures named { ready.new.items
            ≡ ready.old.items ++ in_turn self.old.places self.old.next count }
        ensures room { vec_capacity ready.new ≡ vec_capacity ready.old }
        ensures next { self.new ≡ record self.old {
          next = place_after self.old.places self.old.next count;
        } }
    {
        for _ in 0..count {
            ready.push_reserved(self.next);
            self.next = self.behind();
        }
    }

    fn take_place(&mut self, place: usize)
        ensures next { self.new.next ≡ self.old.next }
        ensures places { self.new.places ≡ with_place self.old.places place }
        ensures failing { self.new.failing ≡ self.old.failing }
    {
        self.places = self.places.max(place.saturating_add(1));
    }
}

impl Gate for MemGate {
    ghost use Rattle.grid_outside.specs.MemGates.{in_turn, with_place};
    ghost use Rattle.grid_outside.specs.MemLines.{line_view};
    ghost use Rattle.grid_outside.specs.Planned.{CountsCall, is_due};

    type L = MemLine;

    type N = MemGateNodes;

    type C = MemClock;

    fn wait(&mut self, ms: u64, ready: &mut Vec<usize>)
        ensures behind { (places : List ℕ) × (ready.new.items ≡ ready.old.items ++ places) }
        ensures room { vec_capacity ready.new ≡ vec_capacity ready.old }
        ensures names { ready.new.items ≡ ready.old.items ++ in_turn self.old.places self.old.next
            (min self.old.places (vec_capacity ready.old - vec_len ready.old)) }
    {
        let _ = ms;
        let room = ready.capacity().saturating_sub(ready.len());
        self.name_some(self.places.min(room), ready);
    }

    fn admit(&mut self, place: usize, link: MemLine) -> Result<(MemLine, MemGateNodes), Failed>
        ensures view { IfOk result (λ both. line_view both.0 ≡ line_view link) }
        ensures idle { IfOk result (λ both. both.1.line.came ≡ None) }
        ensures link { IfOk result (λ both. both.0 ≡ link) }
        // It fails exactly where that is planned.
        ensures fails { is_err result ≡ is_due self.old.failing }
        ensures counts { CountsCall self.old.failing self.new.failing result }
        ensures next { self.new.next ≡ self.old.next }
        ensures places { OnOk result (self.new.places ≡ with_place self.old.places place) }
        ensures none { OnErr result (self.new.places ≡ self.old.places) }
    {
        if self.failing.next_fails() {
            self.failing.count_fault();
            return Err(Failed);
        }
        self.take_place(place);
        Ok((link, MemGateNodes::new(self.alloc)))
    }

    fn nodes(&mut self, place: usize) -> MemGateNodes
        ensures idle { result.line.came ≡ None }
        ensures places { self.new.places ≡ with_place self.old.places place }
        ensures next { self.new.next ≡ self.old.next }
    {
        self.take_place(place);
        MemGateNodes::new(self.alloc)
    }
}
