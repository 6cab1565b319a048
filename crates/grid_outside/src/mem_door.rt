//! A door in memory.
ghost use Rattle.std.specs.Prelude.{◌≡◌, ℕ, ◌-◌, ◌^◌, ◌≤◌, min, List, [], ◌∷◌, ◌++◌, None, Some, Option, Result, is_none, is_err, IfOk, OnOk, OnErr, IfErr};
ghost use Rattle.grid_types.specs.declared.limits.TheConstants.{LAST_MOMENT};
ghost use Rattle.grid_outside.specs.Counts.{Rose, HasCause};

use crate::door::Door;
use crate::mem_gate::MemGate;
use crate::mem_line::MemLine;
use crate::mem_nodes::MemNodes;
use crate::memory::{Failing, MemClock};
use crate::source::Failed;
use grid_types::Moment;
use std::alloc::Global;
use std::net::IpAddr;

/// Hands out its links in order, and is closed once none is left. Its nodes have no reply to give,
/// each of its clocks begins at the moment that it was made with, and it remembers the address and the port that it was bound at.
#[derive(Drop)]
pub struct MemDoor {
    alloc: Global,
    links: Vec<MemLine>,
    at: Moment,
    failing: Failing,
    ends: u64,
    host: Option<IpAddr>,
    bound: Option<u16>,
}

impl MemDoor {
    ghost use Rattle.grid_outside.specs.MemDoors.{to_hand_out};
    ghost use Rattle.grid_outside.specs.Planned.{Begins};

    /// A door without links. `fails` has the numbers of the binds, accepts and gates, from 0, that are to fail.
    pub fn new(alloc: Global, at: Moment, fails: Vec<u64>) -> MemDoor
        ensures links { to_hand_out result ≡ [] }
        ensures at { result.at ≡ at }
        ensures plan { Begins fails.items result.failing }
        ensures ends { result.ends ≡ 0 }
        ensures unbound { (result.host ≡ None) × (result.bound ≡ None) }
    {
        MemDoor {
            alloc,
            links: Vec::new(alloc),
            at,
            failing: Failing::new(fails),
            ends: 0,
            host: None,
            bound: None,
        }
    }

    /// The address that it was set to last.
    pub fn host(&self) -> Option<IpAddr>
        ensures { result ≡ self.now.host }
    {
        self.host
    }

    /// The port that it was bound at last.
    pub fn port(&self) -> Option<u16>
        ensures { result ≡ self.now.bound }
    {
        self.bound
    }

    /// Puts a link last of those to hand out. Err: out of memory, which hands it back.
    pub fn push(&mut self, link: MemLine) -> Result<(), MemLine>
        ensures ok { OnOk result (to_hand_out self.new ≡ to_hand_out self.old ++ link ∷ []) }
        ensures err { OnErr result (to_hand_out self.new ≡ to_hand_out self.old) }
        ensures back { IfErr result (λ l. l ≡ link) }
        ensures rest { self.new ≡ record self.old { links = self.new.links } }
    {
        match self.links.push(link) {
            Ok(()) => Ok(()),
            Err(refused) => Err(refused.value),
        }
    }
}

impl Door for MemDoor {
    ghost use Rattle.grid_outside.specs.MemDoors.{door_view, to_hand_out, HandsOut};
    ghost use Rattle.grid_outside.specs.MemGates.{IsFresh};
    ghost use Rattle.grid_outside.specs.MemNodes.{to_give, exchanges_made};
    ghost use Rattle.grid_outside.specs.Memory.{clock_at, clock_pauses};
    ghost use Rattle.grid_outside.specs.Counts.{more_if};
    ghost use Rattle.grid_outside.specs.Planned.{Begins, CountsCall, is_due};

    type L = MemLine;

    type N = MemNodes;

    type C = MemClock;

    type G = MemGate;

    ghost view = { door_view };

    fn listen_at(&mut self, host: IpAddr)
        ensures view { door_view self.new ≡ record (door_view self.old) { host = Some host } }
        ensures rest { self.new ≡ record self.old { host = Some host } }
    {
        self.host = Some(host);
    }

    fn bind(&mut self, port: u16) -> Result<(), Failed>
        ensures cause { HasCause self.old.failing.faults self.new.failing.faults result }
        ensures ends { self.old.ends ≤ self.new.ends }
        ensures links { to_hand_out self.new ≡ to_hand_out self.old }
        // It fails exactly where that is planned.
        ensures fails { is_err result ≡ is_due self.old.failing }
        ensures counts { CountsCall self.old.failing self.new.failing result }
        ensures rest { self.new ≡ record self.old
            { failing = self.new.failing; bound = self.new.bound } }
        ensures bound { OnOk result (self.new.bound ≡ Some port) }
        ensures unbound { OnErr result (self.new.bound ≡ self.old.bound) }
        ensures host { self.new.host ≡ self.old.host }
    {
        if self.failing.next_fails() {
            self.failing.count_fault();
            return Err(Failed);
        }
        self.bound = Some(port);
        Ok(())
    }

    fn accept(&mut self) -> Result<Option<MemLine>, Failed>
        ensures cause { HasCause self.old.failing.faults self.new.failing.faults result }
        ensures closed { IfOk result (λ link. link ≡ None → Rose self.old.ends self.new.ends) }
        ensures ends { self.old.ends ≤ self.new.ends }
        ensures next { IfOk result (HandsOut (to_hand_out self.old) (to_hand_out self.new)) }
        ensures failed { OnErr result (to_hand_out self.new ≡ to_hand_out self.old) }
        ensures fails { is_err result ≡ is_due self.old.failing }
        ensures counts { CountsCall self.old.failing self.new.failing result }
        ensures none { IfOk result (λ link. self.new.ends ≡ more_if (is_none link) self.old.ends) }
        ensures open_still { OnErr result (self.new.ends ≡ self.old.ends) }
        ensures at { self.new.at ≡ self.old.at }
        ensures bound { self.new.bound ≡ self.old.bound }
        ensures host { self.new.host ≡ self.old.host }
    {
        if self.failing.next_fails() {
            self.failing.count_fault();
            return Err(Failed);
        }
        if self.links.is_empty() {
            self.ends = self.ends.saturating_add(1);
            return Ok(None);
        }
        Ok(Some(self.links.remove(0)))
    }

    fn gate(&mut self) -> Result<MemGate, Failed>
        ensures cause { HasCause self.old.failing.faults self.new.failing.faults result }
        ensures ends { self.old.ends ≤ self.new.ends }
        ensures bound { self.new.bound ≡ self.old.bound }
        ensures host { self.new.host ≡ self.old.host }
        ensures fails { is_err result ≡ is_due self.old.failing }
        ensures counts { CountsCall self.old.failing self.new.failing result }
        ensures rest { self.new ≡ record self.old { failing = self.new.failing } }
        ensures fresh { IfOk result (IsFresh []) }
    {
        if self.failing.next_fails() {
            self.failing.count_fault();
            return Err(Failed);
        }
        Ok(MemGate::new(self.alloc, Vec::new(self.alloc)))
    }

    fn nodes(&mut self) -> MemNodes
        ensures faults { self.old.failing.faults ≤ self.new.failing.faults }
        ensures ends { self.old.ends ≤ self.new.ends }
        ensures bound { self.new.bound ≡ self.old.bound }
        ensures host { self.new.host ≡ self.old.host }
        ensures links { to_hand_out self.new ≡ to_hand_out self.old }
        ensures give { to_give result ≡ [] }
        ensures made { exchanges_made result ≡ [] }
        ensures plan { Begins [] result.failing }
        ensures rest { self.new ≡ self.old }
    {
        MemNodes::new(self.alloc, Vec::new(self.alloc))
    }

    fn clock(&mut self) -> MemClock
        ensures faults { self.old.failing.faults ≤ self.new.failing.faults }
        ensures ends { self.old.ends ≤ self.new.ends }
        ensures bound { self.new.bound ≡ self.old.bound }
        ensures host { self.new.host ≡ self.old.host }
        ensures links { to_hand_out self.new ≡ to_hand_out self.old }
        ensures at { clock_at result ≡ min LAST_MOMENT self.old.at.0 }
        ensures pauses { clock_pauses result ≡ record { count = 0; sum = 0 } }
        ensures rest { self.new ≡ self.old }
    {
        MemClock::new(self.at)
    }
}
