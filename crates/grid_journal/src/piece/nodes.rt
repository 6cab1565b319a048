//! Entries of nodes.
ghost use Rattle.grid_types.specs.declared.entry.Change.TheVariants as change;
ghost use Rattle.grid_journal.specs.Pieces.{Told, of};

use crate::fits::registration_fits;
use crate::piece::{Piece, PieceFault};
use grid_types::{Moment, NodeNo, Registration};

impl Piece {
    /// A node registered.
    pub fn registered(
        &mut self,
        caller: u64,
        node: NodeNo,
        registration: &Registration,
        at: Moment,
    ) -> Result<(), PieceFault>
        ensures { Told self.old self.new (of caller (change.Registered node registration.now at)) result }
    {
        if registration_fits(registration).is_err() {
            return self.refuse(PieceFault::Memory);
        }
        self.add(&(caller, (1u8, (node, (registration, at)))), at)
    }

    /// A node gave a sign of life.
    pub fn beaten(&mut self, caller: u64, node: NodeNo, at: Moment) -> Result<(), PieceFault>
        ensures { Told self.old self.new (of caller (change.Beaten node at)) result }
    {
        self.add(&(caller, (2u8, (node, at))), at)
    }

    /// A node takes no new session.
    pub fn draining(&mut self, caller: u64, node: NodeNo, at: Moment) -> Result<(), PieceFault>
        ensures { Told self.old self.new (of caller (change.Draining node at)) result }
    {
        self.add(&(caller, (3u8, (node, at))), at)
    }

    /// A node was taken off.
    pub fn removed(&mut self, caller: u64, node: NodeNo, at: Moment) -> Result<(), PieceFault>
        ensures { Told self.old self.new (of caller (change.Removed node at)) result }
    {
        self.add(&(caller, (4u8, (node, at))), at)
    }

    /// A node was silent for so long that it is down.
    pub fn lapsed(&mut self, caller: u64, node: NodeNo, at: Moment) -> Result<(), PieceFault>
        ensures { Told self.old self.new (of caller (change.Lapsed node at)) result }
    {
        self.add(&(caller, (5u8, (node, at))), at)
    }

    /// A node is silent.
    pub fn suspected(&mut self, caller: u64, node: NodeNo, at: Moment) -> Result<(), PieceFault>
        ensures { Told self.old self.new (of caller (change.Suspected node at)) result }
    {
        self.add(&(caller, (16u8, (node, at))), at)
    }
}
