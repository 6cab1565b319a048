//! Calls of nodes.
ghost use Rattle.std.specs.Prelude.{◌≡◌, ◌≤◌, IfOk, IsTrue, IsErrOf, None, Some};
ghost use Rattle.grid_outside.specs.Counts.{Rose};
ghost use Rattle.grid_keeper.specs.declared.kept_hub.KeptFault.TheVariants as fault;
ghost use Rattle.grid_types.specs.Calls.{Call, Reply};
ghost use Rattle.hub_core.specs.HubView.{past};
ghost use Rattle.hub_core.specs.Serves.{MayCall};
ghost use Rattle.hub_core.specs.Replies.{registering_reply, beating_reply, draining_reply, removal_reply, KeepsRegistration};
ghost use Rattle.grid_keeper.specs.Keeping.{IsOpen, KeptCall};

use crate::kept_hub::{KeptFault, KeptHub};
use crate::large_rows::register_row;
use crate::small_rows::{beat_row, drain_row, remove_row};
use grid_types::{Moment, NodeNo, Registration, Text};
use hub_core::{Beating, Draining, Registering, Removal};
use row_keeper::Keeper;

impl<K: Keeper> KeptHub<K> {
    /// Lists a node. Without memory for its row it is not called, and the answer is Memory. A fault closes the hub.
    pub fn register(&mut self, node: Registration, at: Moment) -> Result<Registering, KeptFault>
        requires open { IsOpen K.disk self.old }
        requires room { IsTrue self.old.hub.room }
        requires may { MayCall (past self.old.hub) 0 (Call.register node) }
        ensures kept { KeptCall K.disk self.old (Call.register node) at.0 registering_reply result self.new }
        ensures back { IfOk result (λ answer. KeepsRegistration node answer) }
        ensures later { K.faults self.old.keeper ≤ K.faults self.new.keeper }
        ensures cause { IsErrOf result fault.Keeper →
            Rose (K.faults self.old.keeper) (K.faults self.new.keeper) }
    {
        let before = self.hub.journal().len();
        let Ok(row) = register_row(self.alloc, &node, at) else {
            return Ok(Registering::Memory(node));
        };
        let answer = self.hub.register(node, at);
        self.finish(before, row.as_bytes())?;
        Ok(answer)
    }

    /// Notes that a registered node is there. A fault closes the hub.
    pub fn beat(&mut self, node: NodeNo, at: Moment) -> Result<Beating, KeptFault>
        requires open { IsOpen K.disk self.old }
        requires room { IsTrue self.old.hub.room }
        ensures kept { KeptCall K.disk self.old (Call.beat node None) at.0 beating_reply result self.new }
        ensures later { K.faults self.old.keeper ≤ K.faults self.new.keeper }
        ensures cause { IsErrOf result fault.Keeper →
            Rose (K.faults self.old.keeper) (K.faults self.new.keeper) }
    {
        let Ok(row) = beat_row(self.alloc, node, at) else {
            return Err(self.close());
        };
        let before = self.hub.journal().len();
        let answer = self.hub.beat(node, at);
        self.finish(before, row.as_bytes())?;
        Ok(answer)
    }

    /// Notes that a node is there that told its name. Its row is that of a beat of the node. A fault closes the hub.
    pub fn beat_as(&mut self, node: NodeNo, name: &Text, at: Moment) -> Result<Beating, KeptFault>
        requires open { IsOpen K.disk self.old }
        requires room { IsTrue self.old.hub.room }
        ensures kept { KeptCall K.disk self.old (Call.beat node (Some name.now)) at.0 beating_reply result self.new }
        ensures later { K.faults self.old.keeper ≤ K.faults self.new.keeper }
        ensures cause { IsErrOf result fault.Keeper →
            Rose (K.faults self.old.keeper) (K.faults self.new.keeper) }
    {
        let Ok(row) = beat_row(self.alloc, node, at) else {
            return Err(self.close());
        };
        let before = self.hub.journal().len();
        let answer = self.hub.beat_as(node, name, at);
        self.finish(before, row.as_bytes())?;
        Ok(answer)
    }

    /// Lets a registered node take no new session. A fault closes the hub.
    pub fn drain(&mut self, node: NodeNo, at: Moment) -> Result<Draining, KeptFault>
        requires open { IsOpen K.disk self.old }
        requires room { IsTrue self.old.hub.room }
        ensures kept { KeptCall K.disk self.old (Call.drain node) at.0 draining_reply result self.new }
        ensures later { K.faults self.old.keeper ≤ K.faults self.new.keeper }
        ensures cause { IsErrOf result fault.Keeper →
            Rose (K.faults self.old.keeper) (K.faults self.new.keeper) }
    {
        let Ok(row) = drain_row(self.alloc, node, at) else {
            return Err(self.close());
        };
        let before = self.hub.journal().len();
        let answer = self.hub.drain(node, at);
        self.finish(before, row.as_bytes())?;
        Ok(answer)
    }

    /// Takes a registered node off. A fault closes the hub.
    pub fn remove(&mut self, node: NodeNo, at: Moment) -> Result<Removal, KeptFault>
        requires open { IsOpen K.disk self.old }
        requires room { IsTrue self.old.hub.room }
        ensures kept { KeptCall K.disk self.old (Call.remove node) at.0 removal_reply result self.new }
        ensures later { K.faults self.old.keeper ≤ K.faults self.new.keeper }
        ensures cause { IsErrOf result fault.Keeper →
            Rose (K.faults self.old.keeper) (K.faults self.new.keeper) }
    {
        let Ok(row) = remove_row(self.alloc, node, at) else {
            return Err(self.close());
        };
        let before = self.hub.journal().len();
        let answer = self.hub.remove(node, at);
        self.finish(before, row.as_bytes())?;
        Ok(answer)
    }
}
