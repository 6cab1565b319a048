//! Calls of sessions that run.
ghost use Rattle.std.specs.Prelude.{◌≡◌, ◌≤◌, IsTrue, IsErrOf};
ghost use Rattle.grid_outside.specs.Counts.{Rose};
ghost use Rattle.grid_keeper.specs.declared.kept_hub.KeptFault.TheVariants as fault;
ghost use Rattle.grid_types.specs.Calls.{Call, Reply};
ghost use Rattle.hub_core.specs.HubView.{past};
ghost use Rattle.hub_core.specs.Serves.{MayCall};
ghost use Rattle.hub_core.specs.Replies.{touching_reply, ending_reply, expiring_reply};
ghost use Rattle.grid_keeper.specs.Keeping.{IsOpen, KeptCall, freed_reply};

use crate::kept_hub::{KeptFault, KeptHub};
use crate::small_rows::{end_row, expire_row, freed_row, touch_row};
use grid_types::{Moment, ReqNo, SessionId};
use hub_core::{Closing, Ending, Expiring, Touching};
use row_keeper::Keeper;

impl<K: Keeper> KeptHub<K> {
    /// Notes that a session was used. A fault closes the hub.
    pub fn touch(
        &mut self,
        session: &SessionId,
        binding: ReqNo,
        at: Moment,
    ) -> Result<Touching, KeptFault>
        requires open { IsOpen K.disk self.old }
        requires room { IsTrue self.old.hub.room }
        ensures kept { KeptCall K.disk self.old (Call.touch session.now binding) at.0 touching_reply result self.new }
        ensures later { K.faults self.old.keeper ≤ K.faults self.new.keeper }
        ensures cause { IsErrOf result fault.Keeper →
            Rose (K.faults self.old.keeper) (K.faults self.new.keeper) }
    {
        let Ok(row) = touch_row(self.alloc, session, binding, at) else {
            return Err(self.close());
        };
        let before = self.hub.journal().len();
        let answer = self.hub.touch(session, binding, at);
        self.finish(before, row.as_bytes())?;
        Ok(answer)
    }

    /// Ends a session. A fault closes the hub.
    pub fn end(
        &mut self,
        session: &SessionId,
        binding: ReqNo,
        at: Moment,
    ) -> Result<Ending, KeptFault>
        requires open { IsOpen K.disk self.old }
        requires room { IsTrue self.old.hub.room }
        ensures kept { KeptCall K.disk self.old (Call.end session.now binding) at.0 ending_reply result self.new }
        ensures later { K.faults self.old.keeper ≤ K.faults self.new.keeper }
        ensures cause { IsErrOf result fault.Keeper →
            Rose (K.faults self.old.keeper) (K.faults self.new.keeper) }
    {
        let Ok(row) = end_row(self.alloc, session, binding, at) else {
            return Err(self.close());
        };
        let before = self.hub.journal().len();
        let answer = self.hub.end(session, binding, at);
        self.finish(before, row.as_bytes())?;
        Ok(answer)
    }

    /// Frees a closing slot. A fault closes the hub.
    pub fn freed(&mut self, closing: Closing) -> Result<(), KeptFault>
        requires open { IsOpen K.disk self.old }
        requires may { MayCall (past self.old.hub) 0 (Call.freed closing) }
        ensures kept { KeptCall K.disk self.old (Call.freed closing) 0 freed_reply result self.new }
        ensures later { K.faults self.old.keeper ≤ K.faults self.new.keeper }
        ensures cause { IsErrOf result fault.Keeper →
            Rose (K.faults self.old.keeper) (K.faults self.new.keeper) }
    {
        let Ok(row) = freed_row(self.alloc, closing.slot()) else {
            return Err(self.close());
        };
        let before = self.hub.journal().len();
        self.hub.freed(closing);
        self.finish(before, row.as_bytes())
    }

    /// Ends the idle session with the least binding. A fault closes the hub.
    pub fn expire(&mut self, at: Moment) -> Result<Expiring, KeptFault>
        requires open { IsOpen K.disk self.old }
        requires room { IsTrue self.old.hub.room }
        ensures kept { KeptCall K.disk self.old Call.expire at.0 expiring_reply result self.new }
        ensures later { K.faults self.old.keeper ≤ K.faults self.new.keeper }
        ensures cause { IsErrOf result fault.Keeper →
            Rose (K.faults self.old.keeper) (K.faults self.new.keeper) }
    {
        let Ok(row) = expire_row(self.alloc, at) else {
            return Err(self.close());
        };
        let before = self.hub.journal().len();
        let answer = self.hub.expire(at);
        self.finish(before, row.as_bytes())?;
        Ok(answer)
    }
}
