//! Calls of requests and reservations.
ghost use Rattle.std.specs.Prelude.{◌≡◌, ◌≤◌, IfOk, IsTrue, IsErrOf};
ghost use Rattle.grid_outside.specs.Counts.{Rose};
ghost use Rattle.grid_keeper.specs.declared.kept_hub.KeptFault.TheVariants as fault;
ghost use Rattle.grid_types.specs.Calls.{Call, Reply};
ghost use Rattle.hub_core.specs.HubView.{past};
ghost use Rattle.hub_core.specs.Serves.{MayCall};
ghost use Rattle.hub_core.specs.Replies.{enqueued_reply, polled_reply, dispatched_reply, swept_reply, KeepsTicket};
ghost use Rattle.grid_keeper.specs.Keeping.{IsOpen, KeptCall, cleared_reply};

use crate::kept_hub::{KeptFault, KeptHub};
use crate::large_rows::enqueue_row;
use crate::small_rows::{clear_row, dispatch_row, poll_row, sweep_row};
use grid_types::{Choices, Moment};
use hub_core::{Dispatched, Enqueued, Polled, Swept, Ticket};
use row_keeper::Keeper;

impl<K: Keeper> KeptHub<K> {
    /// Queues a request. Without memory for its row it is not called, and the answer is Memory. A fault closes the hub.
    pub fn enqueue(&mut self, choices: Choices, at: Moment) -> Result<Enqueued, KeptFault>
        requires open { IsOpen K.disk self.old }
        requires room { IsTrue self.old.hub.room }
        ensures kept { KeptCall K.disk self.old (Call.enqueue choices) at.0 enqueued_reply result self.new }
        ensures later { K.faults self.old.keeper ≤ K.faults self.new.keeper }
        ensures cause { IsErrOf result fault.Keeper →
            Rose (K.faults self.old.keeper) (K.faults self.new.keeper) }
    {
        let before = self.hub.journal().len();
        let Ok(row) = enqueue_row(self.alloc, &choices, at) else {
            return Ok(Enqueued::Memory);
        };
        let answer = self.hub.enqueue(choices, at);
        self.finish(before, row.as_bytes())?;
        Ok(answer)
    }

    /// How the ticket's request stands. A fault closes the hub.
    pub fn poll(&mut self, ticket: Ticket, at: Moment) -> Result<Polled, KeptFault>
        requires open { IsOpen K.disk self.old }
        requires may { MayCall (past self.old.hub) 0 (Call.poll ticket) }
        ensures kept { KeptCall K.disk self.old (Call.poll ticket) at.0 polled_reply result self.new }
        ensures back { IfOk result (λ answer. KeepsTicket ticket answer) }
        ensures later { K.faults self.old.keeper ≤ K.faults self.new.keeper }
        ensures cause { IsErrOf result fault.Keeper →
            Rose (K.faults self.old.keeper) (K.faults self.new.keeper) }
    {
        let Ok(row) = poll_row(self.alloc, ticket.request(), at) else {
            return Err(self.close());
        };
        let before = self.hub.journal().len();
        let answer = self.hub.poll(ticket, at);
        self.finish(before, row.as_bytes())?;
        Ok(answer)
    }

    /// Reserves a slot for the request that is chosen. A fault closes the hub.
    pub fn dispatch(&mut self, at: Moment) -> Result<Dispatched, KeptFault>
        requires open { IsOpen K.disk self.old }
        ensures kept { KeptCall K.disk self.old Call.dispatch at.0 dispatched_reply result self.new }
        ensures later { K.faults self.old.keeper ≤ K.faults self.new.keeper }
        ensures cause { IsErrOf result fault.Keeper →
            Rose (K.faults self.old.keeper) (K.faults self.new.keeper) }
    {
        let Ok(row) = dispatch_row(self.alloc, at) else {
            return Err(self.close());
        };
        let before = self.hub.journal().len();
        let answer = self.hub.dispatch(at);
        self.finish(before, row.as_bytes())?;
        Ok(answer)
    }

    /// Lapses, suspects, times out and takes off. A fault closes the hub.
    pub fn sweep(&mut self, at: Moment) -> Result<Swept, KeptFault>
        requires open { IsOpen K.disk self.old }
        requires room { IsTrue self.old.hub.room }
        ensures kept { KeptCall K.disk self.old Call.sweep at.0 swept_reply result self.new }
        ensures later { K.faults self.old.keeper ≤ K.faults self.new.keeper }
        ensures cause { IsErrOf result fault.Keeper →
            Rose (K.faults self.old.keeper) (K.faults self.new.keeper) }
    {
        let Ok(row) = sweep_row(self.alloc, at) else {
            return Err(self.close());
        };
        let before = self.hub.journal().len();
        let answer = self.hub.sweep(at);
        self.finish(before, row.as_bytes())?;
        Ok(answer)
    }

    /// Clears each waiting request from the queue. A fault closes the hub.
    pub fn clear(&mut self, at: Moment) -> Result<u32, KeptFault>
        requires open { IsOpen K.disk self.old }
        requires room { IsTrue self.old.hub.room }
        ensures kept { KeptCall K.disk self.old Call.clear at.0 cleared_reply result self.new }
        ensures later { K.faults self.old.keeper ≤ K.faults self.new.keeper }
        ensures cause { IsErrOf result fault.Keeper →
            Rose (K.faults self.old.keeper) (K.faults self.new.keeper) }
    {
        let Ok(row) = clear_row(self.alloc, at) else {
            return Err(self.close());
        };
        let before = self.hub.journal().len();
        let answer = self.hub.clear(at);
        self.finish(before, row.as_bytes())?;
        Ok(answer)
    }
}
