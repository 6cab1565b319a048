//! Calls that spend a reservation.
ghost use Rattle.std.specs.Prelude.{◌≡◌, ◌≤◌, IfOk, IsErrOf};
ghost use Rattle.grid_outside.specs.Counts.{Rose};
ghost use Rattle.grid_keeper.specs.declared.kept_hub.KeptFault.TheVariants as fault;
ghost use Rattle.grid_types.specs.Calls.{Call, Reply};
ghost use Rattle.hub_core.specs.HubView.{past};
ghost use Rattle.hub_core.specs.Serves.{MayCall};
ghost use Rattle.hub_core.specs.Replies.{binding_reply, failing_reply, KeepsReservation};
ghost use Rattle.grid_keeper.specs.Keeping.{IsOpen, KeptCall, KeptOrNot};

use crate::kept_hub::{KeptFault, KeptHub};
use crate::large_rows::bind_row;
use crate::small_rows::fail_row;
use grid_types::{Caps, FailWhy, Moment, SessionId};
use hub_core::{Binding, Failing, Reservation};
use row_keeper::Keeper;

impl<K: Keeper> KeptHub<K> {
    /// Keeps a session that was started in the reservation's slot. Without memory for its row it is not called, and the
    /// answer is Memory, also where the session would not be kept. A fault closes the hub.
    pub fn bind(
        &mut self,
        reservation: Reservation,
        session: SessionId,
        caps: Caps,
        at: Moment,
    ) -> Result<Binding, KeptFault>
        requires open { IsOpen K.disk self.old }
        requires may { MayCall (past self.old.hub) 0 (Call.bind reservation session caps) }
        ensures kept { KeptOrNot K.disk self.old (Call.bind reservation session caps) at.0 binding_reply result self.new }
        ensures back { IfOk result (λ answer. KeepsReservation reservation session answer) }
        ensures later { K.faults self.old.keeper ≤ K.faults self.new.keeper }
        ensures cause { IsErrOf result fault.Keeper →
            Rose (K.faults self.old.keeper) (K.faults self.new.keeper) }
    {
        let Ok(row) = bind_row(self.alloc, reservation.request(), session, &caps, at) else {
            return Ok(Binding::Memory(reservation, session));
        };
        let before = self.hub.journal().len();
        let answer = self.hub.bind(reservation, session, caps, at);
        self.finish(before, row.as_bytes())?;
        Ok(answer)
    }

    /// Notes that the start in the reservation's slot failed. A fault closes the hub.
    pub fn fail(
        &mut self,
        reservation: Reservation,
        why: FailWhy,
        at: Moment,
    ) -> Result<Failing, KeptFault>
        requires open { IsOpen K.disk self.old }
        requires may { MayCall (past self.old.hub) 0 (Call.fail reservation why) }
        ensures kept { KeptCall K.disk self.old (Call.fail reservation why) at.0 failing_reply result self.new }
        ensures later { K.faults self.old.keeper ≤ K.faults self.new.keeper }
        ensures cause { IsErrOf result fault.Keeper →
            Rose (K.faults self.old.keeper) (K.faults self.new.keeper) }
    {
        let Ok(row) = fail_row(self.alloc, reservation.request(), &why, at) else {
            return Err(self.close());
        };
        let before = self.hub.journal().len();
        let answer = self.hub.fail(reservation, why, at);
        self.finish(before, row.as_bytes())?;
        Ok(answer)
    }
}
