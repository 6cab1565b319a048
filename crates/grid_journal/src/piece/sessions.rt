//! Entries of sessions.
ghost use Rattle.grid_types.specs.declared.entry.Change.TheVariants as change;
ghost use Rattle.grid_journal.specs.Pieces.{Told, of};

use crate::fits::{caps_fit, session_fits};
use crate::piece::{Piece, PieceFault};
use grid_types::{Caps, EndCause, Moment, ReqNo, SessionId, SlotId};

impl Piece {
    /// A session that was started in the held slot is kept.
    pub fn bound(
        &mut self,
        caller: u64,
        request: ReqNo,
        slot: SlotId,
        session: SessionId,
        caps: &Caps,
        at: Moment,
    ) -> Result<(), PieceFault>
        ensures { Told self.old self.new (of caller (change.Bound request slot session caps.now at)) result }
    {
        session_fits(&session);
        if caps_fit(caps).is_err() {
            return self.refuse(PieceFault::Memory);
        }
        self.add(
            &(caller, (8u8, (request, (slot, (session, (caps, at)))))),
            at,
        )
    }

    /// A session was used.
    pub fn touched(&mut self, caller: u64, binding: ReqNo, at: Moment) -> Result<(), PieceFault>
        ensures { Told self.old self.new (of caller (change.Touched binding at)) result }
    {
        self.add(&(caller, (13u8, (binding, at))), at)
    }

    /// A session ended.
    pub fn ended(
        &mut self,
        caller: u64,
        binding: ReqNo,
        cause: EndCause,
        at: Moment,
    ) -> Result<(), PieceFault>
        ensures { Told self.old self.new (of caller (change.Ended binding cause at)) result }
    {
        self.add(&(caller, (14u8, (binding, (cause, at)))), at)
    }

    /// A closing slot is free again.
    pub fn freed(&mut self, caller: u64, slot: SlotId) -> Result<(), PieceFault>
        ensures { Told self.old self.new (of caller (change.Freed slot)) result }
    {
        self.add(&(caller, (15u8, slot)), Moment(0))
    }
}
