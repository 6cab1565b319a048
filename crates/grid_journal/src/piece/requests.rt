//! Entries of requests.
ghost use Rattle.std.specs.Prelude.{◌≡◌, max};
ghost use Rattle.grid_types.specs.declared.entry.Change.TheVariants as change;
ghost use Rattle.grid_journal.specs.Fits.{OptionFits, SessionFits};
ghost use Rattle.grid_journal.specs.Pieces.{Told, of};

use crate::fits::{choices_fit, session_fits, why_fits};
use crate::piece::{Piece, PieceFault};
use grid_types::{Choices, FailWhy, Moment, ReqNo, SessionId, SlotId};

/// The later one of two moments.
fn later(a: Moment, b: Moment) -> Moment
    ensures { result.0 ≡ max a.0 b.0 }
{
    Moment(a.0.max(b.0))
}

/// The id of a session that was not kept has the size that can be told.
fn orphan_fits(orphan: &Option<SessionId>)
    ensures { OptionFits SessionFits orphan.now }
{
    if let Some(session) = orphan {
        session_fits(session);
    }
}

impl Piece {
    /// A request was accepted.
    pub fn queued(
        &mut self,
        caller: u64,
        request: ReqNo,
        choices: &Choices,
        deadline: Moment,
        at: Moment,
    ) -> Result<(), PieceFault>
        ensures { Told self.old self.new (of caller (change.Queued request choices.now deadline at)) result }
    {
        if choices_fit(choices).is_err() {
            return self.refuse(PieceFault::Memory);
        }
        self.add(
            &(caller, (6u8, (request, (choices, (deadline, at))))),
            later(deadline, at),
        )
    }

    /// A slot is held for a choice of a request.
    pub fn reserved(
        &mut self,
        caller: u64,
        request: ReqNo,
        slot: SlotId,
        choice: u16,
        at: Moment,
    ) -> Result<(), PieceFault>
        ensures { Told self.old self.new (of caller (change.Reserved request slot choice at)) result }
    {
        self.add(&(caller, (7u8, (request, (slot, (choice, at))))), at)
    }

    /// A start failed.
    pub fn failed(
        &mut self,
        caller: u64,
        request: ReqNo,
        slot: SlotId,
        why: &FailWhy,
        orphan: Option<SessionId>,
        last: bool,
        at: Moment,
    ) -> Result<(), PieceFault>
        ensures { Told self.old self.new (of caller (change.Failed request slot why.now orphan last at)) result }
    {
        why_fits(why);
        orphan_fits(&orphan);
        self.add(
            &(
                caller,
                (9u8, (request, (slot, (why, (orphan, (last, at)))))),
            ),
            at,
        )
    }

    /// A request was settled by its deadline.
    pub fn timed_out(&mut self, caller: u64, request: ReqNo, at: Moment) -> Result<(), PieceFault>
        ensures { Told self.old self.new (of caller (change.TimedOut request at)) result }
    {
        self.add(&(caller, (10u8, (request, at))), at)
    }

    /// A waiting request was cleared.
    pub fn cleared(&mut self, caller: u64, request: ReqNo, at: Moment) -> Result<(), PieceFault>
        ensures { Told self.old self.new (of caller (change.Cleared request at)) result }
    {
        self.add(&(caller, (11u8, (request, at))), at)
    }

    /// A request's outcome was handed out.
    pub fn taken(&mut self, caller: u64, request: ReqNo, at: Moment) -> Result<(), PieceFault>
        ensures { Told self.old self.new (of caller (change.Taken request at)) result }
    {
        self.add(&(caller, (12u8, (request, at))), at)
    }
}
