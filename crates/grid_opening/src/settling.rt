//! What is open is settled, each under the number of the caller that had it.
ghost use Rattle.std.specs.Prelude.{◌≡◌};
ghost use Rattle.grid_opening.specs.declared.settling.RequestWork.TheVariants as asked_work;
ghost use Rattle.grid_opening.specs.declared.settling.SlotWork.TheVariants as work;
ghost use Rattle.grid_types.specs.Slots.{slot_at};
ghost use Rattle.grid_ledger.specs.LedgerStands.{LedgerTells};
ghost use Rattle.grid_opening.specs.Openings.{Went, WentGiven};
ghost use Rattle.grid_opening.specs.Settling.{Clears, ClearsOne, Closes, EachRequest, EachSlot, Ends, IsClosingOf, IsHeldFor, IsRequest, IsSettledOrGone, IsSlot, IsUntakenOf, NoHeld, OnNode, Refreshes, Settles, Stays, TakesGiven, TellsUntaken, Works};

use crate::ender::{Ender, NoEnder};
use crate::fault::OpeningFault;
use crate::opening::Opening;
use grid_ledger::Listener;
use grid_types::{
    Change, EndCause, FailWhy, MOST_SLOTS, Moment, NodeNo, Outcome, ReqNo, SlotId, history_laws,
};
use journal_keeper::Keeper;
use reservation::SlotUse;
use session_queue::Stage;

/// The number of a caller that no pass has, for the entries that nobody's token is wanted for.
const NOBODY: u64 = 0;

/// What is done at each slot.
#[derive(Clone, Copy)]
pub(crate) enum SlotWork {
    /// A start that was under way has failed, for all that is known of it.
    LetGo,
    /// A closing slot is freed.
    Free,
}

/// What is done at each number of a request.
#[derive(Clone, Copy)]
pub(crate) enum RequestWork {
    /// It is settled, and its outcome taken.
    Settle,
    /// The session that was bound for it was used.
    Touch,
}

impl<K: Keeper + Drop, L: Listener + Drop> Opening<K, L> {
    /// Gives a start up that was under way.
    fn give_up(
        &mut self,
        owner: u64,
        request: ReqNo,
        node: NodeNo,
        index: u16,
        at: Moment,
    ) -> Result<(), OpeningFault>
        ensures { WentGiven K.kept L.heard K.faults
            (IsHeldFor owner request (slot_at node index)) at.0
            (Clears work.LetGo at.0 (IsSlot (slot_at node index))) self.old self.new result }
    {
        history_laws();
        let slot = SlotId { node, index };
        let last = self.ledger().is_last(request);
        let failed = Change::Failed {
            request,
            slot,
            why: FailWhy::Unreachable,
            orphan: None,
            last,
            at,
        };
        self.enter(owner, failed)
    }

    /// Lets a held slot go.
    fn let_go(&mut self, slot: SlotId, at: Moment) -> Result<(), OpeningFault>
        ensures { Went K.kept L.heard K.faults at.0 (Clears work.LetGo at.0 (IsSlot slot))
            self.old self.new result }
    {
        match self.ledger().slot_use(slot) {
            SlotUse::Held { request, owner, .. } => {
                self.give_up(owner, request, slot.node, slot.index, at)
            }
            SlotUse::Free => Ok(()),
            SlotUse::Busy { .. } => Ok(()),
            SlotUse::Closing { .. } => Ok(()),
        }
    }

    /// Frees a slot that is closing since an entry of this caller.
    fn make_free(
        &mut self,
        owner: u64,
        node: NodeNo,
        index: u16,
        at: Moment,
    ) -> Result<(), OpeningFault>
        ensures { WentGiven K.kept L.heard K.faults (IsClosingOf owner (slot_at node index)) at.0
            (Clears work.Free at.0 (IsSlot (slot_at node index))) self.old self.new result }
    {
        history_laws();
        let slot = SlotId { node, index };
        self.enter(owner, Change::Freed { slot })
    }

    /// Frees a closing slot, once its session was ended.
    fn free<E: Ender<L>>(
        &mut self,
        slot: SlotId,
        ender: &mut E,
        at: Moment,
    ) -> Result<(), OpeningFault>
        ensures { Went K.kept L.heard K.faults at.0 (Clears work.Free at.0 (IsSlot slot))
            self.old self.new result }
    {
        match self.ledger().slot_use(slot) {
            SlotUse::Closing { owner } => {
                ender.end(self.ledger(), self.listener(), slot);
                self.make_free(owner, slot.node, slot.index, at)
            }
            SlotUse::Free => Ok(()),
            SlotUse::Busy { .. } => Ok(()),
            SlotUse::Held { .. } => Ok(()),
        }
    }

    fn at_slot<E: Ender<L>>(
        &mut self,
        work: SlotWork,
        slot: SlotId,
        ender: &mut E,
        at: Moment,
    ) -> Result<(), OpeningFault>
        ensures { Went K.kept L.heard K.faults at.0 (Clears work at.0 (IsSlot slot))
            self.old self.new result }
    {
        match work {
            SlotWork::LetGo => self.let_go(slot, at),
            SlotWork::Free => self.free(slot, ender, at),
        }
    }

    /// Goes through all slots that a node may have.
    fn at_slots<E: Ender<L>>(
        &mut self,
        work: SlotWork,
        node: NodeNo,
        ender: &mut E,
        at: Moment,
    ) -> Result<(), OpeningFault>
        ensures { Went K.kept L.heard K.faults at.0 (Clears work at.0 (OnNode node))
            self.old self.new result }
    {
        history_laws();
        for index in 0..MOST_SLOTS as u16 {
            self.at_slot(work, SlotId { node, index }, ender, at)?;
        }
        Ok(())
    }

    /// Goes through the slots of a node, where one is in use.
    fn at_slots_of<E: Ender<L>>(
        &mut self,
        work: SlotWork,
        node: NodeNo,
        ender: &mut E,
        at: Moment,
    ) -> Result<(), OpeningFault>
        ensures { Went K.kept L.heard K.faults at.0 (Clears work at.0 (OnNode node))
            self.old self.new result }
    {
        history_laws();
        if !self.ledger().has_slot_in_use(node) {
            return Ok(());
        }
        self.at_slots(work, node, ender, at)
    }

    /// Goes through the slots of all nodes.
    fn at_each_slot<E: Ender<L>>(
        &mut self,
        work: SlotWork,
        ender: &mut E,
        at: Moment,
    ) -> Result<(), OpeningFault>
        ensures { Went K.kept L.heard K.faults at.0 (Clears work at.0 EachSlot)
            self.old self.new result }
    {
        history_laws();
        let first = self.ledger().config().first_node;
        let next = self.ledger().next_node();
        for node in first..next {
            self.at_slots_of(work, node, ender, at)?;
        }
        Ok(())
    }

    /// Ends the session of an outcome that nobody was told of, where it has one.
    fn end_untold(
        &mut self,
        caller: u64,
        has_session: bool,
        request: ReqNo,
        at: Moment,
    ) -> Result<(), OpeningFault>
        ensures { WentGiven K.kept L.heard K.faults (IsUntakenOf caller request) at.0
            (Ends at.0) self.old self.new result }
    {
        history_laws();
        if !has_session {
            return Ok(());
        }
        let ended = Change::Ended {
            binding: request,
            cause: EndCause::Quit,
            at,
        };
        self.enter(caller, ended)
    }

    /// The caller that queued the request, where its outcome is there and was not handed out, and whether that has a session.
    fn untaken(&self, request: ReqNo) -> Option<(u64, bool)>
        ensures { LedgerTells self.now.ledger (TellsUntaken request result) }
    {
        match self.ledger().request(request) {
            Some(asked) => match &asked.stage {
                Stage::Settled(Outcome::Created { .. }) => Some((asked.caller, true)),
                Stage::Settled(_) => Some((asked.caller, false)),
                _ => None,
            },
            None => None,
        }
    }

    /// Takes an outcome for the caller that queued the request.
    fn take_it(&mut self, caller: u64, request: ReqNo, at: Moment) -> Result<(), OpeningFault>
        ensures { WentGiven K.kept L.heard K.faults (IsUntakenOf caller request) at.0
            (TakesGiven at.0 (IsUntakenOf caller request) (IsRequest request))
            self.old self.new result }
    {
        history_laws();
        self.enter(caller, Change::Taken { request, at })
    }

    /// Takes the outcome of the request for its caller, once its session is ended where it has one.
    fn take(
        &mut self,
        caller: u64,
        has_session: bool,
        request: ReqNo,
        at: Moment,
    ) -> Result<(), OpeningFault>
        ensures { WentGiven K.kept L.heard K.faults (IsUntakenOf caller request) at.0
            (TakesGiven at.0 (IsUntakenOf caller request) (IsRequest request))
            self.old self.new result }
    {
        self.end_untold(caller, has_session, request, at)?;
        self.take_it(caller, request, at)
    }

    /// Takes the outcome of the request, where it is there and nobody did.
    fn take_untaken(&mut self, request: ReqNo, at: Moment) -> Result<(), OpeningFault>
        ensures { Went K.kept L.heard K.faults at.0
            (TakesGiven at.0 (IsSettledOrGone request) (IsRequest request))
            self.old self.new result }
    {
        match self.untaken(request) {
            Some((caller, has_session)) => self.take(caller, has_session, request, at),
            None => Ok(()),
        }
    }

    /// Clears the request where it waits.
    fn clear(&mut self, request: ReqNo, at: Moment) -> Result<(), OpeningFault>
        ensures { Went K.kept L.heard K.faults at.0 (ClearsOne at.0 request)
            self.old self.new result }
    {
        history_laws();
        self.enter(NOBODY, Change::Cleared { request, at })
    }

    /// Clears the request where it waits, and takes its outcome.
    fn settle_request(&mut self, request: ReqNo, at: Moment) -> Result<(), OpeningFault>
        ensures { Went K.kept L.heard K.faults at.0
            (TakesGiven at.0 NoHeld (IsRequest request)) self.old self.new result }
    {
        self.clear(request, at)?;
        self.take_untaken(request, at)
    }

    /// Uses the session that was bound for the request, where that is live.
    fn touch(&mut self, binding: ReqNo, at: Moment) -> Result<(), OpeningFault>
        ensures { Went K.kept L.heard K.faults at.0 Stays self.old self.new result }
    {
        self.enter(NOBODY, Change::Touched { binding, at })
    }

    fn at_request(
        &mut self,
        work: RequestWork,
        request: ReqNo,
        at: Moment,
    ) -> Result<(), OpeningFault>
        ensures { Went K.kept L.heard K.faults at.0 (Works work at.0 (IsRequest request))
            self.old self.new result }
    {
        match work {
            RequestWork::Settle => self.settle_request(request, at),
            RequestWork::Touch => self.touch(request, at),
        }
    }

    /// Goes through all numbers that a request has had.
    fn at_each_request(&mut self, work: RequestWork, at: Moment) -> Result<(), OpeningFault>
        ensures { Went K.kept L.heard K.faults at.0 (Works work at.0 EachRequest)
            self.old self.new result }
    {
        history_laws();
        let first = self.ledger().config().first_request;
        let next = self.ledger().next_request();
        for request in first..next {
            self.at_request(work, request, at)?;
        }
        Ok(())
    }

    /// Drains a node that took as many sessions as it drains after.
    fn drain_spent(&mut self, node: NodeNo, at: Moment) -> Result<(), OpeningFault>
        ensures { Went K.kept L.heard K.faults at.0 Stays self.old self.new result }
    {
        if !self.ledger().is_spent(node) {
            return Ok(());
        }
        self.enter(NOBODY, Change::Draining { node, at })
    }

    /// Hears a node, where it is registered.
    fn beat(&mut self, node: NodeNo, at: Moment) -> Result<(), OpeningFault>
        ensures { Went K.kept L.heard K.faults at.0 Stays self.old self.new result }
    {
        self.enter(NOBODY, Change::Beaten { node, at })
    }

    /// Drains a spent node, and hears a registered one.
    fn at_node(&mut self, node: NodeNo, at: Moment) -> Result<(), OpeningFault>
        ensures { Went K.kept L.heard K.faults at.0 Stays self.old self.new result }
    {
        self.drain_spent(node, at)?;
        self.beat(node, at)
    }

    /// Goes through all numbers that a node has had.
    fn at_each_node(&mut self, at: Moment) -> Result<(), OpeningFault>
        ensures { Went K.kept L.heard K.faults at.0 Stays self.old self.new result }
    {
        let first = self.ledger().config().first_node;
        let next = self.ledger().next_node();
        for node in first..next {
            self.at_node(node, at)?;
        }
        Ok(())
    }

    /// Lets each held slot go, clears the requests that wait, and takes the outcomes that nobody took; a session of one of these
    /// is ended. What is closing then is still to be ended at its node.
    fn settle_starts(&mut self, at: Moment) -> Result<(), OpeningFault>
        ensures { Went K.kept L.heard K.faults at.0 (Settles at.0) self.old self.new result }
    {
        self.at_each_slot(SlotWork::LetGo, &mut NoEnder, at)?;
        self.at_each_request(RequestWork::Settle, at)
    }

    /// Hears each registered node and uses each live session.
    fn hear_all(&mut self, at: Moment) -> Result<(), OpeningFault>
        ensures { Went K.kept L.heard K.faults at.0 Stays self.old self.new result }
    {
        self.at_each_node(at)?;
        self.at_each_request(RequestWork::Touch, at)
    }

    /// Frees the closing slots, once each session was ended at its node, and hears each registered node and uses each live session at the
    /// moment.
    fn refresh<E: Ender<L>>(&mut self, ender: &mut E, at: Moment) -> Result<(), OpeningFault>
        ensures { Went K.kept L.heard K.faults at.0 (Refreshes at.0) self.old self.new result }
    {
        self.at_each_slot(SlotWork::Free, ender, at)?;
        self.hear_all(at)
    }

    /// Settles all that is open, at a moment that is not before the last one of the history.
    pub(crate) fn settle_at<E: Ender<L>>(
        &mut self,
        ender: &mut E,
        at: Moment,
    ) -> Result<(), OpeningFault>
        ensures { Went K.kept L.heard K.faults at.0 (Closes at.0) self.old self.new result }
    {
        self.settle_starts(at)?;
        self.refresh(ender, at)
    }
}
