//! The reader of the published map that a thread lends to each of its connections in turn.
ghost use Rattle.std.specs.Prelude.{◌≡◌, ◌<◌, length, None, Some, IfNone, IfSome};
ghost use Rattle.hub_cell.specs.Passes.{IsOf, knows, lender_of};
ghost use Rattle.hub_workers.specs.SharedClock.{Asked};
ghost use Rattle.hub_serving.specs.Tables.{IsSeated, IsStill, Says, SitsOn, pass_of};
ghost use Rattle.turn_cell.specs.Steps.{following};

use crate::seats::Seat;
use crate::stepping::Act;
use grid_outside::{Clock, Line, NodeLine};
use hub_cell::{Pass, SharedHub};
use std::alloc::Global;
use std::sync::Wait;

impl<L: Line + Drop, N: NodeLine + Drop, C: Clock> Seat<L, N, C> {
    /// Lends its pass the reader of another, until that is taken back: meanwhile it finds sessions in the published map, and
    /// the other has seen what it has seen. Nothing else changes.
    pub fn lend(&mut self, hub: &SharedHub, lender: Pass)
        requires own { IsOf hub.now (pass_of self.old) × IsOf hub.now lender }
        ensures still { IsStill hub.now L.view N.state N.gives N.asks C.gives C.view self.old self.new }
        ensures lent { lender_of (pass_of self.new)
            ≡ Some (following (knows lender) (knows (pass_of self.old))) }
    {
        hub.lend(&mut self.pass, lender);
    }

    /// Takes back the pass whose reader it was lent. None: it was lent none.
    pub fn take_back(&mut self, hub: &SharedHub) -> Option<Pass>
        requires own { IsOf hub.now (pass_of self.old) }
        ensures still { IsStill hub.now L.view N.state N.gives N.asks C.gives C.view self.old self.new }
        ensures lender { IfSome result (λ p. IsOf hub.now p
            × (lender_of (pass_of self.old) ≡ Some (knows p))) }
        ensures none { IfNone result (lender_of (pass_of self.old) ≡ None) }
    {
        hub.take_back(&mut self.pass)
    }

    /// Lends it a reader where there is one.
    fn lend_some(&mut self, hub: &SharedHub, lender: Option<Pass>)
        requires own { IsOf hub.now (pass_of self.old) }
        requires lender { IfSome lender (IsOf hub.now) }
        ensures still { IsStill hub.now L.view N.state N.gives N.asks C.gives C.view self.old self.new }
    {
        if let Some(lender) = lender {
            self.lend(hub, lender);
        }
    }

    /// Does what `step` does, by the reader of another pass, which it is lent meanwhile. Without one it looks sessions up in
    /// turns.
    pub fn step_lent<R: Wait>(
        &mut self,
        rt: &R,
        alloc: Global,
        hub: &SharedHub,
        reader: &mut Option<Pass>,
        buffer: &mut [u8],
        clock: &mut C,
    ) -> Act
        requires seated { IsSeated hub.now L.view N.state N.gives N.asks C.gives C.view clock.old self.old }
        requires reader { IfSome reader.old (IsOf hub.now) }
        requires room { 0 < length buffer.old }
        ensures on { SitsOn hub.now L.view N.state N.gives N.asks C.gives C.view clock.new self.old self.new }
        ensures says { Says L.view N.state C.view result self.old self.new }
        ensures asked { Asked C.gives C.view clock.old clock.new }
        ensures reader { IfSome reader.new (IsOf hub.now) }
    {
        self.lend_some(hub, reader.take());
        let act = self.step(rt, alloc, hub, buffer, clock);
        *reader = self.take_back(hub);
        act
    }
}
