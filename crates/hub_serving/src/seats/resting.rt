//! A connection that waits.
ghost use Rattle.std.specs.Prelude.{◌≡◌};
ghost use Rattle.hub_cell.specs.declared.hub.SharedHub.{SharedHub};
ghost use Rattle.hub_serving.specs.Tables.{IsStill, pass_of};

use crate::seats::Seat;
use grid_outside::{Clock, Line, NodeLine};

impl<L: Line + Drop, N: NodeLine + Drop, C: Clock> Seat<L, N, C> {
    /// Gives back the memory that it can do without while it waits. Nothing else changes.
    pub fn rest(&mut self)
        ensures still { (hub : SharedHub) →
            IsStill hub L.view N.state N.gives N.asks C.gives C.view self.old self.new }
        ensures pass { pass_of self.new ≡ pass_of self.old }
    {
        self.talk.rest();
    }
}
