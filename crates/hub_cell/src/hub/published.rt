//! Look-ups in the published map.
ghost use Rattle.std.specs.Prelude.{◌≡◌, IfSome};
ghost use Rattle.hub_cell.specs.Passes.{knows, noting, reader_of, IsOf, SameSpares};
ghost use Rattle.hub_cell.specs.Published.{FromMap};
ghost use Rattle.hub_cell.specs.Shared.{past};

use crate::hub::{Pass, SharedHub};
use grid_types::{Found, SessionId};

impl SharedHub {
    /// Where the session runs by the published map, without a turn: it waits for nobody and takes no memory. The list that
    /// it answers by begins with what the history that the pass has seen publishes, and is the one that its reader found. A
    /// session that was found is noted in what the pass knows, and nothing else is. None, as NoSession, settles nothing:
    /// `lookup_in_turn` does. None comes where the pass's reader has no place in the map.
    pub fn lookup(&self, pass: &mut Pass, session: &SessionId) -> Option<Found>
        requires own { IsOf self.now pass.old }
        ensures own { IsOf self.now pass.new }
        ensures spares { SameSpares pass.old pass.new }
        ensures noted { knows pass.new ≡ noting session.now result (knows pass.old) }
        ensures found { IfSome result (FromMap (reader_of pass.old) (reader_of pass.new)
            (past (knows pass.old)) session.now) }
    {
        let found = pass.reader.find(session)?;
        if let Found::At { .. } = &found {
            self.cell.note(&mut pass.inner, session, &found);
        }
        Some(found)
    }
}
