//! A reader of one pass that another is lent.
ghost use Rattle.std.specs.Prelude.{◌≡◌, ◌≤◌, true, None, Some, IfSome, IfNone};
ghost use Rattle.turn_cell.specs.Cells.{view_of, IsFree};
ghost use Rattle.turn_cell.specs.Cells as cells;
ghost use Rattle.turn_cell.specs.Steps.{following};
ghost use Rattle.hub_cell.specs.Legality.{is_legal};
ghost use Rattle.hub_cell.specs.Passes.{knows, lender_of, reader_of, spares_of, HasLent, IsAlone, IsDeaf, IsLender, IsOf, SameSpares};
ghost use Rattle.hub_cell.specs.Published.{KnowsChanges};
ghost use Rattle.hub_cell.specs.Shared.{past};

use crate::grid::Grid;
use crate::hub::{Lender, Pass, SharedHub};
use map_view::MapReader;
use std::mem::replace;

impl SharedHub {
    /// Lends the pass the reader of another, which goes along with it until it is taken back: the pass looks up by that
    /// reader, its turns tell it, and the lender has seen from then on what the pass has seen. Where the pass has seen
    /// more than the lender, the reader has no place until the pass's next turn. A reader of its own that the pass had is let go, and
    /// so are a lender that it had and the lender's own. It takes no turn, no memory and no time.
    pub fn lend(&self, pass: &mut Pass, lender: Pass)
        requires own { IsOf self.now pass.old × IsOf self.now lender }
        ensures own { IsOf self.now pass.new }
        ensures same { (knows pass.new ≡ knows pass.old) × SameSpares pass.old pass.new }
        ensures lender { lender_of pass.new ≡ Some (following (knows lender) (knows pass.old)) }
        ensures reader { (knows pass.old).since ≤ (knows lender).since →
            reader_of pass.new ≡ reader_of lender }
    {
        let (inner, mut reader, spares) = lender.into_parts();
        let mut lender = Lender { inner, spares };
        see_too(self, &mut lender, &mut pass.inner, &mut reader);
        pass.reader = reader;
        pass.lender = Some(lender);
    }

    /// Takes the lender back with its reader, and leaves the pass without one. None: it was lent none.
    pub fn take_back(&self, pass: &mut Pass) -> Option<Pass>
        requires own { IsOf self.now pass.old }
        ensures own { IsOf self.now pass.new }
        ensures same { (knows pass.new ≡ knows pass.old) × SameSpares pass.old pass.new }
        ensures lender { IfSome result (λ p. IsOf self.now p × (lender_of pass.old ≡ Some (knows p))
            × (reader_of p ≡ reader_of pass.old)) }
        ensures left { IfSome result (λ p. (lender_of pass.new ≡ None)
            × IsDeaf (reader_of pass.new)) }
        ensures none { IfNone result ((lender_of pass.old ≡ None) × (pass.new ≡ pass.old)) }
    {
        let lender = pass.lender.take()?;
        let reader = replace(&mut pass.reader, MapReader::deaf());
        Some(lender.into_pass(reader))
    }

    /// What the pass has seen its lender has seen too from now on.
    pub(crate) fn keep_up(&self, pass: &mut Pass)
        requires own { IsAlone self.now pass.old }
        requires lender { IfSome pass.old.lender (IsLender self.now) }
        ensures own { IsOf self.now pass.new }
        ensures same { (knows pass.new ≡ knows pass.old) × SameSpares pass.old pass.new }
    {
        if let Some(lender) = &mut pass.lender {
            catch_up(self, lender, &mut pass.inner, &mut pass.reader);
        }
    }
}

/// The lender has seen what the pass has seen, which the reader knows. A reader that may know less than the lender has seen
/// loses its place.
fn catch_up(
    hub: &SharedHub,
    lender: &mut Lender,
    pass: &mut turn_cell::Pass<Grid>,
    reader: &mut MapReader,
)
    requires lender { IsLender hub.now lender.old }
    requires pass { cells.IsOf hub.now.cell pass.old × IsFree pass.old
        × (is_legal (view_of pass.old).origin (view_of pass.old).seen ≡ true) }
    requires reader { KnowsChanges reader.old (past (view_of pass.old)) }
    ensures lender { HasLent hub.now reader.new lender.new }
    ensures pass { cells.IsOf hub.now.cell pass.new × IsFree pass.new
        × (view_of pass.new ≡ view_of pass.old) }
    ensures reader { KnowsChanges reader.new (past (view_of pass.new)) }
{
    if !hub.cell.follow(&mut lender.inner, pass) {
        *reader = MapReader::without_place();
    }
}

/// The lender has seen what the pass has seen. A reader that knows what the lender had seen, and may know less than the
/// pass has seen, loses its place.
fn see_too(
    hub: &SharedHub,
    lender: &mut Lender,
    pass: &mut turn_cell::Pass<Grid>,
    reader: &mut MapReader,
)
    requires lender { HasLent hub.now reader.old lender.old }
    requires pass { cells.IsOf hub.now.cell pass.old × IsFree pass.old
        × (is_legal (view_of pass.old).origin (view_of pass.old).seen ≡ true) }
    ensures lender { HasLent hub.now reader.new lender.new }
    ensures sees { (view_of lender.new.inner
        ≡ following (view_of lender.old.inner) (view_of pass.old))
        × (lender.new.spares ≡ lender.old.spares) }
    ensures pass { cells.IsOf hub.now.cell pass.new × IsFree pass.new
        × (view_of pass.new ≡ view_of pass.old) }
    ensures reader { KnowsChanges reader.new (past (view_of pass.new)) }
    ensures kept { (view_of pass.old).since ≤ (view_of lender.old.inner).since →
        reader.new ≡ reader.old }
{
    if hub.cell.follow(&mut lender.inner, pass) {
        *reader = MapReader::without_place();
    }
}

impl Lender {
    /// The pass that it is with its reader.
    fn into_pass(self, reader: MapReader) -> Pass
        requires { IsFree self.inner × (is_legal (view_of self.inner).origin
            (view_of self.inner).seen ≡ true) }
        ensures { (result.inner ≡ self.inner) × (result.reader ≡ reader)
            × (spares_of result ≡ self.spares) × (result.lender ≡ None) }
    {
        let Lender { inner, spares } = self;
        Pass {
            inner,
            reader,
            spares,
            lender: None,
        }
    }
}
