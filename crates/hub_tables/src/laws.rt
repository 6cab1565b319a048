//! The laws of the crates below by which each change is proved, in one.
ghost use Rattle.hub_tables.specs.Laws.{TableLaws};

use request_laws::nothing_stays;

/// A change that a table doesn't take leaves it standing, and what is remembered of a search stays.
pub(crate) fn table_laws()
    ensures { TableLaws }
{
    node_registry::other_changes_keep();
    reservation::other_changes_keep();
    session_queue::other_changes_keep();
    session_map::other_changes_keep();
    nothing_stays();
}
