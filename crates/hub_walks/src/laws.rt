//! The laws of the crates below by which each answer is proved, in one.
ghost use Rattle.hub_walks.specs.Laws.{Known};

use grid_types::history_laws;
use node_registry::known_nodes_are_in_order;
use request_laws::kind_laws;
use session_queue::requests_are_in_order;
use slot_select::fold_gives_first;

/// Those of histories, of kinds of requests, of the tables of nodes and requests, and of the order of slots.
pub(crate) fn walk_laws()
    ensures { Known }
{
    history_laws();
    kind_laws();
    requests_are_in_order();
    known_nodes_are_in_order();
    fold_gives_first();
}
