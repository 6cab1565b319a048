//! The laws of the table that no call states, each as the contract of a function that does nothing.
ghost use Rattle.grid_types.specs.Tables.{OthersKeep, is_node_change};
ghost use Rattle.node_registry.specs.Table.{NodesInOrder, Stands, TurnsOrder};

use grid_types::history_laws;

/// The table stands for a history with an entry of any other kind as for the history before it.
pub fn other_changes_keep()
    ensures { OthersKeep Stands is_node_change }
{
    history_laws();
}

/// `last_reserved` of listed nodes has the order of their last reservations in the history.
pub fn turns_order_like_history()
    ensures { TurnsOrder }
{}

/// Any test that only listed nodes pass picks the same nodes, in the same order, from the table as from the history.
pub fn known_nodes_are_in_order()
    ensures { NodesInOrder }
{}
