//! The rows by their places, for a walk over all nodes. Calls of `history_laws` are for the proofs alone.
ghost use Rattle.std.specs.Prelude.{◌≡◌, Some, IfSome, option_map, slice_get};
ghost use Rattle.grid_types.specs.Nodes.{registration_of};
ghost use Rattle.grid_types.specs.Tables.{Tells};
ghost use Rattle.node_registry.specs.Table.{Stands, known, last_turn};
ghost use Rattle.node_registry.specs.Rows.{OfNode, RowTells};

use super::{NodeRow, NodeTable};
use grid_types::{NodeNo, Registration, history_laws};

impl NodeTable {
    /// The node at this place, by ascending number from 0, with its row. It takes no memory.
    pub fn row_at(&self, index: usize) -> Option<(NodeNo, &NodeRow)>
        ensures number { option_map (λ e. e.0) result ≡ slice_get (known self.now) index }
        ensures turn { IfSome result (λ e. e.1.now.turn ≡ last_turn self.now e.0) }
        ensures row { Tells Stands self.now (λ H. IfSome result (λ e. RowTells H e.0 e.1.now)) }
    {
        history_laws();
        let (node, row) = self.nodes.get_index(index)?;
        Some((*node, row))
    }
}

impl NodeRow {
    /// What the node said of itself.
    pub fn registration(&self) -> &Registration
        ensures { OfNode self.now (λ H n. Some result.now ≡ registration_of H n) }
    {
        &self.registration
    }

    /// The number of the node's last reservation, which is greater for a later one, 0 where there was none.
    pub fn turn(&self) -> u64
        ensures { result ≡ self.now.turn }
    {
        self.turn
    }
}
