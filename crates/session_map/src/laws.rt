//! The law of the table that no call states, as the contract of a function that does nothing.
ghost use Rattle.grid_types.specs.Tables.{OthersKeep, is_session_change};
ghost use Rattle.session_map.specs.Table.{Stands};

/// The table stands for a history with an entry of any other kind as for the history before it.
pub fn other_changes_keep()
    ensures { OthersKeep Stands is_session_change }
{}
