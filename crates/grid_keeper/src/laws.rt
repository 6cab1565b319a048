//! The law of rows, as the contract of a function that does nothing.
ghost use Rattle.grid_keeper.specs.Keeping.{IsOpen};
ghost use Rattle.grid_keeper.specs.Runs.{Ran, WaysJoin};
ghost use Rattle.grid_keeper.specs.Replays.{RowsTellOneHistory};

use crate::kept_hub::KeptHub;
use grid_journal::one_row_spelling;
use grid_types::{calls_stay_legal, history_laws};
use row_keeper::Keeper;

/// Rows stand for one history alone: so what is made again of an image is the history that it was kept for.
pub fn rows_tell_one_history()
    ensures { RowsTellOneHistory }
{
    history_laws();
    calls_stay_legal();
    one_row_spelling();
}

/// Where nothing was called, nothing was done.
pub fn nothing_was_called<K: Keeper>(hub: &KeptHub<K>)
    requires { IsOpen K.disk hub.now }
    ensures { Ran K.disk K.faults hub.now hub.now }
{
    let _journal = hub.journal();
}

/// What calls leave of the journal and of what was kept is so of these calls and those behind them together.
pub fn ways_join<K: Keeper>()
    ensures { WaysJoin K.disk }
{}
