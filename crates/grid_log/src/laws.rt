//! That a log may begin behind the front of a journal.
ghost use Rattle.std.specs.Prelude.{◌≡◌, ◌++◌, List};
ghost use Rattle.grid_types.specs.declared.config.HubConfig.{HubConfig};
ghost use Rattle.grid_types.specs.declared.entry.Entry.{Entry};
ghost use Rattle.grid_log.specs.Past.{past_of};
ghost use Rattle.grid_log.specs.Events.{log_of, told_behind};

use crate::form::Form;

/// The log of a history is that of its front, and behind it the lines that are told of the rest behind what is past then.
pub fn logs_join()
    ensures { (form : Form) (c : HubConfig) (front rest : List Entry) → log_of form c (rest ++ front)
        ≡ told_behind (log_of form c front) form c (past_of front) rest }
{}
