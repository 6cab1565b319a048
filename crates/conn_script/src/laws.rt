//! What the definitions of scripts say.
ghost use Rattle.std.specs.Prelude.{◌≡◌, ◌^◌};
ghost use Rattle.conn_script.specs.declared.wants.TheConstants.{LIMIT, PAUSE, PIECE};
ghost use Rattle.conn_script.specs.Pauses.{PausesBehindEarlyCalls};
ghost use Rattle.conn_script.specs.SpentLooks.{SpentLaws};

use node_client::starts_spend_all;

/// A request finds the hub spent at the last of its steps or not at all, and its response tells which, where it has one.
pub fn scripts_find_spent_last()
    ensures { SpentLaws }
{
    starts_spend_all();
}

/// A script pauses right behind a poll or a withdrawal that was told to wait, or a poll that found no memory, and nowhere else.
pub fn scripts_pause_behind_early_calls()
    ensures { PausesBehindEarlyCalls }
{
    starts_spend_all();
}

/// The number behind each name of a limit, since definitions cite the names: bytes of a piece and of a connection, and
/// milliseconds between two polls.
pub fn fixed_limits()
    ensures piece { PIECE ≡ 65536 }
    ensures read { LIMIT ≡ 2 ^ 40 }
    ensures pause { PAUSE ≡ 15 }
{}
