//! What the definitions of a connection say.
ghost use Rattle.hub_conn.specs.CallLaws.{CallLaws};
ghost use Rattle.hub_conn.specs.SpentLaws.{SpentLaws};
ghost use Rattle.hub_conn.specs.WantLaws.{WantLaws};

use conn_script::{scripts_find_spent_last, scripts_pause_behind_early_calls};
use node_client::starts_stand_by_their_wants;

/// A call that is wanted spends no token but its own, and brings what the hub asks of it; between scripts no token is held.
pub fn calls_are_rightful()
    ensures { CallLaws }
{
    starts_stand_by_their_wants();
}

/// A conversation that is over found the hub spent at its last step or not at all, and its result tells which where it is an end.
pub fn conversations_find_spent_last()
    ensures { SpentLaws }
{
    scripts_find_spent_last();
}

/// A pause is wanted right behind a poll or a withdrawal that was told to wait, or a poll that found no memory; a request is queued while
/// no token is held; and what is read stays within the limit of a connection.
pub fn wants_come_in_order()
    ensures { WantLaws }
{
    scripts_pause_behind_early_calls();
}
