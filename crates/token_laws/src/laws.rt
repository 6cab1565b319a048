//! The law, as the contract of a function that does nothing.
ghost use Rattle.token_laws.specs.Gives.{TokensComeFromReplies};

use grid_types::live_is_running;

/// A token that is good after a call was good before it and not handed in, or the call's reply gives it.
pub fn tokens_come_from_replies()
    ensures { TokensComeFromReplies }
{
    live_is_running();
}
