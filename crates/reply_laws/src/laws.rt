//! The law, as the contract of a function that does nothing.
ghost use Rattle.reply_laws.specs.Made.{CallsMake};

use grid_types::history_laws;

/// A reply tells which changes its call made, but for those that go over all nodes or all requests.
pub fn calls_make()
    ensures { CallsMake }
{
    history_laws();
}
