//! Calls of nodes.
ghost use Rattle.std.specs.Prelude.{◌≡◌, ℕ, List, Option};
ghost use Rattle.grid_types.specs.Calls.{Call};
ghost use Rattle.grid_types.specs.Nodes.{is_base_up};
ghost use Rattle.hub_core.specs.Replies.{registering_reply, beating_reply, draining_reply, removal_reply};
ghost use Rattle.hub_tellers.specs.Tells.{Nothing, Tells};

use grid_journal::{Piece, PieceFault};
use grid_types::{Moment, NodeNo, Registration};
use hub_core::{Beating, Draining, Registering, Removal};
use reply_laws::calls_make;

/// A node registers.
pub fn told_register(
    piece: &mut Piece,
    caller: u64,
    registration: &Registration,
    now: Moment,
    answer: &Registering,
) -> Result<(), PieceFault>
    ensures { Tells Nothing caller (Call.register registration.now)
        (registering_reply answer.now) now piece.old piece.new result }
{
    calls_make();
    match answer {
        Registering::Registered(node) => piece.registered(caller, *node, registration, now),
        _ => Ok(()),
    }
}

/// A node beats.
pub fn told_beat(
    piece: &mut Piece,
    caller: u64,
    node: NodeNo,
    now: Moment,
    answer: Beating,
) -> Result<(), PieceFault>
    ensures { (name : Option (List ℕ)) → Tells Nothing caller (Call.beat node name)
        (beating_reply answer) now piece.old piece.new result }
{
    calls_make();
    match answer {
        Beating::Beaten => piece.beaten(caller, node, now),
        Beating::NoNode => Ok(()),
    }
}

/// A node is to take no new session, which took some before or not.
pub fn told_drain(
    piece: &mut Piece,
    caller: u64,
    node: NodeNo,
    was_up: bool,
    now: Moment,
    answer: Draining,
) -> Result<(), PieceFault>
    ensures { Tells (λ c H at. was_up ≡ is_base_up H node) caller (Call.drain node)
        (draining_reply answer) now piece.old piece.new result }
{
    calls_make();
    if was_up {
        piece.draining(caller, node, now)
    } else {
        Ok(())
    }
}

/// A node is taken off.
pub fn told_remove(
    piece: &mut Piece,
    caller: u64,
    node: NodeNo,
    now: Moment,
    answer: Removal,
) -> Result<(), PieceFault>
    ensures { Tells Nothing caller (Call.remove node) (removal_reply answer) now piece.old
        piece.new result }
{
    calls_make();
    match answer {
        Removal::Removed => piece.removed(caller, node, now),
        Removal::NoNode => Ok(()),
    }
}
