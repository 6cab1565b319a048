//! Calls of nodes.
ghost use Rattle.std.specs.Prelude.{◌≡◌, ℕ, None, Some, max, true};
ghost use Rattle.grid_types.specs.declared.capabilities.Registration.{Registration};
ghost use Rattle.grid_types.specs.Calls.{Call};
ghost use Rattle.grid_types.specs.History.{clock};
ghost use Rattle.grid_types.specs.Permitted.{is_well_sized};
ghost use Rattle.hub_core.specs.CoreStands.{CoreServes, CoreTells};
ghost use Rattle.hub_core.specs.Replies.{registering_reply, beating_reply, draining_reply, removal_reply, KeepsRegistration};
ghost use Rattle.hub_core.specs.declared.hub.HubCore.{HubCore};
ghost use Rattle.hub_tellers.specs.Records.{TellsCall};

use crate::changes::untold;
use crate::nodes::{told_beat, told_drain, told_register, told_remove};
use grid_journal::{Piece, PieceFault};
use grid_types::{Moment, NodeNo, Registration, Text};
use hub_core::{Beating, Draining, HubCore, Registering, Removal};
use reply_laws::calls_make;

/// A node beats.
pub fn beat_told(
    core: &mut HubCore,
    piece: &mut Piece,
    caller: u64,
    node: NodeNo,
    at: Moment,
) -> (Beating, Result<(), PieceFault>)
    ensures serves { CoreServes core.old core.new caller (Call.beat node None) at.0
        (beating_reply result.0) }
    ensures told { TellsCall core.old caller (Call.beat node None) at.0 (beating_reply result.0)
        piece.old piece.new result.1 }
{
    let now = core.raised(at);
    let answer = core.beat(caller, node, at);
    let told = told_beat(piece, caller, node, now, answer);
    (answer, told)
}

/// A node beats that tells its name.
pub fn beat_as_told(
    core: &mut HubCore,
    piece: &mut Piece,
    caller: u64,
    node: NodeNo,
    name: &Text,
    at: Moment,
) -> (Beating, Result<(), PieceFault>)
    ensures serves { CoreServes core.old core.new caller (Call.beat node (Some name.now)) at.0
        (beating_reply result.0) }
    ensures told { TellsCall core.old caller (Call.beat node (Some name.now)) at.0
        (beating_reply result.0) piece.old piece.new result.1 }
{
    let now = core.raised(at);
    let answer = core.beat_as(caller, node, name, at);
    let told = told_beat(piece, caller, node, now, answer);
    (answer, told)
}

/// A node is to take no new session.
pub fn drain_told(
    core: &mut HubCore,
    piece: &mut Piece,
    caller: u64,
    node: NodeNo,
    at: Moment,
) -> (Draining, Result<(), PieceFault>)
    ensures serves { CoreServes core.old core.new caller (Call.drain node) at.0
        (draining_reply result.0) }
    ensures told { TellsCall core.old caller (Call.drain node) at.0 (draining_reply result.0)
        piece.old piece.new result.1 }
{
    let now = core.raised(at);
    let was_up = core.is_base_up(node);
    let answer = core.drain(caller, node, at);
    let told = told_drain(piece, caller, node, was_up, now, answer);
    (answer, told)
}

/// A node is taken off.
pub fn remove_told(
    core: &mut HubCore,
    piece: &mut Piece,
    caller: u64,
    node: NodeNo,
    at: Moment,
) -> (Removal, Result<(), PieceFault>)
    ensures serves { CoreServes core.old core.new caller (Call.remove node) at.0
        (removal_reply result.0) }
    ensures told { TellsCall core.old caller (Call.remove node) at.0 (removal_reply result.0)
        piece.old piece.new result.1 }
{
    let now = core.raised(at);
    let answer = core.remove(caller, node, at);
    let told = told_remove(piece, caller, node, now, answer);
    (answer, told)
}

/// A node registers: what it said of itself is read from the row that the core keeps of it.
pub fn register_told(
    core: &mut HubCore,
    piece: &mut Piece,
    caller: u64,
    node: Registration,
    at: Moment,
) -> (Registering, Result<(), PieceFault>)
    requires { is_well_sized node ≡ true }
    ensures serves { CoreServes core.old core.new caller (Call.register node) at.0
        (registering_reply result.0) }
    ensures told { TellsCall core.old caller (Call.register node) at.0 (registering_reply result.0)
        piece.old piece.new result.1 }
    ensures back { KeepsRegistration node result.0 }
{
    let now = core.raised(at);
    let answer = core.register(caller, node, at);
    let told = told_listed(core, piece, caller, now, &answer);
    (answer, told)
}

/// What a registration entered that the core answered so.
fn told_listed(
    core: &HubCore,
    piece: &mut Piece,
    caller: u64,
    now: Moment,
    answer: &Registering,
) -> Result<(), PieceFault>
    ensures { (before : HubCore) (node : Registration) (at : ℕ) →
        CoreServes before core.now caller (Call.register node) at (registering_reply answer.now) →
        CoreTells before (λ H. now.0 ≡ max at (clock H)) →
        TellsCall before caller (Call.register node) at (registering_reply answer.now) piece.old
        piece.new result }
{
    calls_make();
    match answer {
        Registering::Registered(node) => match core.registration(*node) {
            Some(registration) => told_register(piece, caller, registration, now, answer),
            None => untold(piece),
        },
        _ => Ok(()),
    }
}
