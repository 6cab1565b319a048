//! A hub that was opened over a keeper plays: it is settled, the nodes register, and the one connection is served.
ghost use Rattle.std.specs.Prelude.{◌≡◌, ◌≤◌, ◌<◌, ◌^◌, length, IfErr, IfOk, OnErr, OnOk};
ghost use Rattle.grid_keeper.specs.Holds.{HoldsAll};
ghost use Rattle.grid_keeper.specs.Keeping.{IsOpen, WentAlong};
ghost use Rattle.grid_keeper.specs.Runs.{Runs};
ghost use Rattle.grid_keeper.specs.Settling.{NoTicket, NoneHeld, QuitsOn};
ghost use Rattle.grid_outside.specs.Counts.{Rose};
ghost use Rattle.grid_play.specs.BothEnds.{link_of};
ghost use Rattle.grid_play.specs.Crew.{AllFit};
ghost use Rattle.grid_play.specs.ServedTalks.{reached_give};
ghost use Rattle.hub_core.specs.HubView.{past};
ghost use Rattle.kept_play.specs.Kept.{IsStop, PlaysOrStops, RunsOrBreaks, RunsSettled, ServedOrStops, TellsKept};
ghost use Rattle.kept_play.specs.Placing.{Placed};

use crate::places::place_all;
use crate::serving::serve_kept;
use crate::statuses::{NO_MEMORY, end_status, fault_status};
use grid_keeper::{KeptHub, Left, nothing_was_called, settle, ways_join};
use grid_outside::{MemClock, Sink, Source};
use grid_play::{Joined, served_is_a_talk};
use grid_types::{Moment, NodeNo};
use loop_node::LoopNodes;
use play_words::PlayNode;
use row_keeper::Keeper;
use std::alloc::Global;

/// The nodes of the play register, where no registered node has their name. Err is the status where they can't.
fn place_nodes<P: Keeper>(
    alloc: Global,
    hub: &mut KeptHub<P>,
    played: &[PlayNode],
) -> Result<Vec<NodeNo>, u8>
    requires open { IsOpen P.disk hub.old }
    requires fit { AllFit played.now }
    requires few { length played.now < 2 ^ 16 }
    ensures open { OnOk result (IsOpen P.disk hub.new) }
    ensures placed { IfOk result (λ own. Placed hub.old.hub.config 1 played.now
        (past hub.old.hub) own.items (past hub.new.hub)) }
    ensures went { WentAlong P.disk hub.old hub.new }
    ensures runs { OnOk result (Runs P.disk hub.old hub.new) }
    ensures breaks { OnErr result (RunsOrBreaks P.disk hub.old hub.new) }
    ensures later { P.faults hub.old.keeper ≤ P.faults hub.new.keeper }
    ensures keeper { IfErr result (λ s. s ≡ 8 →
        Rose (P.faults hub.old.keeper) (P.faults hub.new.keeper)) }
    ensures stops { IfErr result (λ s. IsStop s) }
{
    nothing_was_called(hub);
    let mut own = Vec::new(alloc);
    match place_all(alloc, hub, &mut own, 1, played) {
        Ok(true) => Ok(own),
        Ok(false) => Err(NO_MEMORY),
        Err(fault) => Err(fault_status(fault)),
    }
}

/// Serves the one connection by the hub, over a clock that stands still but for pauses.
fn serve_over<S: Source, K: Sink, P: Keeper>(
    alloc: Global,
    hub: &mut KeptHub<P>,
    own: &[NodeNo],
    nodes: &mut LoopNodes,
    input: &mut S,
    output: &mut K,
) -> u8
    requires { IsOpen P.disk hub.old }
    ensures served { ServedOrStops hub.old.hub.config own.now (past hub.old.hub) nodes.old result
        (link_of (S.view input.old) (K.view output.old))
        (link_of (S.view input.new) (K.view output.new))
        (past hub.new.hub) (P.disk hub.new.keeper) }
    ensures went { WentAlong P.disk hub.old hub.new }
    ensures runs { RunsOrBreaks P.disk hub.old hub.new }
    ensures later { P.faults hub.old.keeper ≤ P.faults hub.new.keeper }
    ensures tells { TellsKept result (P.faults hub.old.keeper) (P.faults hub.new.keeper)
        (link_of (S.view input.old) (K.view output.old))
        (link_of (S.view input.new) (K.view output.new)) }
{
    served_is_a_talk();
    let mut clock = MemClock::new(Moment(0));
    let mut link = Joined {
        source: input,
        sink: output,
    };
    let ended = serve_kept(alloc, hub, own, &mut link, nodes, &mut clock);
    end_status(ended)
}

/// Spends the tokens that are open, over a clock that stands still. Err is the status where they can't be.
fn settle_all<P: Keeper>(
    alloc: Global,
    hub: &mut KeptHub<P>,
    left: Left,
    nodes: &mut LoopNodes,
) -> Result<(), u8>
    requires open { IsOpen P.disk hub.old }
    requires left { HoldsAll (past hub.old.hub) left }
    ensures asks { QuitsOn reached_give nodes.old nodes.new }
    ensures open { OnOk result (IsOpen P.disk hub.new) }
    ensures none { OnOk result (NoneHeld (past hub.new.hub)) }
    ensures tickets { OnOk result (NoTicket (past hub.new.hub)) }
    ensures went { WentAlong P.disk hub.old hub.new }
    ensures later { P.faults hub.old.keeper ≤ P.faults hub.new.keeper }
    ensures keeper { IfErr result (λ s. s ≡ 8 →
        Rose (P.faults hub.old.keeper) (P.faults hub.new.keeper)) }
    ensures stops { IfErr result (λ s. IsStop s) }
{
    let mut clock = MemClock::new(Moment(0));
    match settle(alloc, hub, left, nodes, &mut clock) {
        Ok(()) => Ok(()),
        Err(fault) => Err(fault_status(fault)),
    }
}

/// Settles the hub, registers the nodes, and serves the one connection.
pub(crate) fn play_over<S: Source, K: Sink, P: Keeper>(
    alloc: Global,
    hub: &mut KeptHub<P>,
    left: Left,
    played: &[PlayNode],
    nodes: &mut LoopNodes,
    input: &mut S,
    output: &mut K,
) -> u8
    requires open { IsOpen P.disk hub.old }
    requires left { HoldsAll (past hub.old.hub) left }
    requires fit { AllFit played.now }
    requires few { length played.now < 2 ^ 16 }
    ensures plays { PlaysOrStops hub.old.hub.config played.now (past hub.old.hub)
        nodes.old result
        (link_of (S.view input.old) (K.view output.old))
        (link_of (S.view input.new) (K.view output.new))
        (past hub.new.hub) (P.disk hub.new.keeper) }
    ensures went { WentAlong P.disk hub.old hub.new }
    ensures runs { RunsSettled P.disk hub.old hub.new }
    ensures later { P.faults hub.old.keeper ≤ P.faults hub.new.keeper }
    ensures tells { TellsKept result (P.faults hub.old.keeper) (P.faults hub.new.keeper)
        (link_of (S.view input.old) (K.view output.old))
        (link_of (S.view input.new) (K.view output.new)) }
{
    ways_join::<P>();
    if let Err(status) = settle_all(alloc, hub, left, nodes) {
        return status;
    }
    match place_nodes(alloc, hub, played) {
        Ok(own) => serve_over(alloc, hub, own.as_slice(), nodes, input, output),
        Err(status) => status,
    }
}
