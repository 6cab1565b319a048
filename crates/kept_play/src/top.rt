//! The top call.
ghost use Rattle.std.specs.Prelude.{◌≡◌, ◌⊎◌, ◌↔◌, ◌≤◌, ◌<◌, ◌^◌, List, length};
ghost use Rattle.grid_types.specs.declared.config.HubConfig.{HubConfig};
ghost use Rattle.grid_types.specs.Config.{IsValid};
ghost use Rattle.grid_outside.specs.Counts.{Rose};
ghost use Rattle.grid_play.specs.BothEnds.{link_of};
ghost use Rattle.grid_play.specs.Crew.{AllFit};
ghost use Rattle.grid_play.specs.Ran.{FitPlay};
ghost use Rattle.kept_play.specs.Kept.{KeptOver, TellsKept};
ghost use Rattle.play_words.specs.declared.play.PlayNode.{PlayNode};
ghost use Rattle.play_words.specs.Words.{Plays};

use crate::playing::play_over;
use crate::statuses::{NO_MEMORY, REFUSED, open_status};
use grid_keeper::KeptHub;
use grid_outside::{Sink, Source};
use grid_play::{crew_of, said_nodes_fit};
use grid_types::{HubConfig, Text};
use play_words::{PlayNode, WordsFault, read_play, words_say_one_play};
use row_keeper::Keeper;
use std::alloc::Global;

/// Opens the hub over the keeper, and plays.
fn open_and_play<S: Source, K: Sink, P: Keeper>(
    alloc: Global,
    config: HubConfig,
    played: &[PlayNode],
    input: &mut S,
    output: &mut K,
    keeper: P,
) -> (u8, P)
    requires valid { IsValid config }
    requires fit { AllFit played.now }
    requires few { length played.now < 2 ^ 16 }
    ensures kept { KeptOver P.disk config played.now result.0
        (link_of (S.view input.old) (K.view output.old))
        (link_of (S.view input.new) (K.view output.new))
        keeper result.1 }
    ensures tells { TellsKept result.0 (P.faults keeper) (P.faults result.1)
        (link_of (S.view input.old) (K.view output.old))
        (link_of (S.view input.new) (K.view output.new)) }
{
    // The nodes of a hub in which these nodes have registered; that hub is let go.
    let Ok(crew) = crew_of(alloc, config, played) else {
        return (NO_MEMORY, keeper);
    };
    let mut nodes = crew.nodes;
    match KeptHub::open(alloc, config, keeper) {
        Ok((hub, left)) => {
            let mut hub = hub;
            let status = play_over(alloc, &mut hub, left, played, &mut nodes, input, output);
            (status, hub.into_keeper())
        }
        Err((fault, keeper)) => (open_status(fault), keeper),
    }
}

/// Plays what the words of a play say by a hub that is made again of the keeper's rows, and keeps its calls there. First the tokens
/// that were open are spent, then the nodes of the play register where no registered node has their name, and then one connection is
/// served with the input and the output. It gives the keeper back. The nodes are in memory: they begin anew, whatever ran there before.
///
/// The statuses are those of `run`; 8 the keeper failed; 9 a row that was kept can't be made again.
pub fn kept_run<S: Source, K: Sink, P: Keeper>(
    alloc: Global,
    words: &[Text],
    input: &mut S,
    output: &mut K,
    keeper: P,
) -> (u8, P)
    ensures words { (result.0 ≡ 2) ↔ ¬ (FitPlay words.now) }
    ensures untouched { result.0 ≡ 2 →
        (input.new ≡ input.old) × (output.new ≡ output.old) × (result.1 ≡ keeper) }
    ensures kept { (config : HubConfig) (nodes : List PlayNode) → Plays words.now config nodes →
        KeptOver P.disk config nodes result.0
        (link_of (S.view input.old) (K.view output.old))
        (link_of (S.view input.new) (K.view output.new))
        keeper result.1 }
    ensures keeper { result.0 ≡ 8 → Rose (P.faults keeper) (P.faults result.1) }
    ensures read { result.0 ≡ 3 → Rose (S.view input.old).faults (S.view input.new).faults }
    ensures write { result.0 ≡ 4 → Rose (K.view output.old).faults (K.view output.new).faults }
    ensures statuses { (result.0 ≡ 0)
        ⊎ (((2 ≤ result.0) × (result.0 < 7)) ⊎ ((7 < result.0) × (result.0 < 10))) }
{
    words_say_one_play();
    said_nodes_fit();
    match read_play(alloc, words) {
        Ok(said) => open_and_play(
            alloc,
            said.config,
            said.nodes.items(),
            input,
            output,
            keeper,
        ),
        Err(WordsFault::Refused) => (REFUSED, keeper),
        Err(WordsFault::Memory) => (NO_MEMORY, keeper),
    }
}
