//! The top call.
ghost use Rattle.std.specs.Prelude.{◌≡◌, ◌⊎◌, ◌↔◌, List};
ghost use Rattle.grid_outside.specs.Counts.{Rose};
ghost use Rattle.team_words.specs.declared.team_play.TeamPlay.{TeamPlay};
ghost use Rattle.team_words.specs.Words.{SaysTeams};
ghost use Rattle.grid_teams_run.specs.Running.{FitTeams, Ran, run_of};
ghost use Rattle.grid_teams_run.specs.Teams.{AllMayStart};

use crate::blocks::serve_all;
use crate::run_end::{RunEnd, status_of};
use crate::teams::start_all;
use grid_outside::{Sink, Source};
use grid_play::said_nodes_fit;
use grid_types::{NoMemory, Text};
use play_words::WordsFault;
use std::alloc::Global;
use team_words::{TeamPlay, read_teams, words_say_one_list};

/// The words do not fit.
const REFUSED: u8 = 2;

/// Memory was wanted and there was none.
const NO_MEMORY: u8 = 5;

/// Serves the blocks of the input by these teams.
fn run_said<S: Source, K: Sink>(
    alloc: Global,
    said: &[TeamPlay],
    input: &mut S,
    output: &mut K,
) -> u8
    requires { AllMayStart said.now }
    ensures { Ran said.now result
        (run_of (S.view input.old)
        (K.view output.old).taken (K.view output.old).faults)
        (run_of (S.view input.new)
        (K.view output.new).taken (K.view output.new).faults) }
{
    match start_all(alloc, said) {
        Ok(mut teams) => status_of(serve_all(alloc, teams.as_mut_slice(), input, output)),
        Err(NoMemory) => NO_MEMORY,
    }
}

/// Serves the blocks of the input by the teams that the words say, which stand behind the program's name: `teams`, then for each of 1
/// to 16 nodes the name of its team, its description and its slots. Each team has a hub, nodes in memory and a clock of its own. A block
/// is a connection, behind its length of four bytes, greatest byte first; what is written for it goes out the same way, in the same order.
///
/// The statuses: 0 the input ended between blocks; 2 the words do not fit, and nothing was read or written; 3 a read failed; 4 a write
/// failed; 5 memory was wanted; 6 as many bytes were read as are read at all (2^40); 10 the input ended inside a block or its length; 11
/// a block has more than 16,777,216 bytes, or what goes out for one more than 4,294,967,295. After 3, 5, 6, 10 and 11 the output has the
/// whole blocks before. What goes out for the blocks of one team is what goes out for the list of these alone:
/// [`blocks_are_apart`](crate::blocks_are_apart).
pub fn teams_run<S: Source, K: Sink>(
    alloc: Global,
    words: &[Text],
    input: &mut S,
    output: &mut K,
) -> u8
    ensures words { (result ≡ 2) ↔ ¬ (FitTeams words.now) }
    ensures untouched { result ≡ 2 → (input.new ≡ input.old) × (output.new ≡ output.old) }
    ensures ran { (said : List TeamPlay) → SaysTeams words.now said → Ran said result
        (run_of (S.view input.old)
        (K.view output.old).taken (K.view output.old).faults)
        (run_of (S.view input.new)
        (K.view output.new).taken (K.view output.new).faults) }
{
    // Laws of what lies below, which do nothing.
    words_say_one_list();
    said_nodes_fit();
    match read_teams(alloc, words) {
        Ok(said) => run_said(alloc, said.as_slice(), input, output),
        Err(WordsFault::Refused) => REFUSED,
        Err(WordsFault::Memory) => NO_MEMORY,
    }
}
