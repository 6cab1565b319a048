//! The top call.
ghost use Rattle.std.specs.Prelude.{◌≡◌, ◌≢◌, ◌⊎◌, ◌↔◌, ◌≤◌, ◌<◌, ◌^◌, ℕ, List, length, IfOk, OnErr};
ghost use Rattle.grid_types.specs.declared.config.HubConfig.{HubConfig};
ghost use Rattle.grid_types.specs.Config.{IsValid};
ghost use Rattle.grid_outside.specs.Counts.{Rose};
ghost use Rattle.play_words.specs.declared.play.PlayNode.{PlayNode};
ghost use Rattle.play_words.specs.Words.{Plays, IsSimulate};
ghost use Rattle.grid_play.specs.BothEnds.{link_of};
ghost use Rattle.grid_play.specs.Crew.{AllFit};
ghost use Rattle.grid_play.specs.Ran.{Fit, FitPlay, Ran, ServedSo, Summed, end_status, status_of};

use crate::crew::crew_of;
use crate::joined::Joined;
use grid_outside::{MemClock, Sink, Source};
use grid_simulate::write_simulation;
use grid_types::{HubConfig, Moment, NoMemory, Text, legal_is_safe};
use local_driver::{ConnFault, End, Served, serve_local};
use play_words::{PlayNode, WordsFault, read_play, read_simulate, words_say_one_play};
use std::alloc::Global;

/// The input was read to its end, or to the request that ends the connection, and all was written.
const DONE: u8 = 0;

/// The words do not fit.
const REFUSED: u8 = 2;

/// A read failed.
const READ_FAILED: u8 = 3;

/// A write failed.
const WRITE_FAILED: u8 = 4;

/// Memory was wanted and there was none.
const NO_MEMORY: u8 = 5;

/// As many bytes were read as are read on a connection, and they did not end it.
const AT_LIMIT: u8 = 6;

/// Serves the one connection, by a hub in which the nodes have registered at the moment 0, over a clock that stands still but for
/// pauses. Err is out of memory for hub and nodes: nothing was read or written.
fn play<S: Source, K: Sink>(
    alloc: Global,
    config: HubConfig,
    played: &[PlayNode],
    input: &mut S,
    output: &mut K,
) -> Result<Result<Served, ConnFault>, NoMemory>
    requires valid { IsValid config }
    requires fit { AllFit played.now }
    requires few { length played.now < 2 ^ 16 }
    ensures served { IfOk result (λ ended. ServedSo config played.now ended
        (link_of (S.view input.old) (K.view output.old))
        (link_of (S.view input.new) (K.view output.new))) }
    ensures unmade { OnErr result ((input.new ≡ input.old) × (output.new ≡ output.old)) }
{
    let mut crew = crew_of(alloc, config, played)?;
    let mut clock = MemClock::new(Moment(0));
    let mut link = Joined {
        source: input,
        sink: output,
    };
    let ended = serve_local(
        alloc,
        &mut crew.hub,
        crew.numbers.as_slice(),
        &mut link,
        &mut crew.nodes,
        &mut clock,
    );
    legal_is_safe();
    Ok(ended)
}

fn end_status(end: End, short: bool) -> u8
    ensures { result ≡ end_status end short }
{
    match end {
        End::Limit => AT_LIMIT,
        _ => { if short { NO_MEMORY } else { DONE } }
    }
}

/// The status of a connection that ended so.
pub fn status_of(ended: Result<Served, ConnFault>) -> u8
    ensures { result ≡ status_of ended }
{
    match ended {
        Ok(served) => end_status(served.end, served.short),
        Err(ConnFault::Read) => READ_FAILED,
        Err(ConnFault::Write) => WRITE_FAILED,
        Err(ConnFault::Memory) => NO_MEMORY,
    }
}

/// Serves the one connection, and says by a status how it ended.
fn play_to_end<S: Source, K: Sink>(
    alloc: Global,
    config: HubConfig,
    played: &[PlayNode],
    input: &mut S,
    output: &mut K,
) -> u8
    requires valid { IsValid config }
    requires fit { AllFit played.now }
    requires few { length played.now < 2 ^ 16 }
    ensures ran { Ran config played.now result
        (link_of (S.view input.old) (K.view output.old))
        (link_of (S.view input.new) (K.view output.new)) }
    ensures read { result ≡ 3 → Rose (S.view input.old).faults (S.view input.new).faults }
    ensures write { result ≡ 4 → Rose (K.view output.old).faults (K.view output.new).faults }
    ensures statuses { (result ≡ 0) ⊎ ((2 < result) × (result < 7)) }
{
    match play(alloc, config, played, input, output) {
        Ok(ended) => status_of(ended),
        Err(NoMemory) => NO_MEMORY,
    }
}

/// Plays what the words say.
fn run_play<S: Source, K: Sink>(alloc: Global, words: &[Text], input: &mut S, output: &mut K) -> u8
    ensures words { (result ≡ 2) ↔ ¬ (FitPlay words.now) }
    ensures untouched { result ≡ 2 → (input.new ≡ input.old) × (output.new ≡ output.old) }
    ensures ran { (config : HubConfig) (nodes : List PlayNode) → Plays words.now config nodes → Ran
        config nodes result
        (link_of (S.view input.old) (K.view output.old))
        (link_of (S.view input.new) (K.view output.new)) }
    ensures read { result ≡ 3 → Rose (S.view input.old).faults (S.view input.new).faults }
    ensures write { result ≡ 4 → Rose (K.view output.old).faults (K.view output.new).faults }
    ensures statuses { (result ≡ 0) ⊎ ((2 ≤ result) × (result < 7)) }
{
    words_say_one_play();
    match read_play(alloc, words) {
        Ok(said) => play_to_end(alloc, said.config, said.nodes.items(), input, output),
        Err(WordsFault::Refused) => REFUSED,
        Err(WordsFault::Memory) => NO_MEMORY,
    }
}

/// Does what the words say, which stand behind the program's name. `play` serves one connection with the input and the output, by a hub
/// of its own whose nodes are in memory; `simulate` writes the summary of a number's simulation and reads nothing. Other words do not
/// fit, and nothing is read or written.
///
/// The statuses: 0 the input was read to its end or to the request that ends the connection, and all that was wanted was written, or the
/// summary was; 2 the words do not fit; 3 a read failed; 4 a write failed; 5 memory was wanted; 6 the most bytes were read that are read
/// on a connection. Where all that was asked is answered and the end of input was read, 5 tells that memory was wanted at a step after which
/// the connection went on. With status 0 what was done and written is a function of the words and of the bytes that were read:
/// `one_conversation`. How long a request for a session waits is limited: `sessions_are_bounded`.
pub fn run<S: Source, K: Sink>(alloc: Global, words: &[Text], input: &mut S, output: &mut K) -> u8
    ensures words { (result ≡ 2) ↔ ¬ (Fit words.now) }
    ensures untouched { result ≡ 2 → (input.new ≡ input.old) × (output.new ≡ output.old) }
    ensures ran { (config : HubConfig) (nodes : List PlayNode) → Plays words.now config nodes → Ran
        config nodes result
        (link_of (S.view input.old) (K.view output.old))
        (link_of (S.view input.new) (K.view output.new)) }
    ensures summed { (number : ℕ) → number < 2 ^ 64 → IsSimulate words.now number →
        Summed number result (K.view output.old) (K.view output.new) }
    ensures unread { (number : ℕ) → number < 2 ^ 64 → IsSimulate words.now number →
        input.new ≡ input.old }
    ensures read { result ≡ 3 → Rose (S.view input.old).faults (S.view input.new).faults }
    ensures write { result ≡ 4 → Rose (K.view output.old).faults (K.view output.new).faults }
    ensures statuses { (result ≡ 0) ⊎ ((2 ≤ result) × (result < 7)) }
{
    match read_simulate(words) {
        Some(number) => write_simulation(alloc, number, output),
        None => run_play(alloc, words, input, output),
    }
}
