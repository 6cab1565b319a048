//! Hub and node by a configuration.
ghost use Rattle.std.specs.Prelude.{◌≡◌, ◌↔◌, ◌⊎◌, ℕ, List, Result, IfSome, IfNone};
ghost use Rattle.grid_config.specs.Configured.{Says};
ghost use Rattle.grid_config.specs.Rows.{rows_of};
ghost use Rattle.grid_config.specs.declared.fault.ConfigFault.{ConfigFault};
ghost use Rattle.grid_config.specs.declared.rows.Mode.{Mode};
ghost use Rattle.grid_outside.specs.Counts.{Rose};
ghost use Rattle.hub_server.specs.Statuses.{MayNotBeNew};
ghost use Rattle.grid_config.specs.Ran.{Ends, Ran};
ghost use Rattle.grid_config.specs.Servers.{IsNamed, MayServe, NameOne};

use crate::input::{InputFault, read_text};
use crate::reading::config_words;
use crate::rows::Mode;
use crate::statuses::{NO_MEMORY, OTHER_WORDS, READ_FAILED, fault_status};
use grid_node::node_main;
use grid_outside::{Door, Source};
use grid_types::Text;
use hub_server::{Begins, NewHub, hub_main_by};
use std::alloc::Global;
use std::sync::Wait;
use std::thread::Threads;

/// Which program the words name.
fn named(words: &[Text]) -> Option<Mode>
    ensures some { IfSome result (λ m. IsNamed words.now m) }
    ensures none { IfNone result (¬ NameOne words.now) }
{
    let [word] = words else {
        return None;
    };
    if word.as_str() == "hub" {
        Some(Mode::Hub)
    } else if word.as_str() == "node" {
        Some(Mode::Node)
    } else {
        None
    }
}

/// Does what the program does for these words.
fn run_words<R: Threads + Wait + Sync, D: Door, B: Begins>(
    rt: &R,
    alloc: Global,
    mode: Mode,
    words: &[Text],
    door: &mut D,
    beginning: &mut B,
) -> u8
    ensures { MayServe B.may mode words.now result (D.view door.old) (D.view door.new) }
{
    match mode {
        Mode::Hub => hub_main_by(rt, alloc, words, door, beginning),
        Mode::Node => node_main(rt, alloc, words, door),
    }
}

/// Does what the program does for the words that the text stands for.
fn run_text<R: Threads + Wait + Sync, D: Door, B: Begins>(
    rt: &R,
    alloc: Global,
    mode: Mode,
    text: &[u8],
    door: &mut D,
    beginning: &mut B,
) -> u8
    ensures { (said : Result (List (List ℕ)) ConfigFault) × Says (rows_of mode) text.now said
        × Ends (λ words. MayServe B.may mode words result (D.view door.old) (D.view door.new))
        result (door.new ≡ door.old) said }
{
    match config_words(alloc, mode, text) {
        Ok(words) => run_words(rt, alloc, mode, words.words(), door, beginning),
        Err(fault) => fault_status(&fault),
    }
}

/// Runs the program by the configuration that the input is.
fn run_input<R: Threads + Wait + Sync, S: Source, D: Door, B: Begins>(
    rt: &R,
    alloc: Global,
    mode: Mode,
    input: &mut S,
    door: &mut D,
    beginning: &mut B,
) -> u8
    ensures { Ran (rows_of mode)
        (λ words. MayServe B.may mode words result (D.view door.old) (D.view door.new))
        result (door.new ≡ door.old) (S.view input.old) (S.view input.new) }
{
    match read_text(alloc, input) {
        Ok(text) => run_text(rt, alloc, mode, text.as_slice(), door, beginning),
        Err(InputFault::Read) => READ_FAILED,
        Err(InputFault::Memory) => NO_MEMORY,
    }
}

/// The program of the hub or of a node by a configuration: the word is `hub` or `node`, the input a text of TOML. It
/// reads the input to its end, and then does what `hub_main` or `node_main` does for the words that the text stands
/// for. It need not return.
///
/// 0: the door was closed. 2: the program does not take the words. 3: the door could not be bound, or failed. 5: out
/// of memory. 6: the text asks for a journal, which this hub does not keep. 8: other words; nothing was read. 9: the text is no
/// configuration. 10: a read failed. With 8, 9 and 10 the door was not touched.
pub fn config_main<R: Threads + Wait + Sync, S: Source, D: Door>(
    rt: &R,
    alloc: Global,
    words: &[Text],
    input: &mut S,
    door: &mut D,
) -> u8
    ensures words { (result ≡ 8) ↔ ¬ (NameOne words.now) }
    ensures untouched { result ≡ 8 → (input.new ≡ input.old) × (door.new ≡ door.old) }
    ensures ran { (m : Mode) → IsNamed words.now m → Ran (rows_of m)
        (λ said. MayServe MayNotBeNew m said result (D.view door.old) (D.view door.new))
        result (door.new ≡ door.old) (S.view input.old) (S.view input.new) }
{
    config_main_by(rt, alloc, words, input, door, &mut NewHub)
}

/// The same over a hub that `beginning` makes, as `hub_main_by` does.
///
/// 6: what keeps its journal failed. 7: another hub keeps the same journal. 11: what is kept is no journal from which a hub can
/// go on.
pub fn config_main_by<R: Threads + Wait + Sync, S: Source, D: Door, B: Begins>(
    rt: &R,
    alloc: Global,
    words: &[Text],
    input: &mut S,
    door: &mut D,
    beginning: &mut B,
) -> u8
    ensures words { (result ≡ 8) ↔ ¬ (NameOne words.now) }
    ensures untouched { result ≡ 8 → (input.new ≡ input.old) × (door.new ≡ door.old) }
    ensures ran { (m : Mode) → IsNamed words.now m → Ran (rows_of m)
        (λ said. MayServe B.may m said result (D.view door.old) (D.view door.new))
        result (door.new ≡ door.old) (S.view input.old) (S.view input.new) }
{
    match named(words) {
        Some(mode) => run_input(rt, alloc, mode, input, door, beginning),
        None => OTHER_WORDS,
    }
}
