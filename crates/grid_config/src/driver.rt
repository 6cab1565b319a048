//! A driver behind a hub, by a configuration.
ghost use Rattle.std.specs.Prelude.{◌≡◌, ◌⊎◌, ℕ, List, Result};
ghost use Rattle.grid_config.specs.Configured.{Says};
ghost use Rattle.grid_config.specs.Rows.{attach_rows};
ghost use Rattle.grid_config.specs.declared.fault.ConfigFault.{ConfigFault};
ghost use Rattle.grid_outside.specs.Counts.{Rose};
ghost use Rattle.grid_config.specs.Driver.{HasLooked, MayAttach, refusal_status};
ghost use Rattle.grid_config.specs.Ran.{Ends, Ran};

use crate::input::{InputFault, read_text};
use crate::reading::attach_config_words;
use crate::statuses::{NO_MEMORY, READ_FAILED, fault_status};
use grid_attach::attach_main;
use grid_outside::{Clock, NodeLink, Source};
use grid_types::Text;
use server_words::AttachFault;
use std::alloc::Global;

/// Every look was made.
const ALL_LOOKED: u8 = 0;

/// The program does not take the words.
const REFUSED: u8 = 2;

fn refusal_status(fault: &AttachFault) -> u8
    ensures { result ≡ refusal_status fault.now }
{
    match fault {
        AttachFault::Memory => NO_MEMORY,
        AttachFault::Words(_) => REFUSED,
        AttachFault::Hub => REFUSED,
        AttachFault::Driver => REFUSED,
        AttachFault::Name => REFUSED,
        AttachFault::TooLong => REFUSED,
        AttachFault::Capability => REFUSED,
    }
}

/// Does what the program does for these words.
fn run_words<N: NodeLink, C: Clock>(
    alloc: Global,
    words: &[Text],
    nodes: &mut N,
    clock: &mut C,
    looks: u64,
) -> u8
    ensures { MayAttach words.now result
        (HasLooked N.gives C.gives C.view words.now looks nodes.old clock.old nodes.new clock.new)
        (nodes.new ≡ nodes.old) }
{
    match attach_main(alloc, words, nodes, clock, looks) {
        Ok(()) => ALL_LOOKED,
        Err(fault) => refusal_status(&fault),
    }
}

/// Does what the program does for the words that the text stands for.
fn run_text<N: NodeLink, C: Clock>(
    alloc: Global,
    text: &[u8],
    nodes: &mut N,
    clock: &mut C,
    looks: u64,
) -> u8
    ensures { (said : Result (List (List ℕ)) ConfigFault) × Says attach_rows text.now said
        × Ends (λ words. MayAttach words result
        (HasLooked N.gives C.gives C.view words looks nodes.old clock.old nodes.new clock.new)
        (nodes.new ≡ nodes.old))
        result (nodes.new ≡ nodes.old) said }
{
    match attach_config_words(alloc, text) {
        Ok(words) => run_words(alloc, words.words(), nodes, clock, looks),
        Err(fault) => fault_status(&fault),
    }
}

/// The program that puts a driver behind a hub, by a configuration: the input is a text of TOML. It reads the input to
/// its end, and then does what `attach_main` does for the words that the text stands for, by so many looks.
///
/// 0: every look was made, or the hub refused a beat and the text says that it ends then. 2: the program does not take the words. 5: out of memory. 9: the text is no configuration.
/// 10: a read failed. With 2, 9 and 10 no node and no hub was asked anything.
pub fn attach_config_main<S: Source, N: NodeLink, C: Clock>(
    alloc: Global,
    input: &mut S,
    nodes: &mut N,
    clock: &mut C,
    looks: u64,
) -> u8
    ensures { Ran attach_rows
        (λ words. MayAttach words result
        (HasLooked N.gives C.gives C.view words looks nodes.old clock.old nodes.new clock.new)
        (nodes.new ≡ nodes.old))
        result (nodes.new ≡ nodes.old) (S.view input.old) (S.view input.new) }
{
    match read_text(alloc, input) {
        Ok(text) => run_text(alloc, text.as_slice(), nodes, clock, looks),
        Err(InputFault::Read) => READ_FAILED,
        Err(InputFault::Memory) => NO_MEMORY,
    }
}
