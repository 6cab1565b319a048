//! The words of the node's program.
ghost use Rattle.std.specs.Prelude.{◌≡◌, IfOk, IsErrOf, false, map, true};
ghost use Rattle.clap.specs.Words.{app_of, found_of, is_simple_and_free, matches_of, rows_of};
ghost use Rattle.grid_types.specs.Names.{is_node_address};
ghost use Rattle.server_words.specs.NodeOptions.{FitsNode, hub_address, node_command, node_said, node_told};
ghost use Rattle.server_words.specs.Options.{IsTaken, NumbersFit};
ghost use Rattle.server_words.specs.declared.options.WordsFault.TheVariants as fault;

use crate::options::{WordsFault, found, number, refusal_by, text, texts};
use crate::tables::{NODE_OPTIONS, with_options};
use clap::{ArgMatches, Command};
use grid_types::{NodeAddress, Text};
use std::alloc::{AllocError, Global};

/// How `grid_node` is called.
pub const NODE_USAGE: &str = "\
usage: grid_node [OPTION VALUE]...
  --hub HOST:PORT    address of the hub (127.0.0.1:4444)
  --port PORT        TCP port, 1 to 65535 (5555)
  --name NAME        name of the node at the hub (loop)
  --browser NAME     browser of its slots (chrome)
  --slots COUNT      sessions at once, 1 to 64 (1)
";

/// What the words of the node's program say.
#[derive(Drop)]
pub struct NodeWords {
    /// Where the hub listens.
    pub hub: NodeAddress,
    /// The TCP port to listen at.
    pub port: u16,
    /// The node's name at the hub.
    pub name: Text,
    /// The name of the browser of all its slots.
    pub browser: Text,
    /// How many slots it has.
    pub slots: u32,
}

fn command<'a>(alloc: Global) -> Result<Command<'a>, AllocError>
    ensures app { IfOk result (λ c. app_of c ≡ node_command) }
    ensures simple { IfOk result (λ c. is_simple_and_free (app_of c) ≡ true) }
{
    let bare = Command::new(alloc, "grid_node").no_binary_name(true);
    with_options(alloc, bare, NODE_OPTIONS)
}

/// What the node's command finds in the words.
fn node_matches<'a>(alloc: Global, words: &'a [&'a str]) -> Result<ArgMatches<'a>, WordsFault>
    ensures taken { IfOk result (λ _. IsTaken node_command (map (λ s. s.now) words.entry.now)) }
    ensures rows { IfOk result (λ m. rows_of (found_of m)
        ≡ matches_of node_command (map (λ s. s.now) words.entry.now)) }
    ensures numbers { IfOk result (λ m. NumbersFit node_command (rows_of (found_of m))) }
    ensures refused { IsErrOf result fault.Refused
        → ¬ (IsTaken node_command (map (λ s. s.now) words.entry.now)) }
{
    match command(alloc) {
        Ok(command) => found(command, words),
        Err(_) => Err(WordsFault::Memory),
    }
}

fn told(alloc: Global, matches: &ArgMatches<'_>) -> Result<NodeWords, WordsFault>
    requires { NumbersFit node_command (rows_of (found_of matches.now)) }
    ensures told { IfOk result (λ w. w ≡ node_told (rows_of (found_of matches.now))) }
    ensures address { IfOk result (λ _.
        is_node_address (hub_address (rows_of (found_of matches.now))) ≡ true) }
    ensures refused { IsErrOf result fault.Refused
        → is_node_address (hub_address (rows_of (found_of matches.now))) ≡ false }
{
    let hub = text(matches, "hub", "127.0.0.1:4444");
    let Some(hub) = NodeAddress::from_bytes(hub.as_bytes()) else {
        return Err(WordsFault::Refused);
    };
    Ok(NodeWords {
        hub,
        port: number(matches, "port", 5_555) as u16,
        name: Text::of(alloc, text(matches, "name", "loop"))?,
        browser: Text::of(alloc, text(matches, "browser", "chrome"))?,
        slots: number(matches, "slots", 1),
    })
}

/// Reads the words of the node's program, of which the program's name is none. A hub's address
/// that is no node address is refused like a word that the program does not know.
pub fn node_words(alloc: Global, words: &[Text]) -> Result<NodeWords, WordsFault>
    ensures fits { IfOk result (λ _. FitsNode words.now) }
    ensures said { IfOk result (λ w. w ≡ node_said words.now) }
    ensures refused { IsErrOf result fault.Refused → ¬ (FitsNode words.now) }
{
    let texts = texts(alloc, words)?;
    let matches = node_matches(alloc, texts.as_slice())?;
    told(alloc, &matches)
}

/// Why the node's command doesn't take the words, where it doesn't.
fn refusal(alloc: Global, words: &[Text]) -> Result<(), Option<String>> {
    match texts(alloc, words) {
        Ok(texts) => refusal_by(alloc, command(alloc), texts.as_slice()),
        Err(_) => Err(None),
    }
}

/// What is wrong with words that the node's program refuses, in one line for whoever called it. None where
/// they are taken, and where there is no memory to say it.
pub fn node_reason(alloc: Global, words: &[Text]) -> Option<String> {
    match refusal(alloc, words) {
        // What the command takes and the program doesn't is the hub's address.
        Ok(()) => match node_words(alloc, words) {
            Err(WordsFault::Refused) => {
                String::from_str(alloc, "the value of --hub is no address").ok()
            }
            _ => None,
        },
        Err(reason) => reason,
    }
}
