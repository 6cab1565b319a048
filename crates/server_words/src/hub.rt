//! The words of the hub's program.
ghost use Rattle.std.specs.Prelude.{◌≡◌, IfOk, IsErrOf, map, true};
ghost use Rattle.grid_types.specs.Config.{IsValid};
ghost use Rattle.clap.specs.Words.{app_of, found_of, is_simple_and_free, matches_of, rows_of};
ghost use Rattle.server_words.specs.HubOptions.{AreWithin, hub_command, hub_said, hub_told};
ghost use Rattle.server_words.specs.Options.{IsTaken, NumbersFit};
ghost use Rattle.server_words.specs.declared.options.WordsFault.TheVariants as fault;

use crate::host::hub_host;
use crate::journal::hub_journal;
use crate::options::{WordsFault, found, number, refusal_by, texts, truth};
use crate::tables::{HUB_OPTIONS, with_options};
use clap::{ArgMatches, Command};
use grid_types::{HubConfig, MOST_REQUESTS, Text};
use std::alloc::{AllocError, Global};

/// How `grid_hub` is called.
pub const HUB_USAGE: &str = "\
usage: grid_hub [OPTION VALUE]...
  --host ADDRESS                          IP address to listen at (0.0.0.0)
  --port PORT                             TCP port, 1 to 65535 (4444)
  --session-request-timeout SECONDS       wait of a new session, 1 to 86400 (300)
  --session-timeout SECONDS               an idle session ends, 10 to 86400 (300)
  --reject-unsupported-caps true|false    refuse what no node has (false)
  --queue-limit COUNT                     requests that may wait, 1 to 10000 (10000)
  --handlers COUNT                        threads for connections, 1 to 128 (64)
  --workers COUNT                         starts of sessions at once, 0 to 64 (4)
  --connections COUNT                     connections at once, 1 to 20000 (10000)
  --journal FILE                          keep a journal, and go on from it (none)
  --journal-sync each|second              onto the disk: each turn, or each second (second)
";

/// What the words of the hub's program say.
#[derive(Clone, Copy)]
pub struct HubWords {
    /// The TCP port to listen at.
    pub port: u16,
    /// What the hub is set up with.
    pub config: HubConfig,
    /// The most threads that drive connections.
    pub handlers: u32,
    /// How many threads start sessions beside the connections.
    pub workers: u32,
    /// The most connections that are served at once.
    pub connections: u32,
}

pub(crate) fn command<'a>(alloc: Global) -> Result<Command<'a>, AllocError>
    ensures app { IfOk result (λ c. app_of c ≡ hub_command) }
    ensures simple { IfOk result (λ c. is_simple_and_free (app_of c) ≡ true) }
{
    let bare = Command::new(alloc, "grid_hub").no_binary_name(true);
    with_options(alloc, bare, HUB_OPTIONS)
}

/// What the hub's command finds in the words.
pub(crate) fn hub_matches<'a>(
    alloc: Global,
    words: &'a [&'a str],
) -> Result<ArgMatches<'a>, WordsFault>
    ensures taken { IfOk result (λ _. IsTaken hub_command (map (λ s. s.now) words.entry.now)) }
    ensures rows { IfOk result (λ m. rows_of (found_of m)
        ≡ matches_of hub_command (map (λ s. s.now) words.entry.now)) }
    ensures numbers { IfOk result (λ m. NumbersFit hub_command (rows_of (found_of m))) }
    ensures refused { IsErrOf result fault.Refused
        → ¬ (IsTaken hub_command (map (λ s. s.now) words.entry.now)) }
{
    match command(alloc) {
        Ok(command) => found(command, words),
        Err(_) => Err(WordsFault::Memory),
    }
}

fn config(matches: &ArgMatches<'_>) -> HubConfig
    requires { NumbersFit hub_command (rows_of (found_of matches.now)) }
    ensures told { result ≡ (hub_told (rows_of (found_of matches.now))).config }
    ensures valid { IsValid result }
{
    HubConfig {
        timeout_ms: u64::from(number(matches, "session-request-timeout", 300)) * 1_000,
        idle_ms: u64::from(number(matches, "session-timeout", 300)) * 1_000,
        queue_requests: number(matches, "queue-limit", MOST_REQUESTS),
        reject_unsupported: truth(matches, "reject-unsupported-caps", false),
        ..HubConfig::default()
    }
}

fn told(matches: &ArgMatches<'_>) -> HubWords
    requires { NumbersFit hub_command (rows_of (found_of matches.now)) }
    ensures told { result ≡ hub_told (rows_of (found_of matches.now)) }
    ensures valid { IsValid result.config }
    ensures within { AreWithin result }
{
    HubWords {
        port: number(matches, "port", 4_444) as u16,
        config: config(matches),
        handlers: number(matches, "handlers", 64),
        workers: number(matches, "workers", 4),
        connections: number(matches, "connections", 10_000),
    }
}

/// Reads the words of the hub's program, of which the program's name is none. Seconds become
/// milliseconds, and what no option sets is as by default.
pub fn hub_words(alloc: Global, words: &[Text]) -> Result<HubWords, WordsFault>
    ensures taken { IfOk result (λ _. IsTaken hub_command words.now) }
    ensures said { IfOk result (λ w. w ≡ hub_said words.now) }
    ensures valid { IfOk result (λ w. IsValid w.config) }
    ensures within { IfOk result (λ w. AreWithin w) }
    ensures refused { IsErrOf result fault.Refused → ¬ (IsTaken hub_command words.now) }
{
    let texts = texts(alloc, words)?;
    match hub_matches(alloc, texts.as_slice()) {
        Ok(matches) => Ok(told(&matches)),
        Err(fault) => Err(fault),
    }
}

/// Why the hub's command doesn't take the words, where it doesn't.
fn refusal(alloc: Global, words: &[Text]) -> Result<(), Option<String>> {
    match texts(alloc, words) {
        Ok(texts) => refusal_by(alloc, command(alloc), texts.as_slice()),
        Err(_) => Err(None),
    }
}

/// Which value the command takes and the program doesn't.
fn value_reason(alloc: Global, words: &[Text]) -> Option<&'static str> {
    if let Err(WordsFault::Refused) = hub_host(alloc, words) {
        return Some("the value of --host is no IP address");
    }
    if let Err(WordsFault::Refused) = hub_journal(alloc, words) {
        return Some("the value of --journal-sync is neither each nor second");
    }
    None
}

/// What is wrong with words that the hub's program refuses, in one line for whoever called it. None where
/// they are taken, and where there is no memory to say it.
pub fn hub_reason(alloc: Global, words: &[Text]) -> Option<String> {
    match refusal(alloc, words) {
        Ok(()) => String::from_str(alloc, value_reason(alloc, words)?).ok(),
        Err(reason) => reason,
    }
}
