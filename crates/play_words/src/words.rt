//! All words.
ghost use Rattle.std.specs.Prelude.{◌≡◌, ◌<◌, ◌^◌, ℕ, List, IfOk, IfErr, IfSome, IfNone};
ghost use Rattle.std.specs.Option.{option_copied};
ghost use Rattle.grid_types.specs.declared.config.HubConfig.{HubConfig};
ghost use Rattle.play_words.specs.declared.play.PlayNode.{PlayNode};
ghost use Rattle.play_words.specs.Words.{Plays, IsNumbered, IsSimulate, SaysCrew};
ghost use Rattle.play_words.specs.Options.{AreParts};

use crate::nodes::{are_nodes, read_nodes};
use crate::number::large_number_of;
use crate::options::{option_of, refusal_of, timeout_of};
use crate::play::{PlayNodes, PlayWords, WordsFault};
use grid_types::{HubConfig, Text};
use std::alloc::Global;

/// The option that has requests refused which no slot matches.
const REFUSAL: &str = "--reject-unsupported-caps";

/// The option that says after how many seconds a request times out.
const TIMEOUT: &str = "--session-request-timeout";

/// The most words of nodes, two for each.
const MOST_NODE_WORDS: usize = 32;

/// The words of the nodes, and the values of the options.
#[derive(Clone, Copy)]
struct Parts<'a> {
    nodes: &'a [Text],
    refusal: Option<&'a str>,
    timeout: Option<&'a str>,
}

// The parts of words that begin with `play`.
fn parts_of(words: &[Text]) -> Option<Parts<'_>>
    ensures some { IfSome result (λ p.
        AreParts words.now p.nodes.now (option_copied p.refusal) (option_copied p.timeout)) }
    ensures none { IfNone result ((config : HubConfig) (nodes : List PlayNode) →
        ¬ Plays words.now config nodes) }
{
    let [play, others @ ..] = words else {
        return None;
    };
    if play.as_str() != "play" {
        return None;
    }
    let (front, timeout) = option_of(others, TIMEOUT);
    let (nodes, refusal) = option_of(front, REFUSAL);
    Some(Parts {
        nodes,
        refusal,
        timeout,
    })
}

// From 1 to 16 nodes.
fn read_crew(alloc: Global, words: &[Text]) -> Result<PlayNodes, WordsFault>
    ensures ok { IfOk result (λ nodes. SaysCrew words.now nodes) }
    ensures refused { IfErr result (λ f. f ≡ WordsFault.Refused →
        (nodes : List PlayNode) → ¬ SaysCrew words.now nodes) }
    ensures memory { IfErr result (λ f. f ≡ WordsFault.Memory → (nodes : List PlayNode)
        × SaysCrew words.now nodes) }
{
    if words.is_empty() || words.len() > MOST_NODE_WORDS {
        return Err(WordsFault::Refused);
    }
    if !are_nodes(words) {
        return Err(WordsFault::Refused);
    }
    let mut nodes = PlayNodes::new(alloc);
    match read_nodes(alloc, words, &mut nodes) {
        Ok(()) => Ok(nodes),
        Err(fault) => Err(fault),
    }
}

/// What the words of a play say, which stand behind the program's name: `play`, then 1 to 16 nodes with their slots, and
/// then the options. Refused exactly where they say nothing. [`words_say_one_play`](crate::words_say_one_play).
pub fn read_play(alloc: Global, words: &[Text]) -> Result<PlayWords, WordsFault>
    ensures ok { IfOk result (λ p. Plays words.now p.config p.nodes) }
    ensures refused { IfErr result (λ f. f ≡ WordsFault.Refused →
        (config : HubConfig) (nodes : List PlayNode) → ¬ Plays words.now config nodes) }
    ensures memory { IfErr result (λ f. f ≡ WordsFault.Memory →
        (config : HubConfig) × (nodes : List PlayNode) × Plays words.now config nodes) }
{
    let Some(parts) = parts_of(words) else {
        return Err(WordsFault::Refused);
    };
    let Some(reject_unsupported) = refusal_of(parts.refusal) else {
        return Err(WordsFault::Refused);
    };
    let Some(timeout_ms) = timeout_of(parts.timeout) else {
        return Err(WordsFault::Refused);
    };
    match read_crew(alloc, parts.nodes) {
        Ok(nodes) => Ok(PlayWords {
            config: HubConfig {
                timeout_ms,
                reject_unsupported,
                ..HubConfig::default()
            },
            nodes,
        }),
        Err(fault) => Err(fault),
    }
}

/// The number of two words: a name, and a decimal number below 2^64 without a sign or a leading zero.
pub fn read_numbered(words: &[Text], name: &str) -> Option<u64>
    ensures some { IfSome result (λ number. IsNumbered words.now name.now number) }
    ensures none { IfNone result ((number : ℕ) → number < 2 ^ 64 →
        ¬ IsNumbered words.now name.now number) }
{
    let [first, number] = words else {
        return None;
    };
    if first.as_str() != name {
        return None;
    }
    large_number_of(number.as_str())
}

/// The number of the words `simulate` and a number. See [`read_numbered`].
pub fn read_simulate(words: &[Text]) -> Option<u64>
    ensures some { IfSome result (λ number. IsSimulate words.now number) }
    ensures none { IfNone result ((number : ℕ) → number < 2 ^ 64 → ¬ IsSimulate words.now number) }
{
    read_numbered(words, "simulate")
}
