//! The words of the nodes, two for each.
ghost use Rattle.std.specs.Prelude.{◌≡◌, ◌++◌, true, false, List, OnOk, IfOk, IfErr};
ghost use Rattle.play_words.specs.declared.play.PlayNode.{PlayNode};
ghost use Rattle.play_words.specs.Words.{SaysNode, SaysNodes};

use crate::node::node_of;
use crate::number::number_of;
use crate::play::{PlayNode, PlayNodes, WordsFault};
use grid_types::{MOST_SLOTS, Text};
use std::alloc::Global;

/// The node that the two words say: its description, and its slots. Refused exactly where they say none.
pub fn read_node(alloc: Global, word: &str, slots: &str) -> Result<PlayNode, WordsFault>
    ensures ok { IfOk result (λ node. SaysNode word.now slots.now node) }
    ensures refused { IfErr result (λ f. f ≡ WordsFault.Refused →
        (node : PlayNode) → ¬ SaysNode word.now slots.now node) }
{
    let Some(said) = node_of(word) else {
        return Err(WordsFault::Refused);
    };
    let Some(slots) = number_of(slots, MOST_SLOTS) else {
        return Err(WordsFault::Refused);
    };
    Ok(PlayNode {
        browser: Text::of(alloc, said.browser)?,
        version: Text::of(alloc, said.version)?,
        refuses: said.refuses,
        slots: slots as u16,
    })
}

/// Whether the two words say a node. It takes no memory.
pub fn is_node(word: &str, slots: &str) -> bool
    ensures some { result ≡ true → (node : PlayNode) × SaysNode word.now slots.now node }
    ensures none { result ≡ false → (node : PlayNode) → ¬ SaysNode word.now slots.now node }
{
    match node_of(word) {
        Some(_said) => match number_of(slots, MOST_SLOTS) {
            Some(_count) => true,
            None => false,
        },
        None => false,
    }
}

/// Whether the words say nodes. It takes no memory.
pub(crate) fn are_nodes(words: &[Text]) -> bool
    ensures some { result ≡ true → (said : List PlayNode) × SaysNodes words.now said }
    ensures none { result ≡ false → (said : List PlayNode) → ¬ SaysNodes words.now said }
{
    match words {
        [] => true,
        [_] => false,
        [word, slots, others @ ..] => {
            if is_node(word.as_str(), slots.as_str()) {
                are_nodes(others)
            } else {
                false
            }
        }
    }
}

/// Puts the nodes that the words say behind those that are there.
pub(crate) fn read_nodes(
    alloc: Global,
    words: &[Text],
    nodes: &mut PlayNodes,
) -> Result<(), WordsFault>
    ensures ok { OnOk result ((said : List PlayNode)
        × SaysNodes words.now said × (nodes.new ≡ nodes.old ++ said)) }
    ensures refused { IfErr result (λ f. f ≡ WordsFault.Refused →
        (said : List PlayNode) → ¬ SaysNodes words.now said) }
{
    match words {
        [] => Ok(()),
        [_] => Err(WordsFault::Refused),
        [word, slots, others @ ..] => {
            let node = read_node(alloc, word.as_str(), slots.as_str())?;
            if nodes.push(node).is_err() {
                return Err(WordsFault::Memory);
            }
            read_nodes(alloc, others, nodes)
        }
    }
}
