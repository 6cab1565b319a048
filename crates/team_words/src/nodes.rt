//! The words of the nodes, three for each.
ghost use Rattle.std.specs.Prelude.{◌≡◌, ◌∷◌, [], true, false, List, OnOk, IfErr};
ghost use Rattle.std.specs.List.{list_all};
ghost use Rattle.team_words.specs.Teams.{TeamNode, all_put};
ghost use Rattle.team_words.specs.Words.{SaysTeamNode, SaysTeamNodes, is_small_letter, is_team_name};

use crate::team_play::{TeamPlay, put};
use grid_types::Text;
use play_words::{WordsFault, is_node, read_node};
use std::alloc::Global;

fn are_small_letters(name: &[u8]) -> bool
    ensures { result ≡ list_all is_small_letter name.now }
{
    name.iter().all(|b| b.is_ascii_lowercase())
}

fn is_team_name(name: &[u8]) -> bool
    ensures { result ≡ is_team_name name.now }
{
    name.len() >= 1 && name.len() <= 16 && are_small_letters(name)
}

/// Whether the three words say a node of a team.
fn is_team_node(team: &Text, word: &Text, slots: &Text) -> bool
    ensures some { result ≡ true → (n : TeamNode) × SaysTeamNode team.now word.now slots.now n }
    ensures none { result ≡ false → (n : TeamNode) → ¬ SaysTeamNode team.now word.now slots.now n }
{
    if is_team_name(team.as_str().as_bytes()) {
        is_node(word.as_str(), slots.as_str())
    } else {
        false
    }
}

/// Whether the words say nodes of teams. It takes no memory.
pub(crate) fn are_team_nodes(words: &[Text]) -> bool
    ensures some { result ≡ true → (said : List TeamNode) × SaysTeamNodes words.now said }
    ensures none { result ≡ false → (said : List TeamNode) → ¬ SaysTeamNodes words.now said }
{
    match words {
        [] => true,
        [_] => false,
        [_, _] => false,
        [team, word, slots, others @ ..] => {
            if is_team_node(team, word, slots) {
                are_team_nodes(others)
            } else {
                false
            }
        }
    }
}

/// Puts the node that the three words say into its team.
fn read_one(
    alloc: Global,
    team: &Text,
    word: &Text,
    slots: &Text,
    teams: &mut Vec<TeamPlay>,
) -> Result<(), WordsFault>
    ensures ok { OnOk result ((n : TeamNode) × SaysTeamNode team.now word.now slots.now n
        × (teams.new.items ≡ all_put teams.old.items (n ∷ []))) }
    ensures refused { IfErr result (λ f. f ≡ WordsFault.Refused →
        (n : TeamNode) → ¬ SaysTeamNode team.now word.now slots.now n) }
{
    let name = team.as_str();
    let description = word.as_str();
    let count = slots.as_str();
    if !is_team_name(name.as_bytes()) {
        return Err(WordsFault::Refused);
    }
    let node = read_node(alloc, description, count)?;
    put(alloc, teams, name, node)?;
    Ok(())
}

/// Puts the nodes that the words say into their teams.
pub(crate) fn read_all(
    alloc: Global,
    words: &[Text],
    teams: &mut Vec<TeamPlay>,
) -> Result<(), WordsFault>
    ensures ok { OnOk result ((said : List TeamNode)
        × SaysTeamNodes words.now said × (teams.new.items ≡ all_put teams.old.items said)) }
    ensures refused { IfErr result (λ f. f ≡ WordsFault.Refused →
        (said : List TeamNode) → ¬ SaysTeamNodes words.now said) }
{
    match words {
        [] => Ok(()),
        [_] => Err(WordsFault::Refused),
        [_, _] => Err(WordsFault::Refused),
        [team, word, slots, others @ ..] => {
            read_one(alloc, team, word, slots, teams)?;
            read_all(alloc, others, teams)
        }
    }
}
