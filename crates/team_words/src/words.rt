//! All words.
ghost use Rattle.std.specs.Prelude.{◌≡◌, List, IfOk, IfErr};
ghost use Rattle.team_words.specs.declared.team_play.TeamPlay.{TeamPlay};
ghost use Rattle.team_words.specs.Words.{SaysCrews, SaysTeams};

use crate::nodes::{are_team_nodes, read_all};
use crate::team_play::TeamPlay;
use grid_types::Text;
use play_words::WordsFault;
use std::alloc::Global;

/// The most words of nodes, three for each of sixteen.
const MOST_NODE_WORDS: usize = 48;

/// The teams of 1 to 16 nodes.
fn read_crews(alloc: Global, words: &[Text]) -> Result<Vec<TeamPlay>, WordsFault>
    ensures ok { IfOk result (λ teams. SaysCrews words.now teams.items) }
    ensures refused { IfErr result (λ f. f ≡ WordsFault.Refused →
        (teams : List TeamPlay) → ¬ SaysCrews words.now teams) }
    ensures memory { IfErr result (λ f. f ≡ WordsFault.Memory →
        (teams : List TeamPlay) × SaysCrews words.now teams) }
{
    if words.is_empty() || words.len() > MOST_NODE_WORDS {
        return Err(WordsFault::Refused);
    }
    if !are_team_nodes(words) {
        return Err(WordsFault::Refused);
    }
    let mut teams = Vec::new(alloc);
    match read_all(alloc, words, &mut teams) {
        Ok(()) => Ok(teams),
        Err(fault) => Err(fault),
    }
}

/// The teams that the words say, which stand behind the program's name: `teams`, then for each of 1 to 16 nodes the name of its team,
/// its description and its slots. Teams stand in the order of their first nodes. Refused exactly where the words say none.
/// [`words_say_one_list`](crate::words_say_one_list).
pub fn read_teams(alloc: Global, words: &[Text]) -> Result<Vec<TeamPlay>, WordsFault>
    ensures ok { IfOk result (λ teams. SaysTeams words.now teams.items) }
    ensures refused { IfErr result (λ f. f ≡ WordsFault.Refused →
        (teams : List TeamPlay) → ¬ SaysTeams words.now teams) }
    ensures memory { IfErr result (λ f. f ≡ WordsFault.Memory →
        (teams : List TeamPlay) × SaysTeams words.now teams) }
{
    let [first, others @ ..] = words else {
        return Err(WordsFault::Refused);
    };
    if first.as_str() != "teams" {
        return Err(WordsFault::Refused);
    }
    read_crews(alloc, others)
}
