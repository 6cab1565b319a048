//! A team that words say.
ghost use Rattle.std.specs.Prelude.{◌≡◌, ◌++◌, ◌∷◌, [], OnOk};
ghost use Rattle.team_words.specs.Teams.{put_in, team_of, with_node};

use grid_teams::{Named, place_in};
use grid_types::{NoMemory, Text};
use play_words::{PlayNode, PlayNodes};
use std::alloc::Global;

/// A team that the words ask for: its name, and its nodes in order.
#[derive(Debug, Drop)]
pub struct TeamPlay {
    pub name: Text,
    pub nodes: PlayNodes,
}

impl Named for TeamPlay {
    ghost name = { λ t. t.name };

    fn name_bytes(&self) -> &[u8] {
        self.name.as_str().as_bytes()
    }
}

fn push_node(team: &mut TeamPlay, node: PlayNode) -> Result<(), NoMemory>
    ensures { OnOk result (team.new ≡ with_node team.old node) }
{
    match team.nodes.push(node) {
        Ok(()) => Ok(()),
        Err(_) => Err(NoMemory),
    }
}

fn push_team(
    alloc: Global,
    teams: &mut Vec<TeamPlay>,
    name: &str,
    node: PlayNode,
) -> Result<(), NoMemory>
    ensures { OnOk result (teams.new.items ≡ teams.old.items ++ team_of name.now node ∷ []) }
{
    let mut team = TeamPlay {
        name: Text::of(alloc, name)?,
        nodes: PlayNodes::new(alloc),
    };
    push_node(&mut team, node)?;
    match teams.push(team) {
        Ok(()) => Ok(()),
        Err(_) => Err(NoMemory),
    }
}

/// Puts the node last in the team of that name, which is put last where there is none.
pub(crate) fn put(
    alloc: Global,
    teams: &mut Vec<TeamPlay>,
    name: &str,
    node: PlayNode,
) -> Result<(), NoMemory>
    ensures { OnOk result (teams.new.items ≡ put_in teams.old.items name.now node) }
{
    match place_in(teams.as_slice(), name.as_bytes()) {
        Some(place) => push_node(&mut teams[place], node),
        None => push_team(alloc, teams, name, node),
    }
}
