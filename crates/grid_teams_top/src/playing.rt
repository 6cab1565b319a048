//! Teams that play in memory.
ghost use Rattle.std.specs.Prelude.{◌≡◌, ◌≤◌, ◌<◌, ◌^◌, false, IfOk, Ok, length};
ghost use Rattle.conn_script.specs.declared.wants.Served.{Served};
ghost use Rattle.grid_teams_top.specs.declared.playing.TheConstants.{MOST_BLOCK_BYTES};
ghost use Rattle.team_words.specs.declared.team_play.TeamPlay.{TeamPlay};
ghost use Rattle.grid_types.specs.Config.{default_config};
ghost use Rattle.grid_play.specs.Crew.{AllFit};
ghost use Rattle.grid_teams_top.specs.Play.{TeamServes, first_of};
ghost use Rattle.grid_teams_top.specs.Blocks.{PlaysFor, ServedAt, standing_of};

use crate::block::BlockLink;
use conn_script::fixed_limits;
use grid_outside::MemClock;
use grid_play::{crew_of, one_talk, talks_stand};
use grid_teams::Named;
use grid_types::{Bytes, HubConfig, Moment, NoMemory, NodeNo, Text};
use hub_core::LocalHub;
use local_driver::{ConnFault, Served, serve_local};
use loop_node::LoopNodes;
use std::alloc::Global;
use team_words::TeamPlay;

/// The most bytes of a block.
pub const MOST_BLOCK_BYTES: u32 = 16_777_216;

/// A team as it plays: what connections name it by, its hub, its nodes in memory with their numbers, and its clock.
#[derive(Drop)]
pub struct PlayingTeam {
    pub name: Text,
    pub hub: LocalHub,
    pub nodes: LoopNodes,
    pub numbers: Vec<NodeNo>,
    pub clock: MemClock,
}

impl Named for PlayingTeam {
    ghost name = { λ t. t.name };

    fn name_bytes(&self) -> &[u8] {
        self.name.as_str().as_bytes()
    }
}

fn usual_config() -> HubConfig
    ensures { result ≡ default_config }
{
    HubConfig::default()
}

/// A team whose nodes have registered at the moment 0, as of which its clock stands. Err is want of memory.
pub fn start(alloc: Global, said: &TeamPlay) -> Result<PlayingTeam, NoMemory>
    requires fit { AllFit said.now.nodes }
    requires few { length said.now.nodes < 2 ^ 16 }
    ensures plays { IfOk result (λ t. PlaysFor said.now t) }
    ensures stands { IfOk result (λ t. standing_of t ≡ first_of said.now) }
{
    // A law of what lies below, which does nothing.
    one_talk();
    let name = Text::of(alloc, said.name.as_str())?;
    let crew = crew_of(alloc, usual_config(), said.nodes.items())?;
    Ok(PlayingTeam {
        name,
        hub: crew.hub,
        nodes: crew.nodes,
        numbers: crew.numbers,
        clock: MemClock::new(Moment(0)),
    })
}

/// What was written on a connection that came to an end. Without memory on the way there is no answer.
fn answer_of(ended: Result<Served, ConnFault>, link: BlockLink<'_>) -> Result<Bytes, NoMemory>
    ensures { IfOk result (λ out. (served : Served) × (ended ≡ Ok served) × (served.short ≡ false)
        × (out ≡ link.entry.taken.items)) }
{
    match ended {
        Ok(served) => {
            if served.short {
                Err(NoMemory)
            } else {
                Ok(link.into_taken())
            }
        }
        Err(_) => Err(NoMemory),
    }
}

/// Serves a block by the team's own hub, nodes and clock.
pub(crate) fn serve_one(
    alloc: Global,
    team: &mut PlayingTeam,
    bytes: &[u8],
) -> Result<Bytes, NoMemory>
    requires { length bytes.now ≤ MOST_BLOCK_BYTES }
    ensures { IfOk result (λ out. (said : TeamPlay) → PlaysFor said team.old →
        TeamServes said (standing_of team.old) bytes.now out (standing_of team.new) × PlaysFor said team.new) }
{
    let mut link = BlockLink::new(alloc, bytes);
    let ended = serve_local(
        alloc,
        &mut team.hub,
        team.numbers.as_slice(),
        &mut link,
        &mut team.nodes,
        &mut team.clock,
    );
    // Laws of what lies below, which do nothing.
    one_talk();
    talks_stand();
    fixed_limits();
    answer_of(ended, link)
}

/// Serves a block by the team at a place. Every other team stays as it is.
pub(crate) fn serve_at(
    alloc: Global,
    teams: &mut [PlayingTeam],
    place: usize,
    bytes: &[u8],
) -> Result<Bytes, NoMemory>
    requires place { place < length teams.old }
    requires short { length bytes.now ≤ MOST_BLOCK_BYTES }
    ensures { IfOk result (λ out. ServedAt teams.old place bytes.now out teams.new) }
{
    serve_one(alloc, &mut teams[place], bytes)
}
