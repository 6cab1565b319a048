//! The teams that words say, each where its nodes have registered.
ghost use Rattle.std.specs.Prelude.{◌≡◌, ◌++◌, ◌∷◌, [], ℕ, List, IfOk, OnOk};
ghost use Rattle.team_words.specs.declared.team_play.TeamPlay.{TeamPlay};
ghost use Rattle.grid_teams_top.specs.Blocks.{AllPlay, standings};
ghost use Rattle.grid_teams_top.specs.Play.{first_standings};
ghost use Rattle.grid_teams_run.specs.Teams.{AllMayStart, AllStarted};

use grid_teams_top::{PlayingTeam, TeamPlay, start};
use grid_types::NoMemory;
use std::alloc::Global;

fn add(teams: &mut Vec<PlayingTeam>, team: PlayingTeam) -> Result<(), NoMemory>
    ensures { OnOk result (teams.new.items ≡ teams.old.items ++ team ∷ []) }
{
    match teams.push(team) {
        Ok(()) => Ok(()),
        Err(_) => Err(NoMemory),
    }
}

/// Starts the teams one by one, behind those that have started.
fn start_behind(
    alloc: Global,
    said: &[TeamPlay],
    teams: &mut Vec<PlayingTeam>,
) -> Result<(), NoMemory>
    requires { AllMayStart said.now }
    ensures { OnOk result ((more : List PlayingTeam)
        × AllStarted said.now more × (teams.new.items ≡ teams.old.items ++ more)) }
{
    match said {
        [] => Ok(()),
        [team, others @ ..] => {
            let started = start(alloc, team)?;
            add(teams, started)?;
            start_behind(alloc, others, teams)
        }
    }
}

/// Starts the teams: their nodes have registered at the moment 0, as of which their clocks stand. Err is want of memory.
pub(crate) fn start_all(alloc: Global, said: &[TeamPlay]) -> Result<Vec<PlayingTeam>, NoMemory>
    requires { AllMayStart said.now }
    ensures { IfOk result (λ teams. AllStarted said.now teams.items) }
{
    let mut teams = Vec::new(alloc);
    start_behind(alloc, said, &mut teams)?;
    Ok(teams)
}
