//! Teams with hubs that threads share, and passes of these.
ghost use Rattle.std.specs.Prelude.{◌≡◌, ◌<◌, IfSome, Some, length, slice_get};
ghost use Rattle.grid_teams.specs.Places.{AreDifferent, place_of};
ghost use Rattle.grid_teams_shared.specs.declared.teams.SharedTeam.{SharedTeam};
ghost use Rattle.grid_teams_shared.specs.Teams.{names_in, passes_of, teams_of};

use grid_teams::{Named, place_in};
use grid_types::Text;
use hub_cell::{Pass, SharedHub};
use std::sync::Wait;

/// A team: what connections name it by, and its hub. It is not `Drop`, as the hub is not.
pub struct SharedTeam {
    pub name: Text,
    pub hub: SharedHub,
}

impl Named for SharedTeam {
    ghost name = { λ t. t.name };

    fn name_bytes(&self) -> &[u8] {
        self.name.as_str().as_bytes()
    }
}

/// Teams in order, no two of one name. They are not `Drop`: end them by `close`.
pub struct SharedTeams {
    teams: Vec<SharedTeam>,
}

impl SharedTeams {
    /// The teams of the list. It takes no memory.
    pub fn new(list: Vec<SharedTeam>) -> SharedTeams
        requires { AreDifferent (names_in list.items) }
        ensures { teams_of result ≡ list.items }
    {
        SharedTeams { teams: list }
    }

    /// The place of the team with the name; None exactly where no team has it. It takes no memory.
    pub fn find(&self, name: &[u8]) -> Option<usize>
        ensures place { result ≡ place_of name.now (names_in (teams_of self.now)) }
        ensures within { IfSome result (λ place. place < length (teams_of self.now)) }
    {
        place_in(self.teams.as_slice(), name)
    }

    /// The hub of the team at a place.
    pub fn hub(&self, place: usize) -> &SharedHub
        requires { place < length (teams_of self.now) }
        ensures { (team : SharedTeam) × (slice_get (teams_of self.now) place ≡ Some team)
            × (result.now ≡ team.hub) }
    {
        &self.teams[place].hub
    }

    /// Ends each team's hub. It takes no memory. Passes that are left find nothing, and can do nothing more.
    pub fn close<R: Wait>(self, rt: &R) {
        let SharedTeams { mut teams } = self;
        for _ in 0..teams.len() {
            let SharedTeam { name, hub } = teams.take_last();
            hub.close(rt);
            drop(name);
        }
        teams.destroy_empty();
    }
}

/// A pass of each team's hub, in the order of the teams.
#[derive(Drop)]
pub struct TeamPasses {
    pub(crate) passes: Vec<Pass>,
}

impl TeamPasses {
    /// These passes. It takes no memory.
    pub fn new(passes: Vec<Pass>) -> TeamPasses
        ensures { passes_of result ≡ passes.items }
    {
        TeamPasses { passes }
    }

    /// The passes, in order.
    pub fn into_passes(self) -> Vec<Pass>
        ensures { result.items ≡ passes_of self }
    {
        self.passes
    }
}
