//! What the definitions say among themselves. The functions do nothing: their contracts are the laws.
ghost use Rattle.grid_teams_top.specs.Play.{TeamsAreApart, TeamsRunAlone};

use grid_play::one_talk;

/// Whatever blocks are served for whatever teams, one behind the other: those of one team are served as in a run of that team alone, each
/// from where the team's blocks before it left its hub, its nodes and its clock. And what goes out at their places is what goes out for the
/// list of these blocks alone.
pub fn teams_are_apart()
    ensures alone { TeamsRunAlone }
    ensures apart { TeamsAreApart }
{
    // A law of what lies below, which does nothing either.
    one_talk();
}
