//! What the definitions say among themselves. The function does nothing: its contract is the law.
ghost use Rattle.grid_teams_run.specs.Laws.{BlocksAreApart};

use grid_teams_top::teams_are_apart;
use http_frames::one_head;

/// Of blocks of bytes that are served one behind the other: what goes out at the places of a team's blocks is what goes out for the list
/// of these blocks alone, and the team comes to stand at the same. So `teams_run` writes for each team what it writes for that team's
/// blocks alone.
pub fn blocks_are_apart()
    ensures { BlocksAreApart }
{
    // Laws of what lies below, which do nothing either.
    teams_are_apart();
    one_head();
}
