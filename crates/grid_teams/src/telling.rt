//! What a client is told that belongs to no team.
ghost use Rattle.grid_teams.specs.Telling.{TextsAre};

/// A head names no team.
pub const NOT_NAMED: &str = "no team is named";

/// A head names a team that is not there.
pub const NO_SUCH_TEAM: &str = "no team has this name";

/// The texts behind the names of messages, since definitions cite the names. It does nothing.
pub fn texts_are()
    ensures { TextsAre }
{}
