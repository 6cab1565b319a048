//! Which team a connection belongs to.
ghost use Rattle.std.specs.Prelude.{List, ℕ};
ghost use Rattle.http_frames.specs.Feeding.{Fed};
ghost use Rattle.http_frames.specs.declared.frames.FrameLimits.{FrameLimits};
ghost use Rattle.grid_teams.specs.Naming.{IsTeamName};

use http_frames::FrameReader;

/// The header that names a team.
pub const TEAM_HEADER: &str = "Grid-Team";

/// What the bytes of a connection say of its team.
#[derive(Clone, Copy, Debug)]
pub enum TeamName<'a> {
    /// Its head names this one.
    Named(&'a [u8]),
    /// Its head names none.
    Unnamed,
    /// No head is accepted, yet or at all.
    NoHead,
}

/// The team that the head of the reader's request names: by its first header of that name, without white space at both ends.
/// It takes no memory.
pub fn team_of(reader: &FrameReader) -> TeamName<'_>
    ensures { (limits : FrameLimits) (bytes : List ℕ) → Fed limits reader.now bytes →
        IsTeamName limits bytes result }
{
    match reader.head() {
        Some(head) => match head.find(TEAM_HEADER.as_bytes()) {
            Some(name) => TeamName::Named(name),
            None => TeamName::Unnamed,
        },
        None => TeamName::NoHead,
    }
}
