//! How a run ends.
ghost use Rattle.std.specs.Prelude.{◌≡◌};
ghost use Rattle.grid_teams_run.specs.Statuses.{status_of};

/// Why no more blocks are served.
#[derive(Clone, Copy, Debug, PartialEq, Eq)]
pub enum RunEnd {
    /// The input ended between blocks.
    Between,
    /// A read failed.
    Read,
    /// A write failed.
    Write,
    /// Memory was wanted and there was none.
    Memory,
    /// As many bytes were read as are read at all.
    AtLimit,
    /// The input ended inside a block or its length.
    Inside,
    /// A block has more bytes than a block may have, or its answer more than a length tells.
    TooLong,
}

/// The status that tells it.
pub(crate) fn status_of(end: RunEnd) -> u8
    ensures { result ≡ status_of end }
{
    match end {
        RunEnd::Between => 0,
        RunEnd::Read => 3,
        RunEnd::Write => 4,
        RunEnd::Memory => 5,
        RunEnd::AtLimit => 6,
        RunEnd::Inside => 10,
        RunEnd::TooLong => 11,
    }
}
