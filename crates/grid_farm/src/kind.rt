//! The kinds of entries that are counted.
ghost use Rattle.std.specs.Prelude.{◌≡◌};
ghost use Rattle.grid_farm.specs.Kinds.{is_of};

use grid_types::{Change, EndCause};

/// What kind of entry is counted.
#[derive(Clone, Copy)]
pub(crate) enum Kind {
    Registered,
    Suspected,
    Draining,
    Removed,
    Lapsed,
    Queued,
    TimedOut,
    Cleared,
    /// A start failed.
    Failed,
    /// A start failed, and the request is not tried again.
    Refused,
    Created,
    Quit,
    Idle,
}

/// Whether the change is of the kind.
pub(crate) fn is_of(kind: Kind, change: &Change) -> bool
    ensures { result ≡ is_of kind change.now }
{
    match kind {
        Kind::Registered => matches!(change, Change::Registered { .. }),
        Kind::Suspected => matches!(change, Change::Suspected { .. }),
        Kind::Draining => matches!(change, Change::Draining { .. }),
        Kind::Removed => matches!(change, Change::Removed { .. }),
        Kind::Lapsed => matches!(change, Change::Lapsed { .. }),
        Kind::Queued => matches!(change, Change::Queued { .. }),
        Kind::TimedOut => matches!(change, Change::TimedOut { .. }),
        Kind::Cleared => matches!(change, Change::Cleared { .. }),
        Kind::Failed => matches!(change, Change::Failed { .. }),
        Kind::Refused => matches!(change, Change::Failed { last: true, .. }),
        Kind::Created => matches!(change, Change::Bound { .. }),
        Kind::Quit => matches!(
            change,
            Change::Ended {
                cause: EndCause::Quit,
                ..
            }
        ),
        Kind::Idle => matches!(
            change,
            Change::Ended {
                cause: EndCause::Idle,
                ..
            }
        ),
    }
}
