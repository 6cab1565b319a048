//! How the node's program ends.
ghost use Rattle.std.specs.Prelude.{◌≡◌};
ghost use Rattle.grid_node.specs.Statuses.{code};

/// How the program ends.
#[derive(Clone, Copy, Debug, PartialEq, Eq)]
pub(crate) enum NodeEnd {
    /// The door was closed.
    Closed,
    /// The words don't fit.
    Refused,
    /// The door could not be bound, failed, or had no room for a gate.
    DoorFailed,
    /// Out of memory.
    NoMemory,
}

impl NodeEnd {
    /// The status that tells it.
    pub(crate) fn code(self) -> u8
        ensures { result ≡ code self }
    {
        match self {
            NodeEnd::Closed => 0,
            NodeEnd::Refused => 2,
            NodeEnd::DoorFailed => 3,
            NodeEnd::NoMemory => 5,
        }
    }
}
