//! A list of sessions.
ghost use Rattle.std.specs.Prelude.{◌≡◌, [], ◌∷◌, ◌++◌, OnOk};

use grid_types::{NoMemory, SessionId};
use std::alloc::Global;
use std::marker::Model;

/// Ids of sessions in order, seen as their list.
#[derive(Debug, Drop)]
pub struct Sessions {
    sessions: Vec<SessionId>,
}

impl Model for Sessions {
    ghost use Rattle.std.specs.Prelude.{List, ℕ};

    ghost Value = { List (List ℕ) };

    ghost view = { λ s. s.sessions.items };
}

impl Sessions {
    /// No sessions. It takes no memory.
    pub fn new(alloc: Global) -> Self
        ensures { result ≡ [] }
    {
        Sessions {
            sessions: Vec::new(alloc),
        }
    }

    /// Puts the session last.
    pub fn push(&mut self, session: SessionId) -> Result<(), NoMemory>
        ensures { OnOk result (self.new ≡ self.old ++ session ∷ []) }
    {
        match self.sessions.push(session) {
            Ok(()) => Ok(()),
            Err(_) => Err(NoMemory),
        }
    }

    /// The ids in order.
    pub fn items(&self) -> &[SessionId]
        ensures { result.now ≡ self.now }
    {
        self.sessions.as_slice()
    }
}
