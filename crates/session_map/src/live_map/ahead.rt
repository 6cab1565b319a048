//! Room for a session that is about to be bound.
ghost use Rattle.std.specs.Prelude.{◌≡◌, None, OnOk};
ghost use Rattle.grid_types.specs.Tables.{Keeps};
ghost use Rattle.session_map.specs.Names.{session_eq};
ghost use Rattle.session_map.specs.Table.{Stands, DropsPlaceholder, FillsPlaceholder, HasPlace, HasRoomFor, is_placeholder};

use super::{LiveMap, Place};
use crate::session_key::SessionKey;
use grid_types::{NoMemory, NodeAddress, ReqNo, SessionId, SlotId};

fn is_same(one: &SessionId, other: &SessionId) -> bool
    ensures { result ≡ session_eq one.now other.now }
{
    SessionKey::of(*one) == SessionKey::of(*other)
}

impl LiveMap {
    /// Takes the room for a session ahead, so that `bound` finds it where no other call comes between. A placeholder
    /// then stands where the session will be found, and nothing finds it. There is one placeholder at a time.
    pub fn ready(
        &mut self,
        request: ReqNo,
        slot: SlotId,
        session: SessionId,
        address: NodeAddress,
    ) -> Result<(), NoMemory>
        ensures keeps { Keeps Stands self.old self.new }
        ensures room { OnOk result (HasRoomFor self.new session) }
    {
        self.sessions.reserve(1)?;
        self.drop_placeholder();
        let place = Place {
            slot,
            address,
            binding: request,
        };
        self.put_placeholder(session, place)
    }

    /// A session that is live needs no placeholder: its place is written over.
    fn put_placeholder(&mut self, session: SessionId, place: Place) -> Result<(), NoMemory>
        requires { self.old.placeholder ≡ None }
        ensures keeps { Keeps Stands self.old self.new }
        ensures same { self.new.sessions ≡ self.old.sessions }
        ensures room { OnOk result (HasPlace self.new session) }
    {
        if self.places.contains_key(&SessionKey::of(session)) {
            return Ok(());
        }
        if self.places.insert(SessionKey::of(session), place).is_err() {
            return Err(NoMemory);
        }
        self.placeholder = Some(session);
        Ok(())
    }

    /// Whether only a placeholder stands for the session.
    pub(super) fn is_placeholder(&self, session: &SessionId) -> bool
        ensures { result ≡ is_placeholder self.now.placeholder session.now }
    {
        match self.placeholder {
            Some(awaited) => is_same(&awaited, session),
            None => false,
        }
    }

    /// The session has its place now, and no placeholder.
    pub(super) fn fill_placeholder(&mut self, session: &SessionId)
        ensures { FillsPlaceholder self.old self.new session.now }
    {
        if self.is_placeholder(session) {
            self.placeholder = None;
        }
    }

    fn drop_placeholder(&mut self)
        ensures { DropsPlaceholder self.old self.new }
    {
        if let Some(awaited) = self.placeholder {
            self.places.remove(&SessionKey::of(awaited));
            self.placeholder = None;
        }
    }
}
