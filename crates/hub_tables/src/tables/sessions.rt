//! What the tables tell of live sessions, and room for one more.
ghost use Rattle.std.specs.Prelude.{◌≡◌, nat_lt, option_map, OnOk};
ghost use Rattle.grid_types.specs.HubAnswers.{idle_bindings};
ghost use Rattle.grid_types.specs.Lists.{least};
ghost use Rattle.grid_types.specs.Sessions.{found_of, live};
ghost use Rattle.session_map.specs.Table.{running};
ghost use Rattle.hub_tables.specs.Tables.{HasRoomFor, Keeps, NotesUses, Tells};

use crate::tables::HubTables;
use grid_types::{Found, HubConfig, Moment, NoMemory, NodeAddress, ReqNo, SessionId, SlotId};

impl HubTables {
    /// Where the session is live. It takes no memory.
    pub fn find(&self, session: &SessionId) -> Found
        ensures { Tells self.now (λ H. result ≡ found_of (live H session.now)) }
    {
        self.sessions.find(session)
    }

    /// The session that is live under the binding. It takes no memory.
    pub fn session_of(&self, binding: ReqNo) -> Option<SessionId>
        ensures { Tells self.now (λ H. result ≡ option_map (λ x. x.session) (running H binding)) }
    {
        self.sessions.session_of(binding)
    }

    /// The least binding that has been idle for too long. It takes no memory.
    pub fn least_idle(&self, now: Moment, config: &HubConfig) -> Option<ReqNo>
        ensures { Tells self.now (λ H. result ≡ least nat_lt (idle_bindings config.now H now.0)) }
    {
        self.sessions.least_idle(now, config.idle_ms)
    }

    /// Notes when the session that was used least of late was used, where `least_idle` has to look at the sessions, so that
    /// it looks at them again only once that one may be idle. It takes no memory.
    pub fn note_uses(&mut self, now: Moment, config: &HubConfig)
        ensures kept { Keeps self.old self.new }
        ensures noted { NotesUses self.old self.new now.0 config.now }
    {
        self.sessions.note_quiet(now, config.idle_ms);
    }

    /// Takes the room for a session ahead, so that `note_bound` finds it where no other call comes between.
    pub fn ready(
        &mut self,
        request: ReqNo,
        slot: SlotId,
        session: SessionId,
        address: NodeAddress,
    ) -> Result<(), NoMemory>
        ensures keeps { Keeps self.old self.new }
        ensures room { OnOk result (HasRoomFor self.new session) }
    {
        self.sessions.ready(request, slot, session, address)
    }
}
