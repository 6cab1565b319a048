//! The table of live sessions. Calls of `history_laws` are for the proofs alone.
ghost use Rattle.std.specs.Prelude.{◌≡◌, ℕ, List, [], IsOk, OnOk, OnErr, false, MatchOption, not, nat_eq, nat_lt, nat_le, option_map, map, filter, ◌-◌, min};
ghost use Rattle.std.specs.List.{reduce};
ghost use Rattle.grid_types.specs.declared.entry.Change.TheVariants as change;
ghost use Rattle.grid_types.specs.Lists.{least};
ghost use Rattle.grid_types.specs.Nodes.{address_of};
ghost use Rattle.grid_types.specs.Sessions.{is_live, live, found_of};
ghost use Rattle.grid_types.specs.Tables.{Follows, FollowsGiven, Keeps, Tells};
ghost use Rattle.session_map.specs.Table.{Stands, HasRoomFor, NotesUse, RemovesPlace, RunsSince, is_quiet, noted_use, running, session_row, idle_bindings};

mod ahead;

use crate::session_key::SessionKey;
use grid_types::{
    Caps, EndCause, Found, Moment, NoMemory, NodeAddress, NodeNo, ReqNo, SessionId, SlotId,
    history_laws,
};
use indexmap::IndexMap;
use std::alloc::Global;
use std::collections::BTreeMap;

/// A live session, by its binding.
#[derive(Clone, Copy)]
pub struct LiveSession {
    session: SessionId,
    slot: SlotId,
    active: Moment,
}

/// Where a session is found, by its id.
#[derive(Clone, Copy)]
pub struct Place {
    slot: SlotId,
    address: NodeAddress,
    binding: ReqNo,
}

/// The least binding that has been idle for so many milliseconds.
fn least_idle_of(sessions: &IndexMap<ReqNo, LiveSession>, at: Moment, idle_ms: u64) -> Option<ReqNo>
    ensures { result ≡ reduce min (map (λ e. e.0)
        (filter (λ e. nat_le idle_ms (at.0 - e.1.active.0)) sessions.now.entries)) }
{
    sessions
        .iter()
        .filter(|(_, session)| at.0.saturating_sub(session.active.0) >= idle_ms)
        .map(|(binding, _)| *binding)
        .min()
}

/// The earliest of the moments at which the sessions were used last.
fn earliest_use_of(sessions: &IndexMap<ReqNo, LiveSession>) -> Option<u64>
    ensures { result ≡ reduce min (map (λ e. e.1.active.0) sessions.now.entries) }
{
    sessions.iter().map(|(_, session)| session.active.0).min()
}

/// The live sessions. A session is kept under its binding, which the hub numbers itself, and under its id, which
/// comes from a node. What `places` has for the session of `placeholder` is its room, and no place. No session was used
/// last before `quiet_since`, so that as a rule no session need be looked at to tell that none is idle.
#[derive(Drop)]
pub struct LiveMap {
    sessions: IndexMap<ReqNo, LiveSession>,
    places: BTreeMap<SessionKey, Place>,
    placeholder: Option<SessionId>,
    quiet_since: Moment,
}

impl LiveMap {
    /// No session is live. It takes no memory.
    pub fn new(alloc: Global) -> Self
        ensures { Stands result [] }
    {
        LiveMap {
            sessions: IndexMap::new(alloc),
            places: BTreeMap::new(alloc),
            placeholder: None,
            quiet_since: Moment(0),
        }
    }

    /// Where the session is live. It takes no memory.
    pub fn find(&self, session: &SessionId) -> Found
        ensures { Tells Stands self.now (λ H. result ≡ found_of (live H session.now)) }
    {
        if self.is_placeholder(session) {
            return Found::NoSession;
        }
        match self.places.get(&SessionKey::of(*session)) {
            Some(place) => Found::At {
                slot: place.slot,
                address: place.address,
                binding: place.binding,
            },
            None => Found::NoSession,
        }
    }

    /// A session was bound: it is live from now on. Without memory all stays as it is. After `ready` there is memory.
    pub fn bound(
        &mut self,
        request: ReqNo,
        slot: SlotId,
        session: SessionId,
        _caps: &Caps,
        at: Moment,
        address: NodeAddress,
    ) -> Result<(), NoMemory>
        ensures stands { OnOk result ((caller : ℕ) →
            FollowsGiven Stands (λ H. address ≡ address_of H slot.node) self.old self.new caller
            (change.Bound request slot session _caps.now at)) }
        ensures refused { OnErr result (Keeps Stands self.old self.new) }
        ensures sure { HasRoomFor self.old session → IsOk result }
    {
        history_laws();
        self.sessions.reserve(1)?;
        let place = Place {
            slot,
            address,
            binding: request,
        };
        if self.places.insert(SessionKey::of(session), place).is_err() {
            return Err(NoMemory);
        }
        self.fill_placeholder(&session);
        let live = LiveSession {
            session,
            slot,
            active: at,
        };
        self.sessions.insert(request, live).unwrap();
        self.note_use(at);
        Ok(())
    }

    /// A session was used. It takes no memory.
    pub fn touched(&mut self, binding: ReqNo, at: Moment)
        ensures { (caller : ℕ) → Follows Stands self.old self.new caller
            (change.Touched binding at) }
    {
        if let Some(session) = self.sessions.get_mut(&binding) {
            session.active = at;
        }
        self.note_use(at);
    }

    /// A session ended. It takes no memory.
    pub fn ended(&mut self, binding: ReqNo, _cause: EndCause, _at: Moment)
        ensures { (caller : ℕ) → Follows Stands self.old self.new caller
            (change.Ended binding _cause _at) }
    {
        history_laws();
        if let Some(ended) = self.sessions.swap_remove(&binding) {
            self.remove_place(ended.session);
        }
    }

    /// A node lapsed, and with it the sessions that ran there. It takes no memory.
    pub fn lapsed(&mut self, node: NodeNo, _at: Moment)
        ensures { (caller : ℕ) → Follows Stands self.old self.new caller (change.Lapsed node _at) }
    {
        history_laws();
        self.sessions.retain(
            |_binding: &ReqNo, session: &mut LiveSession| -> bool
                ensures { (result ≡ not (nat_eq session.old.slot.node node))
                    × (session.new ≡ session.old) }
            { session.slot.node != node },
        );
        self.places.retain(
            |_session: &SessionKey, place: &mut Place| -> bool
                ensures { (result ≡ not (nat_eq place.old.slot.node node))
                    × (place.new ≡ place.old) }
            { place.slot.node != node },
        );
    }

    /// The session that is live under the binding. It takes no memory.
    pub fn session_of(&self, binding: ReqNo) -> Option<SessionId>
        ensures { Tells Stands self.now (λ H. result
            ≡ option_map (λ x. x.session) (running H binding)) }
    {
        Some(self.sessions.get(&binding)?.session)
    }

    /// What is kept under the binding.
    fn row(&self, binding: ReqNo) -> Option<LiveSession>
        ensures { Tells Stands self.now (λ H. result ≡ session_row H binding) }
    {
        Some(*self.sessions.get(&binding)?)
    }

    /// The slot that the binding's session runs in and the moment of its last use, while the binding is live. It takes no
    /// memory.
    pub fn run_of(&self, binding: ReqNo) -> Option<(SlotId, Moment)>
        ensures { Tells Stands self.now (λ H.
            MatchOption result (is_live H binding ≡ false)
            (λ run. RunsSince H binding run.0 run.1)) }
    {
        history_laws();
        match self.row(binding) {
            Some(session) => Some((session.slot, session.active)),
            None => None,
        }
    }

    /// The least binding that has been idle for so many milliseconds. It takes no memory. Where some session may be
    /// idle, it looks at all of them.
    pub fn least_idle(&self, at: Moment, idle_ms: u64) -> Option<ReqNo>
        ensures { Tells Stands self.now (λ H. result
            ≡ least nat_lt (idle_bindings H idle_ms at.0)) }
    {
        history_laws();
        if self.is_quiet(at, idle_ms) {
            return None;
        }
        least_idle_of(&self.sessions, at, idle_ms)
    }

    /// Notes when the session that was used least of late was used, where `least_idle` has to look at the sessions at the
    /// moment, so that it looks at them again only once that one may be idle. It takes no memory. Where `least_idle`
    /// looks at no session, nor does it; else it looks at all of them.
    pub fn note_quiet(&mut self, at: Moment, idle_ms: u64)
        ensures kept { Keeps Stands self.old self.new }
        ensures noted { self.new.quiet_since.0 ≡ noted_use self.old at.0 idle_ms }
    {
        history_laws();
        if self.is_quiet(at, idle_ms) {
            return;
        }
        if let Some(earliest) = earliest_use_of(&self.sessions) {
            self.quiet_since = Moment(earliest);
        }
    }

    /// Whether what is noted tells that no session has been idle for so many milliseconds.
    fn is_quiet(&self, at: Moment, idle_ms: u64) -> bool
        ensures { result ≡ is_quiet self.now at.0 idle_ms }
    {
        at.0.saturating_sub(self.quiet_since.0) < idle_ms
    }

    fn remove_place(&mut self, session: SessionId)
        ensures { RemovesPlace self.old self.new session }
    {
        self.places.remove(&SessionKey::of(session));
    }

    fn note_use(&mut self, at: Moment)
        ensures { NotesUse self.old self.new at }
    {
        if at < self.quiet_since {
            self.quiet_since = at;
        }
    }
}
