//! What calls will do to the published map, told ahead, so that its room is taken before a change. None of these calls
//! changes what the hub stands for. Calls of `history_laws` are for the proofs alone.
ghost use Rattle.std.specs.Prelude.{◌≡◌, ℕ, ◌++◌, true, IfOk, OnOk};
ghost use Rattle.grid_types.specs.Calls.{Call};
ghost use Rattle.grid_types.specs.Nodes.{is_registered};
ghost use Rattle.grid_types.specs.LookupMap.{sessions_on};
ghost use Rattle.hub_core.specs.Serves.{MayCall};
ghost use Rattle.hub_core.specs.CoreStands.{CoreKeeps, CoreTells};
ghost use Rattle.hub_core.specs.Ahead.{Publishes, ReadiedTells, RoomIfBinds, busy_in, ends_session, removal_in, removals_of};

use crate::answers::Readied;
use crate::hub::HubCore;
use crate::session_list::Sessions;
use crate::tokens::Reservation;
use grid_types::{Caps, Moment, NoMemory, NodeNo, ReqNo, SessionId, history_laws};
use reservation::SlotUse;

/// Adds the sessions that run in the slots.
fn push_busy(uses: &[SlotUse], sessions: &mut Sessions) -> Result<(), NoMemory>
    ensures { OnOk result (sessions.new ≡ sessions.old ++ busy_in uses.now) }
{
    for held in uses {
        if let SlotUse::Busy { session, .. } = held {
            sessions.push(*session)?;
        }
    }
    Ok(())
}

impl HubCore {
    /// What `bind` will do with these arguments, where no other call comes between. It takes the memory for it ahead.
    pub fn ready_bind(
        &mut self,
        reservation: &Reservation,
        session: &SessionId,
        caps: &Caps,
        _at: Moment,
    ) -> Readied
        ensures keeps { CoreKeeps self.old self.new }
        ensures tells { CoreTells self.old (λ H. (caller : ℕ) →
            MayCall H caller (Call.bind reservation.now session.now caps.now) →
            ReadiedTells self.old.config H caller reservation.now session.now caps.now _at.0
            result) }
        ensures room { RoomIfBinds self.new session.now result }
    {
        history_laws();
        if self.refusal(reservation, session, caps).is_some() {
            return Readied::Refuses;
        }
        let request = reservation.request();
        let slot = reservation.slot();
        let address = reservation.address();
        match self.tables.ready(request, slot, *session, address) {
            Ok(()) => Readied::Binds,
            Err(_) => Readied::Memory,
        }
    }

    /// Whether `end` will end the session.
    pub fn ending(&self, session: &SessionId, binding: ReqNo) -> bool
        ensures { CoreTells self.now (λ H. (caller at : ℕ) →
            Publishes self.now.config H caller (Call.end session.now binding) at
            (removal_in (ends_session result session.now))) }
    {
        history_laws();
        match self.seat(session, binding) {
            Some(_seat) => true,
            None => false,
        }
    }

    /// The session that `expire` will end.
    pub fn expiring(&self, at: Moment) -> Option<SessionId>
        ensures { CoreTells self.now (λ H. (caller : ℕ) →
            Publishes self.now.config H caller Call.expire at.0 (removal_in result)) }
    {
        history_laws();
        let now = self.tables.raised(at);
        match self.next_idle(now) {
            Some(idle) => Some(idle.session),
            None => None,
        }
    }

    /// The sessions that `sweep` will end with their nodes, in the order of its entries.
    pub fn lapsing(&self, at: Moment) -> Result<Sessions, NoMemory>
        ensures { IfOk result (λ sessions. CoreTells self.now
            (λ H. (caller : ℕ) → Publishes self.now.config H caller Call.sweep at.0
            (removals_of sessions))) }
    {
        history_laws();
        let now = self.tables.raised(at);
        let mut sessions = Sessions::new(self.alloc);
        let mut from = 0;
        while let Some(node) = self.tables.next_lapsed(from, now, &self.config) {
            self.push_sessions(node, &mut sessions)?;
            from = u64::from(node) + 1;
        }
        Ok(sessions)
    }

    /// Adds the sessions that run on a node.
    fn push_sessions(&self, node: NodeNo, sessions: &mut Sessions) -> Result<(), NoMemory>
        ensures { OnOk result (CoreTells self.now
            (λ H. is_registered H node ≡ true →
            sessions.new ≡ sessions.old ++ sessions_on H node)) }
    {
        push_busy(self.tables.uses(node), sessions)
    }
}
