//! What the entries of a journal publish of the sessions, in order, and which session was at a slot last.
ghost use Rattle.std.specs.Prelude.{◌≡◌, ◌∷◌, ◌++◌, max, [], List, OnOk};
ghost use Rattle.grid_types.specs.declared.entry.Entry.{Entry};
ghost use Rattle.grid_types.specs.declared.names.SlotId.{SlotId};
ghost use Rattle.grid_types.specs.Slots.{slot_eq};
ghost use Rattle.grid_replay.specs.Lasts.{Leaves, LeavesOver, last_at, last_in};
ghost use Rattle.grid_ledger.specs.LedgerStands.{Hears};
ghost use Rattle.grid_replay.specs.Replays.{Adds, Ends, Follows, Puts, Shows, all_off, most_caller, removals_in};

use grid_ledger::{GridLedger, Listener};
use grid_types::{Change, NoMemory, ReqNo, SessionId, SlotId, history_laws};
use map_view::{Item, Items};
use reservation::SlotUse;
use std::alloc::Global;

/// Adds the removals of the sessions that run in the slots.
fn push_removals(uses: &[SlotUse], items: &mut Items) -> Result<(), NoMemory>
    ensures { OnOk result (items.new ≡ items.old ++ all_off uses.now) }
{
    for given in uses {
        if let SlotUse::Busy { session, .. } = given {
            if items.push(Item::Removal(*session)).is_err() {
                return Err(NoMemory);
            }
        }
    }
    Ok(())
}

/// A session was bound to the slot, or a start that failed left it there.
#[derive(Clone, Copy, Debug, PartialEq, Eq)]
struct Stay {
    slot: SlotId,
    session: SessionId,
}

/// Whether it is one at this slot.
fn is_at(slot: SlotId, stay: &Stay) -> bool
    ensures { result ≡ slot_eq stay.now.slot slot }
{
    stay.slot.node == slot.node && stay.slot.index == slot.index
}

/// The session of the last one at the slot.
fn last_in(slot: SlotId, stays: &[Stay]) -> Option<SessionId>
    ensures { result ≡ last_in slot stays.now }
{
    let mut last = None;
    for stay in stays {
        if is_at(slot, stay) {
            last = Some(stay.session);
        }
    }
    last
}

/// The items that a history publishes, the oldest first, the sessions that were at slots, in order, and the greatest number of
/// a caller, or 0.
#[derive(Debug, Drop)]
pub struct Replay {
    items: Items,
    stays: Vec<Stay>,
    most_caller: u64,
}

impl Replay {
    /// Nothing was published yet. It takes no memory.
    pub fn new(alloc: Global) -> Replay
        ensures { Shows result [] }
    {
        Replay {
            items: Items::new(alloc),
            stays: Vec::new(alloc),
            most_caller: 0,
        }
    }

    /// The items in order.
    pub fn items(&self) -> &[Item]
        ensures { result.now ≡ self.now.items }
    {
        self.items.items()
    }

    /// The session that was at the slot last: bound to it, or left there by a start that failed. Of a slot that is closing it is
    /// the one that is to end.
    pub fn last_at(&self, slot: SlotId) -> Option<SessionId>
        ensures { (H : List Entry) → Shows self.now H → result ≡ last_at H slot }
    {
        last_in(slot, self.stays.as_slice())
    }

    /// The greatest number of a caller, or 0 where there is none.
    pub fn most_caller(&self) -> u64
        ensures { (H : List Entry) → Shows self.now H → result ≡ most_caller H }
    {
        self.most_caller
    }

    /// The session is at the slot from now on.
    fn stay(&mut self, slot: SlotId, session: SessionId) -> Result<(), NoMemory>
        ensures items { self.new.items ≡ self.old.items }
        ensures stays { OnOk result (self.new.stays.items
            ≡ self.old.stays.items ++ (record { slot = slot; session = session }) ∷ []) }
        ensures most { self.new.most_caller ≡ self.old.most_caller }
    {
        match self.stays.push(Stay { slot, session }) {
            Ok(()) => Ok(()),
            Err(_) => Err(NoMemory),
        }
    }

    fn put(&mut self, item: Item) -> Result<(), NoMemory>
        ensures items { OnOk result (self.new.items ≡ self.old.items ++ item ∷ []) }
        ensures stays { self.new.stays.items ≡ self.old.stays.items }
        ensures most { self.new.most_caller ≡ self.old.most_caller }
    {
        match self.items.push(item) {
            Ok(()) => Ok(()),
            Err(_) => Err(NoMemory),
        }
    }

    /// The session is shown in the slot.
    fn show(
        &mut self,
        ledger: &GridLedger,
        request: ReqNo,
        slot: SlotId,
        session: SessionId,
    ) -> Result<(), NoMemory>
        ensures puts { OnOk result (Puts self.old self.new ledger.now request slot session) }
        ensures stays { self.new.stays.items ≡ self.old.stays.items }
        ensures most { self.new.most_caller ≡ self.old.most_caller }
    {
        match ledger.node_address(slot.node) {
            Some(address) => self.put(Item::Put {
                session,
                slot,
                address,
                binding: request,
            }),
            // This does not happen: a session is bound on a registered node alone.
            None => Err(NoMemory),
        }
    }

    /// The session of a live binding ends.
    fn remove(&mut self, ledger: &GridLedger, binding: ReqNo) -> Result<(), NoMemory>
        ensures ends { OnOk result (Ends self.old self.new ledger.now binding) }
        ensures stays { self.new.stays.items ≡ self.old.stays.items }
        ensures most { self.new.most_caller ≡ self.old.most_caller }
    {
        match ledger.session_of(binding) {
            Some(session) => self.put(Item::Removal(session)),
            // This does not happen: a session that ends is live.
            None => Err(NoMemory),
        }
    }

    /// The sessions that run in the slots end.
    fn remove_all(&mut self, uses: &[SlotUse]) -> Result<(), NoMemory>
        ensures adds { OnOk result (Adds self.old self.new (removals_in uses.now)) }
        ensures stays { self.new.stays.items ≡ self.old.stays.items }
        ensures most { self.new.most_caller ≡ self.old.most_caller }
    {
        push_removals(uses, &mut self.items)
    }

    /// The session is bound to the slot.
    fn bind(
        &mut self,
        ledger: &GridLedger,
        request: ReqNo,
        slot: SlotId,
        session: SessionId,
    ) -> Result<(), NoMemory>
        ensures puts { OnOk result (Puts self.old self.new ledger.now request slot session) }
        ensures leaves { OnOk result (Leaves self.old.stays.items self.new.stays.items
            slot session) }
        ensures most { self.new.most_caller ≡ self.old.most_caller }
    {
        self.show(ledger, request, slot, session)?;
        self.stay(slot, session)
    }

    /// A start failed at the slot, and perhaps left a session there.
    fn leave(&mut self, slot: SlotId, orphan: Option<SessionId>) -> Result<(), NoMemory>
        ensures items { self.new.items ≡ self.old.items }
        ensures leaves { OnOk result (LeavesOver self.old.stays.items self.new.stays.items
            slot orphan) }
        ensures most { self.new.most_caller ≡ self.old.most_caller }
    {
        match orphan {
            Some(session) => self.stay(slot, session),
            None => Ok(()),
        }
    }

    /// The change follows the history that the ledger stands for.
    fn follow(&mut self, ledger: &GridLedger, caller: u64, change: &Change) -> Result<(), NoMemory>
        ensures hears { OnOk result (Hears Follows self.old self.new ledger.now caller change.now) }
        ensures most { self.new.most_caller ≡ self.old.most_caller }
    {
        // For the proof alone: what a permitted change tells.
        history_laws();
        match change {
            Change::Bound {
                request,
                slot,
                session,
                ..
            } => self.bind(ledger, *request, *slot, *session),
            Change::Failed { slot, orphan, .. } => self.leave(*slot, *orphan),
            Change::Ended { binding, .. } => self.remove(ledger, *binding),
            Change::Lapsed { node, .. } => self.remove_all(ledger.uses(*node)),
            _ => Ok(()),
        }
    }

    /// An entry is the caller's.
    fn note_caller(&mut self, caller: u64)
        ensures items { self.new.items ≡ self.old.items }
        ensures stays { self.new.stays.items ≡ self.old.stays.items }
        ensures most { self.new.most_caller ≡ max caller self.old.most_caller }
    {
        self.most_caller = caller.max(self.most_caller);
    }
}

impl Listener for Replay {
    ghost use Rattle.grid_replay.specs.Replays.{Shows};

    ghost heard = { λ r H. Shows r H };

    fn hear(&mut self, ledger: &GridLedger, caller: u64, change: &Change) -> Result<(), NoMemory> {
        match self.follow(ledger, caller, change) {
            Ok(()) => {
                self.note_caller(caller);
                Ok(())
            }
            Err(fault) => Err(fault),
        }
    }
}
