//! The table of nodes. Calls of `history_laws` are for the proofs alone.
ghost use Rattle.std.specs.Prelude.{◌≡◌, ◌+◌, ℕ, [], true, false, ◌&&◌, not, if◌then◌else◌, map, min, IsOk, OnOk, OnErr, Some, None, option_map, length, slice_get, find};
ghost use Rattle.std.specs.List.{list_any, reduce};
ghost use Rattle.std.specs.Option.{option_copied};
ghost use Rattle.grid_types.specs.declared.entry.Change.TheVariants as change;
ghost use Rattle.grid_types.specs.History.{nodes};
ghost use Rattle.grid_types.specs.Lists.{kept};
ghost use Rattle.grid_types.specs.declared.view.Standing.TheVariants as standing;
ghost use Rattle.grid_types.specs.Fit.{has_sessions_left, is_below_limit};
ghost use Rattle.grid_types.specs.Nodes.{is_registered, is_base_up, is_draining, is_suspect, is_up, is_spent, is_at_limit, standing_of, beat_of, registration_of, stands_draining, stands_registered, stands_up};
ghost use Rattle.grid_types.specs.Permitted.{is_named};
ghost use Rattle.grid_types.specs.Slots.{held_count, is_listed};
ghost use Rattle.grid_types.specs.Tables.{Follows, Keeps, KeepsWhere, Tells};
ghost use Rattle.node_registry.specs.Table.{Stands, HasRoom, NoneDrains, NoneSilent, NoneUnheard, NotesQuiet, knows, last_turn, known, heard_in, is_draining_row, is_heard, is_quiet, is_row_named, is_trusted, most_bound, noted_drain, noted_heard, noted_sign, sign_in, signed};
ghost use Rattle.node_registry.specs.Rows.{OfNode};

mod by_index;

use grid_types::{
    Caps, Moment, NoMemory, NodeNo, Registration, ReqNo, SessionId, SlotId, Standing, Text,
    history_laws,
};
use indexmap::IndexMap;
use std::alloc::Global;

/// A node, as it registered and as it stands.
#[derive(Drop)]
pub struct NodeRow {
    registration: Registration,
    /// How it stands beside what is suspected: never Suspect.
    base: Standing,
    /// It was suspected, and has not beaten since.
    suspected: bool,
    /// How many sessions were bound on it; the count stands still at its type's end.
    bound: u64,
    beat: Moment,
    /// The number of its last reservation, 0 where there was none.
    turn: u64,
}

impl NodeRow {
    fn is_registered(&self) -> bool
        ensures { result ≡ stands_registered (Some self.now.base) }
    {
        match self.base {
            Standing::Up | Standing::Draining => true,
            Standing::Down | Standing::Gone | Standing::Suspect => false,
        }
    }

    fn is_base_up(&self) -> bool
        ensures { result ≡ stands_up (Some self.now.base) }
    {
        matches!(self.base, Standing::Up)
    }

    fn is_draining(&self) -> bool
        ensures { result ≡ stands_draining (Some self.now.base) }
    {
        matches!(self.base, Standing::Draining)
    }

    fn is_suspect(&self) -> bool
        ensures { result ≡ (stands_registered (Some self.now.base) && self.now.suspected) }
    {
        self.is_registered() && self.suspected
    }

    fn is_heard(&self) -> bool
        ensures { result ≡ (stands_registered (Some self.now.base) && not self.now.suspected) }
    {
        self.is_registered() && !self.suspected
    }

    /// When a registered node gave its last sign, else the last moment that there is.
    fn last_sign(&self) -> u64
        ensures { result ≡ sign_in self.now }
    {
        if self.is_registered() {
            self.beat.0
        } else {
            u64::MAX
        }
    }

    /// The same of a registered node that is not suspect.
    fn last_heard(&self) -> u64
        ensures { result ≡ heard_in self.now }
    {
        if self.is_heard() {
            self.beat.0
        } else {
            u64::MAX
        }
    }

    /// Suspect while the node is suspect, else its base.
    fn standing(&self) -> Standing
        ensures { result ≡ (if stands_registered (Some self.now.base) && self.now.suspected then
            standing.Suspect else self.now.base) }
    {
        if self.is_suspect() {
            Standing::Suspect
        } else {
            self.base
        }
    }

    /// Whether the node takes new sessions: its base is Up, and it is not suspect.
    pub fn is_up(&self) -> bool
        ensures { OfNode self.now (λ H n. result ≡ is_up H n) }
    {
        self.is_base_up() && !self.suspected
    }

    /// Whether as many sessions were bound on the node as it drains after.
    fn is_spent(&self) -> bool
        ensures { (count : ℕ) → self.now.bound ≡ min count most_bound →
            result ≡ is_at_limit self.now.registration.drain_after count }
    {
        match self.registration.drain_after {
            Some(limit) => self.bound == u64::from(limit),
            None => false,
        }
    }

    /// Whether the sessions that were bound on the node and its held slots, so many, are together fewer than it drains after.
    pub fn has_sessions_left(&self, held: u16) -> bool
        ensures { OfNode self.now (λ H n. held ≡ held_count H n → result ≡ has_sessions_left H n) }
    {
        match self.registration.drain_after {
            Some(limit) => self.bound.saturating_add(u64::from(held)) < u64::from(limit),
            None => true,
        }
    }
}

/// The first registered node of this name.
fn first_named(nodes: &IndexMap<NodeNo, NodeRow>, name: &Text) -> Option<NodeNo>
    ensures { result ≡ option_map (λ e. e.0) (find (is_row_named name.now) nodes.now.entries) }
{
    let (node, _) = nodes.iter().find(|(_, row)| {
        row.is_registered() && row.registration.name.as_str() == name.as_str()
    })?;
    Some(*node)
}

/// The earliest of the moments at which registered nodes gave their last sign.
fn earliest_sign_of(nodes: &IndexMap<NodeNo, NodeRow>) -> Option<u64>
    ensures { result ≡ reduce min (map (λ e. sign_in e.1) nodes.now.entries) }
{
    nodes.iter().map(|(_, row)| row.last_sign()).min()
}

/// The same of those that are not suspect.
fn earliest_heard_of(nodes: &IndexMap<NodeNo, NodeRow>) -> Option<u64>
    ensures { result ≡ reduce min (map (λ e. heard_in e.1) nodes.now.entries) }
{
    nodes.iter().map(|(_, row)| row.last_heard()).min()
}

/// Whether one of the nodes drains.
fn some_drain_of(nodes: &IndexMap<NodeNo, NodeRow>) -> bool
    ensures { result ≡ list_any is_draining_row nodes.now.entries }
{
    nodes.iter().any(|(_, row)| row.is_draining())
}

/// The earlier of two moments.
fn earlier(one: Moment, other: Moment) -> Moment
    ensures { result.0 ≡ min one.0 other.0 }
{
    Moment(one.0.min(other.0))
}

/// The nodes by their numbers, in the order of their registrations. The reservations are numbered from 1.
///
/// No registered node gave its last sign before `quiet_since`, and none that is not suspect before `heard_since`; a node
/// drains only where `some_drain` is set. So as a rule no node need be looked at to tell that none is silent and none drains.
#[derive(Drop)]
pub struct NodeTable {
    nodes: IndexMap<NodeNo, NodeRow>,
    /// The number of the newest reservation, 0 before the first.
    newest_turn: u64,
    quiet_since: Moment,
    heard_since: Moment,
    some_drain: bool,
}

impl NodeTable {
    /// No node has registered. It takes no memory.
    pub fn new(alloc: Global) -> Self
        ensures { Stands result [] }
    {
        NodeTable {
            nodes: IndexMap::new(alloc),
            newest_turn: 0,
            quiet_since: Moment(0),
            heard_since: Moment(0),
            some_drain: false,
        }
    }

    /// A node registered. Without memory all stays as it is.
    pub fn registered(
        &mut self,
        node: NodeNo,
        registration: &Registration,
        at: Moment,
    ) -> Result<(), NoMemory>
        ensures stands { OnOk result ((caller : ℕ) →
            Follows Stands self.old self.new caller (change.Registered node registration.now at)) }
        ensures refused { OnErr result (Keeps Stands self.old self.new) }
    {
        history_laws();
        self.nodes.reserve(1)?;
        let row = NodeRow {
            registration: registration.clone()?,
            base: Standing::Up,
            suspected: false,
            bound: 0,
            beat: at,
            turn: 0,
        };
        self.nodes.insert(node, row).unwrap();
        self.quiet_since = earlier(self.quiet_since, at);
        self.heard_since = earlier(self.heard_since, at);
        Ok(())
    }

    /// A node gave a sign, which ends that it is suspect. It takes no memory.
    pub fn beaten(&mut self, node: NodeNo, at: Moment)
        ensures { (caller : ℕ) → Follows Stands self.old self.new caller (change.Beaten node at) }
    {
        history_laws();
        self.quiet_since = earlier(self.quiet_since, at);
        self.heard_since = earlier(self.heard_since, at);
        if let Some(alive) = self.nodes.get_mut(&node) {
            alive.beat = at;
            alive.suspected = false;
        }
    }

    /// A node was silent, and takes no new session before its next sign. It takes no memory.
    pub fn suspected(&mut self, node: NodeNo, _at: Moment)
        ensures { (caller : ℕ) → Follows Stands self.old self.new caller
            (change.Suspected node _at) }
    {
        history_laws();
        if let Some(silent) = self.nodes.get_mut(&node) {
            silent.suspected = true;
        }
    }

    /// A node takes no new session from now on. It takes no memory.
    pub fn draining(&mut self, node: NodeNo, _at: Moment)
        ensures { (caller : ℕ) → Follows Stands self.old self.new caller
            (change.Draining node _at) }
    {
        history_laws();
        self.some_drain = true;
        if let Some(drained) = self.nodes.get_mut(&node) {
            drained.base = Standing::Draining;
        }
    }

    /// A node was removed. It takes no memory.
    pub fn removed(&mut self, node: NodeNo, _at: Moment)
        ensures { (caller : ℕ) → Follows Stands self.old self.new caller (change.Removed node _at) }
    {
        history_laws();
        if let Some(gone) = self.nodes.get_mut(&node) {
            gone.base = Standing::Gone;
        }
    }

    /// A node gave no sign for too long, and is down. It takes no memory.
    pub fn lapsed(&mut self, node: NodeNo, _at: Moment)
        ensures { (caller : ℕ) → Follows Stands self.old self.new caller (change.Lapsed node _at) }
    {
        history_laws();
        if let Some(lost) = self.nodes.get_mut(&node) {
            lost.base = Standing::Down;
        }
    }

    /// Sees to it that the next reservation can't be refused. It takes no memory, and refuses where there is no number
    /// for one more reservation.
    pub fn make_room(&mut self) -> Result<(), NoMemory>
        ensures kept { Keeps Stands self.old self.new }
        ensures room { OnOk result (HasRoom self.new) }
    {
        if self.newest_turn < u64::MAX {
            Ok(())
        } else {
            Err(NoMemory)
        }
    }

    /// A slot of a node was reserved. It takes no memory. Where there is no number for one more reservation it refuses,
    /// and all stays as it is.
    pub fn reserved(
        &mut self,
        _request: ReqNo,
        slot: SlotId,
        _choice: u16,
        _at: Moment,
    ) -> Result<(), NoMemory>
        ensures stands { OnOk result ((caller : ℕ) →
            Follows Stands self.old self.new caller (change.Reserved _request slot _choice _at)) }
        ensures refused { OnErr result (Keeps Stands self.old self.new) }
        ensures done { HasRoom self.old → IsOk result }
    {
        history_laws();
        let Some(turn) = self.newest_turn.checked_add(1) else {
            return Err(NoMemory);
        };
        if let Some(chosen) = self.nodes.get_mut(&slot.node) {
            chosen.turn = turn;
        }
        self.newest_turn = turn;
        Ok(())
    }

    /// A session was bound on a slot of a node. It takes no memory.
    pub fn bound(
        &mut self,
        _request: ReqNo,
        slot: SlotId,
        _session: SessionId,
        _caps: &Caps,
        _at: Moment,
    )
        ensures { (caller : ℕ) → Follows Stands self.old self.new caller
            (change.Bound _request slot _session _caps.now _at) }
    {
        history_laws();
        if let Some(used) = self.nodes.get_mut(&slot.node) {
            used.bound = used.bound.saturating_add(1);
        }
    }

    /// Drops what is known of a node that is not listed any more. The table stands for the same history as before.
    pub fn forget(&mut self, node: NodeNo)
        ensures stands { KeepsWhere Stands (λ H. is_listed H node ≡ false) self.old self.new }
        ensures gone { knows self.new node ≡ false }
    {
        self.nodes.shift_remove(&node);
    }

    /// Whether what is noted tells that no registered node has been silent for so many milliseconds. It looks at no node.
    pub fn is_quiet(&self, at: Moment, silent_ms: u64) -> bool
        ensures exact { result ≡ is_quiet self.now at.0 silent_ms }
        ensures sure { Tells Stands self.now (λ H. result ≡ true → NoneSilent H at.0 silent_ms) }
    {
        history_laws();
        at.0.saturating_sub(self.quiet_since.0) < silent_ms
    }

    /// The same of registered nodes that are not suspect. It looks at no node.
    pub fn is_heard(&self, at: Moment, silent_ms: u64) -> bool
        ensures exact { result ≡ is_heard self.now at.0 silent_ms }
        ensures sure { Tells Stands self.now (λ H. result ≡ true → NoneUnheard H at.0 silent_ms) }
    {
        history_laws();
        at.0.saturating_sub(self.heard_since.0) < silent_ms
    }

    /// Whether a node may drain, as far as is noted. It looks at no node.
    pub fn may_drain(&self) -> bool
        ensures exact { result ≡ self.now.some_drain }
        ensures sure { Tells Stands self.now (λ H. result ≡ false → NoneDrains H) }
    {
        history_laws();
        self.some_drain
    }

    /// Notes when the registered nodes gave the earliest of their last signs, when those that are not suspect did, and
    /// whether a node drains, each where that does not tell enough yet: nodes are looked at again only once one may be
    /// silent for so many milliseconds, `lapse_ms` for those that are not suspect and `down_ms` for all, or one drains.
    /// It takes no memory.
    pub fn note_quiet(&mut self, at: Moment, lapse_ms: u64, down_ms: u64)
        ensures kept { Keeps Stands self.old self.new }
        ensures noted { NotesQuiet self.old self.new at.0 lapse_ms down_ms }
    {
        history_laws();
        let quiet_since = self.next_quiet_since(at, down_ms);
        let heard_since = self.next_heard_since(at, lapse_ms);
        let some_drain = self.still_drains();
        self.quiet_since = quiet_since;
        self.heard_since = heard_since;
        self.some_drain = some_drain;
    }

    fn next_quiet_since(&self, at: Moment, silent_ms: u64) -> Moment
        ensures { result.0 ≡ noted_sign self.now at.0 silent_ms }
    {
        if self.is_quiet(at, silent_ms) {
            return self.quiet_since;
        }
        match earliest_sign_of(&self.nodes) {
            Some(earliest) => Moment(earliest),
            None => at,
        }
    }

    fn next_heard_since(&self, at: Moment, silent_ms: u64) -> Moment
        ensures { result.0 ≡ noted_heard self.now at.0 silent_ms }
    {
        if self.is_heard(at, silent_ms) {
            return self.heard_since;
        }
        match earliest_heard_of(&self.nodes) {
            Some(earliest) => Moment(earliest),
            None => at,
        }
    }

    fn still_drains(&self) -> bool
        ensures { result ≡ noted_drain self.now }
    {
        self.some_drain && some_drain_of(&self.nodes)
    }

    /// Whether the base of the node is Up or Draining. It takes no memory.
    pub fn is_registered(&self, node: NodeNo) -> bool
        ensures { Tells Stands self.now (λ H. result ≡ is_registered H node) }
    {
        history_laws();
        match self.nodes.get(&node) {
            Some(row) => row.is_registered(),
            None => false,
        }
    }

    /// Whether the base of the node is Up: it was not drained, and may be suspect. It takes no memory.
    pub fn is_base_up(&self, node: NodeNo) -> bool
        ensures { Tells Stands self.now (λ H. result ≡ is_base_up H node) }
    {
        history_laws();
        match self.nodes.get(&node) {
            Some(row) => row.is_base_up(),
            None => false,
        }
    }

    /// Whether the base of the node is Draining: it was drained, and may be suspect. It takes no memory.
    pub fn is_draining(&self, node: NodeNo) -> bool
        ensures { Tells Stands self.now (λ H. result ≡ is_draining H node) }
    {
        history_laws();
        match self.nodes.get(&node) {
            Some(row) => row.is_draining(),
            None => false,
        }
    }

    /// Whether the node is registered, was suspected and has not beaten since. It takes no memory.
    pub fn is_suspect(&self, node: NodeNo) -> bool
        ensures { Tells Stands self.now (λ H. result ≡ is_suspect H node) }
    {
        history_laws();
        match self.nodes.get(&node) {
            Some(row) => row.is_suspect(),
            None => false,
        }
    }

    /// Whether the node takes new sessions: its base is Up, and it is not suspect. It takes no memory.
    pub fn is_up(&self, node: NodeNo) -> bool
        ensures { Tells Stands self.now (λ H. result ≡ is_up H node) }
    {
        history_laws();
        match self.nodes.get(&node) {
            Some(row) => row.is_up(),
            None => false,
        }
    }

    /// How the node stands. It takes no memory.
    pub fn standing(&self, node: NodeNo) -> Option<Standing>
        ensures listed { Tells Stands self.now
            (λ H. is_listed H node ≡ true → result ≡ standing_of H node) }
        ensures unknown { knows self.now node ≡ false → result ≡ None }
    {
        history_laws();
        Some(self.nodes.get(&node)?.standing())
    }

    /// Whether as many sessions were bound on a listed node as it drains after. It takes no memory.
    pub fn is_spent(&self, node: NodeNo) -> bool
        ensures listed { Tells Stands self.now
            (λ H. is_listed H node ≡ true → result ≡ is_spent H node) }
        ensures unknown { knows self.now node ≡ false → result ≡ false }
    {
        history_laws();
        match self.nodes.get(&node) {
            Some(row) => row.is_spent(),
            None => false,
        }
    }

    /// Whether the sessions that were bound on a listed node and its held slots, so many, are together fewer than it
    /// drains after. It takes no memory.
    pub fn has_sessions_left(&self, node: NodeNo, held: u16) -> bool
        ensures listed { Tells Stands self.now
            (λ H. is_listed H node ≡ true → held ≡ held_count H node →
            result ≡ has_sessions_left H node) }
        ensures unknown { knows self.now node ≡ false → result ≡ false }
    {
        history_laws();
        match self.nodes.get(&node) {
            Some(row) => row.has_sessions_left(held),
            None => false,
        }
    }

    /// The moment of the node's last sign. It takes no memory.
    pub fn beat(&self, node: NodeNo) -> Option<Moment>
        ensures listed { Tells Stands self.now
            (λ H. is_listed H node ≡ true → result ≡ Some (record { 0 = beat_of H node })) }
        ensures unknown { knows self.now node ≡ false → result ≡ None }
    {
        history_laws();
        Some(self.nodes.get(&node)?.beat)
    }

    /// What the node said of itself. It takes no memory.
    pub fn registration(&self, node: NodeNo) -> Option<&Registration>
        ensures listed { Tells Stands self.now
            (λ H. is_listed H node ≡ true → option_copied result ≡ registration_of H node) }
        ensures unknown { knows self.now node ≡ false → result ≡ None }
    {
        Some(&self.nodes.get(&node)?.registration)
    }

    /// A number that is greater for a node whose last reservation is later, 0 for a node without one.
    /// It takes no memory.
    pub fn last_reserved(&self, node: NodeNo) -> u64
        ensures { result ≡ last_turn self.now node }
    {
        match self.nodes.get(&node) {
            Some(row) => row.turn,
            None => 0,
        }
    }

    /// How many nodes the table knows.
    pub fn count(&self) -> usize
        ensures { result ≡ length (known self.now) }
    {
        self.nodes.len()
    }

    /// The node at this place, by ascending number from 0.
    pub fn number_at(&self, index: usize) -> Option<NodeNo>
        ensures { result ≡ slice_get (known self.now) index }
    {
        let (node, _) = self.nodes.get_index(index)?;
        Some(*node)
    }

    /// The node at this place and the moment of its last sign, where it is registered.
    pub fn sign_at(&self, index: usize) -> Option<(NodeNo, Moment)>
        ensures { Tells Stands self.now (λ H. result
            ≡ option_map (signed H) (kept (is_registered H) (slice_get (known self.now) index))) }
    {
        history_laws();
        let (node, row) = self.nodes.get_index(index)?;
        if row.is_registered() {
            Some((*node, row.beat))
        } else {
            None
        }
    }

    /// The same where it is not suspect.
    pub fn heard_at(&self, index: usize) -> Option<(NodeNo, Moment)>
        ensures { Tells Stands self.now (λ H. result
            ≡ option_map (signed H) (kept (is_trusted H) (slice_get (known self.now) index))) }
    {
        history_laws();
        let (node, row) = self.nodes.get_index(index)?;
        if row.is_heard() {
            Some((*node, row.beat))
        } else {
            None
        }
    }

    /// The node at this place, where it drains.
    pub fn draining_at(&self, index: usize) -> Option<NodeNo>
        ensures { Tells Stands self.now (λ H. result
            ≡ kept (is_draining H) (slice_get (known self.now) index)) }
    {
        history_laws();
        let (node, row) = self.nodes.get_index(index)?;
        if row.is_draining() { Some(*node) } else { None }
    }

    /// The registered node of this name. It takes no memory.
    pub fn registered_as(&self, name: &Text) -> Option<NodeNo>
        ensures { Tells Stands self.now (λ H. result ≡ find (is_named H name.now) (nodes H)) }
    {
        first_named(&self.nodes, name)
    }
}
