//! What the tables tell of nodes and their slots.
ghost use Rattle.std.specs.Prelude.{◌≡◌, ◌≤◌, true, false, nat_le, find, length, map, IfOk, IfSome, None, Some};
ghost use Rattle.std.specs.Option.{option_copied};
ghost use Rattle.grid_types.specs.History.{nodes};
ghost use Rattle.grid_types.specs.HubAnswers.{lapsed_nodes, silent_nodes, drained_nodes};
ghost use Rattle.grid_types.specs.Nodes.{is_registered, is_base_up, is_spent, is_suspect, beat_of, registration_of};
ghost use Rattle.grid_types.specs.Overview.{view_of};
ghost use Rattle.grid_types.specs.Permitted.{is_named};
ghost use Rattle.grid_types.specs.Slots.{holder, is_listed, listed, slots_of};
ghost use Rattle.reservation.specs.Table.{IsUseOf, holder_of};
ghost use Rattle.hub_tables.specs.Tables.{HasNoRow, Keeps, NotesSigns, Tells};

use crate::tables::HubTables;
use grid_types::{HubConfig, Moment, NoMemory, NodeNo, Registration, SlotId, Text, View};
use hub_walks::{first_drained, first_lapsed, first_silent, listed_count, view};
use reservation::SlotUse;
use std::alloc::Global;

impl HubTables {
    /// Whether the node is registered. It takes no memory.
    pub fn is_registered(&self, node: NodeNo) -> bool
        ensures { Tells self.now (λ H. result ≡ is_registered H node) }
    {
        self.nodes.is_registered(node)
    }

    /// Whether the node is registered and was not drained. It may be suspect. It takes no memory.
    pub fn is_base_up(&self, node: NodeNo) -> bool
        ensures { Tells self.now (λ H. result ≡ is_base_up H node) }
    {
        self.nodes.is_base_up(node)
    }

    /// Whether the node is registered, was suspected and has not beaten since. It takes no memory.
    pub fn is_suspect(&self, node: NodeNo) -> bool
        ensures { Tells self.now (λ H. result ≡ is_suspect H node) }
    {
        self.nodes.is_suspect(node)
    }

    /// The moment of a listed node's last sign. It takes no memory.
    pub fn beat(&self, node: NodeNo) -> Option<Moment>
        ensures listed { Tells self.now (λ H. is_listed H node ≡ true →
            result ≡ Some (record { 0 = beat_of H node })) }
        ensures unknown { HasNoRow self.now node → result ≡ None }
    {
        self.nodes.beat(node)
    }

    /// Whether as many sessions were bound on a listed node as it drains after. It takes no memory.
    pub fn is_spent(&self, node: NodeNo) -> bool
        ensures listed { Tells self.now (λ H. is_listed H node ≡ true → result ≡ is_spent H node) }
        ensures unknown { HasNoRow self.now node → result ≡ false }
    {
        self.nodes.is_spent(node)
    }

    /// What a listed node said of itself. It takes no memory.
    pub fn registration(&self, node: NodeNo) -> Option<&Registration>
        ensures listed { Tells self.now (λ H. is_listed H node ≡ true →
            option_copied result ≡ registration_of H node) }
        ensures unknown { HasNoRow self.now node → result ≡ None }
    {
        self.nodes.registration(node)
    }

    /// The registered node of this name. It takes no memory.
    pub fn registered_as(&self, name: &Text) -> Option<NodeNo>
        ensures { Tells self.now (λ H. result ≡ find (is_named H name.now) (nodes H)) }
    {
        self.nodes.registered_as(name)
    }

    /// How many nodes are listed. It takes no memory.
    pub fn listed_count(&self) -> usize
        ensures { Tells self.now (λ H. result ≡ length (listed H)) }
    {
        listed_count(&self.nodes, &self.slots)
    }

    /// What a slot is given to, by whom, and for what. It takes no memory.
    pub fn slot_use(&self, slot: SlotId) -> SlotUse
        ensures { Tells self.now (λ H. IsUseOf H slot result) }
    {
        self.slots.slot_use(slot)
    }

    /// What the slots of a registered node are given to, by their places in it.
    pub fn uses(&self, node: NodeNo) -> &[SlotUse]
        ensures { Tells self.now (λ H. is_registered H node ≡ true →
            map holder_of result.now ≡ map (holder H) (slots_of H node)) }
    {
        self.slots.uses(node)
    }

    /// The first node, of this number or a greater one, that was silent for too long. It takes no memory.
    pub fn next_lapsed(&self, from: u64, now: Moment, config: &HubConfig) -> Option<NodeNo>
        ensures first { Tells self.now (λ H. result
            ≡ find (nat_le from) (lapsed_nodes config.now H now.0)) }
        ensures later { IfSome result (λ n. from ≤ n) }
    {
        first_lapsed(&self.nodes, from, now, config)
    }

    /// The first node, of this number or a greater one, that is silent and not suspect yet. It takes no memory.
    pub fn next_silent(&self, from: u64, now: Moment, config: &HubConfig) -> Option<NodeNo>
        ensures first { Tells self.now (λ H. result
            ≡ find (nat_le from) (silent_nodes config.now H now.0)) }
        ensures later { IfSome result (λ n. from ≤ n) }
    {
        first_silent(&self.nodes, from, now, config)
    }

    /// The first node, of this number or a greater one, that drains and has no slot in use. It takes no memory.
    pub fn next_drained(&self, from: u64) -> Option<NodeNo>
        ensures first { Tells self.now (λ H. result ≡ find (nat_le from) (drained_nodes H)) }
        ensures later { IfSome result (λ n. from ≤ n) }
    {
        first_drained(&self.nodes, &self.slots, from)
    }

    /// Notes since when all registered nodes were heard, and whether one drains, where `next_lapsed`, `next_silent` and
    /// `next_drained` have to look at nodes, so that they look at them again only once one may be silent for too long or
    /// drains. It takes no memory.
    pub fn note_signs(&mut self, now: Moment, config: &HubConfig)
        ensures kept { Keeps self.old self.new }
        ensures noted { NotesSigns self.old self.new now.0 config.now }
    {
        self.nodes.note_quiet(now, config.lapse_ms, config.down_ms);
    }

    /// The listed nodes and the waiting requests, each by number, and whether a session could start now.
    pub fn view(&self, alloc: Global) -> Result<View, NoMemory>
        ensures { Tells self.now (λ H. IfOk result (λ v. v ≡ view_of H)) }
    {
        view(&self.nodes, &self.slots, &self.requests, alloc)
    }
}
