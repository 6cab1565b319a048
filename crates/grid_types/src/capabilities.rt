//! Capabilities, lists of choices, and what a node registers.
ghost use Rattle.std.specs.Prelude.{◌≡◌, ◌++◌, ◌∷◌, [], ◌<◌, ◌≤◌, List, ℕ, IfOk, IfErr, OnOk, OnErr, length};
ghost use Rattle.grid_types.specs.declared.limits.TheConstants.{MOST_CHOICES};

use crate::names::NodeAddress;
use crate::text::Text;
use std::alloc::{AllocError, Global};
use std::marker::Model;

/// A capability's value.
#[derive(Debug, Drop)]
pub enum CapValue {
    /// A JSON string, with its escapes read.
    Text(Text),
    /// `true` or `false`.
    Flag(bool),
    /// Any other JSON value (RFC 8259), null among them, as its text without white space outside strings.
    ///
    /// Nothing here checks that it is JSON: whoever makes it has read it from a JSON text.
    Raw(Text),
}

impl Clone for CapValue {
    ghost use Rattle.std.specs.Prelude.{◌≡◌};

    ghost is_clone = { λ x y. y ≡ x };

    fn clone(&self) -> Result<CapValue, AllocError> {
        match self {
            CapValue::Text(text) => Ok(CapValue::Text(text.clone()?)),
            CapValue::Flag(flag) => Ok(CapValue::Flag(*flag)),
            CapValue::Raw(text) => Ok(CapValue::Raw(text.clone()?)),
        }
    }
}

/// One member of a capabilities object (WebDriver §7): a name, with its escapes read, and a value.
#[derive(Debug, Drop)]
pub struct Cap {
    pub name: Text,
    pub value: CapValue,
}

impl Clone for Cap {
    ghost use Rattle.std.specs.Prelude.{◌≡◌};

    ghost is_clone = { λ x y. y ≡ x };

    fn clone(&self) -> Result<Cap, AllocError> {
        Ok(Cap {
            name: self.name.clone()?,
            value: self.value.clone()?,
        })
    }
}

/// The members of a capabilities object in order, seen as the list of them.
///
/// A name may stand twice: whoever reads the members from JSON sees to it that none does.
#[derive(Debug, Drop)]
pub struct Caps {
    members: Vec<Cap>,
}

impl Model for Caps {
    ghost use Rattle.std.specs.Prelude.{List};
    ghost use Rattle.grid_types.specs.declared.capabilities.Cap.{Cap};

    ghost Value = { List Cap };

    ghost view = { λ c. c.members.items };
}

impl Caps {
    /// No capabilities. It takes no memory.
    pub fn new(alloc: Global) -> Self
        ensures { result ≡ [] }
    {
        Caps {
            members: Vec::new(alloc),
        }
    }

    /// Puts the item last; without memory all stays as it is and the item comes back.
    pub fn push(&mut self, item: Cap) -> Result<(), Cap>
        ensures ok { OnOk result (self.new ≡ self.old ++ item ∷ []) }
        ensures err { OnErr result (self.new ≡ self.old) }
        ensures back { IfErr result (λ back. back ≡ item) }
    {
        match self.members.push(item) {
            Ok(()) => Ok(()),
            Err(refused) => Err(refused.value),
        }
    }

    /// The members in order.
    pub fn items(&self) -> &[Cap]
        ensures { result.now ≡ self.now }
    {
        self.members.as_slice()
    }
}

impl Clone for Caps {
    ghost use Rattle.std.specs.Prelude.{◌≡◌};

    ghost is_clone = { λ x y. y ≡ x };

    fn clone(&self) -> Result<Caps, AllocError> {
        Ok(Caps {
            members: self.members.clone()?,
        })
    }
}

/// The lists of capabilities that a request would be content with, in order: at least one and at most 64, numbered from 0.
#[derive(Debug, Drop)]
pub struct Choices {
    lists: Vec<Caps>,
}

impl Model for Choices {
    ghost use Rattle.std.specs.Prelude.{List, ◌≤◌, length};
    ghost use Rattle.grid_types.specs.declared.capabilities.Cap.{Cap};
    ghost use Rattle.grid_types.specs.declared.limits.TheConstants.{MOST_CHOICES};

    ghost Value = { List (List Cap) };

    ghost view = { λ c. c.lists.items };

    ghost invariant = { λ c. (1 ≤ length c.lists.items) × (length c.lists.items ≤ MOST_CHOICES) };
}

impl Choices {
    /// One choice. Err: out of memory, which gives the list back.
    pub fn one(alloc: Global, first: Caps) -> Result<Choices, Caps>
        ensures ok { IfOk result (λ c. c ≡ first ∷ []) }
        ensures err { IfErr result (λ back. back ≡ first) }
    {
        let mut lists = Vec::new(alloc);
        match lists.push(first) {
            Ok(()) => Ok(Choices { lists }),
            Err(refused) => Err(refused.value),
        }
    }

    /// Puts one more choice last, where there are fewer than 64, which the caller sees to.
    /// Err: out of memory; all stays as it is and the list comes back.
    pub fn push(&mut self, item: Caps) -> Result<(), Caps>
        requires { length self.old < MOST_CHOICES }
        ensures ok { OnOk result (self.new ≡ self.old ++ item ∷ []) }
        ensures err { OnErr result (self.new ≡ self.old) }
        ensures back { IfErr result (λ back. back ≡ item) }
    {
        match self.lists.push(item) {
            Ok(()) => Ok(()),
            Err(refused) => Err(refused.value),
        }
    }

    /// The choices in order, never none and never more than 64.
    pub fn items(&self) -> &[Caps]
        ensures items { result.now ≡ self.now }
        ensures some { 1 ≤ length self.now }
        ensures few { length self.now ≤ MOST_CHOICES }
    {
        self.lists.as_slice()
    }
}

impl Clone for Choices {
    ghost use Rattle.std.specs.Prelude.{◌≡◌};

    ghost is_clone = { λ x y. y ≡ x };

    fn clone(&self) -> Result<Choices, AllocError> {
        Ok(Choices {
            lists: self.lists.clone()?,
        })
    }
}

/// So many slots, one after the other, that offer the same capabilities, the stereotype.
#[derive(Debug, Drop)]
pub struct SlotGroup {
    pub stereotype: Caps,
    /// How many slots the group has.
    pub count: u16,
}

impl Clone for SlotGroup {
    ghost use Rattle.std.specs.Prelude.{◌≡◌};

    ghost is_clone = { λ x y. y ≡ x };

    fn clone(&self) -> Result<SlotGroup, AllocError> {
        Ok(SlotGroup {
            stereotype: self.stereotype.clone()?,
            count: self.count,
        })
    }
}

/// The groups of a node's slots, seen as their list. The slots are numbered from 0 through the groups in order.
#[derive(Debug, Drop)]
pub struct Groups {
    groups: Vec<SlotGroup>,
}

impl Model for Groups {
    ghost use Rattle.std.specs.Prelude.{List};
    ghost use Rattle.grid_types.specs.declared.capabilities.SlotGroup.{SlotGroup};

    ghost Value = { List SlotGroup };

    ghost view = { λ g. g.groups.items };
}

impl Groups {
    /// No groups. It takes no memory.
    pub fn new(alloc: Global) -> Self
        ensures { result ≡ [] }
    {
        Groups {
            groups: Vec::new(alloc),
        }
    }

    /// Puts the item last; without memory all stays as it is and the item comes back.
    pub fn push(&mut self, item: SlotGroup) -> Result<(), SlotGroup>
        ensures ok { OnOk result (self.new ≡ self.old ++ item ∷ []) }
        ensures err { OnErr result (self.new ≡ self.old) }
        ensures back { IfErr result (λ back. back ≡ item) }
    {
        match self.groups.push(item) {
            Ok(()) => Ok(()),
            Err(refused) => Err(refused.value),
        }
    }

    /// The groups in order.
    pub fn items(&self) -> &[SlotGroup]
        ensures { result.now ≡ self.now }
    {
        self.groups.as_slice()
    }
}

impl Clone for Groups {
    ghost use Rattle.std.specs.Prelude.{◌≡◌};

    ghost is_clone = { λ x y. y ≡ x };

    fn clone(&self) -> Result<Groups, AllocError> {
        Ok(Groups {
            groups: self.groups.clone()?,
        })
    }
}

/// What a node says of itself when it registers.
///
/// That `max_sessions` and the number of slots are from 1 to 64, and `drain_after` from 1 to 1,000,000, is checked by whoever
/// reads a registration; the hub's call asks for it.
#[derive(Debug, Drop)]
pub struct Registration {
    /// The node's name, which no other registered node has.
    pub name: Text,
    /// Where the node is reached.
    pub address: NodeAddress,
    /// How many slots may be in use at once.
    pub max_sessions: u16,
    /// The node's slots.
    pub groups: Groups,
    /// The count of sessions that it runs in its life: once as many were bound there it drains. None is no such count.
    pub drain_after: Option<u32>,
}

impl Registration {
    ghost use Rattle.std.specs.Prelude.{◌≡◌, None};

    /// What a node says that drains by no count.
    pub fn new(name: Text, address: NodeAddress, max_sessions: u16, groups: Groups) -> Registration
        ensures { result ≡ record {
          name = name;
          address = address;
          max_sessions = max_sessions;
          groups = groups;
          drain_after = None;
        } }
    {
        Registration {
            name,
            address,
            max_sessions,
            groups,
            drain_after: None,
        }
    }
}

impl Clone for Registration {
    ghost use Rattle.std.specs.Prelude.{◌≡◌};

    ghost is_clone = { λ x y. y ≡ x };

    fn clone(&self) -> Result<Registration, AllocError> {
        Ok(Registration {
            name: self.name.clone()?,
            address: self.address,
            max_sessions: self.max_sessions,
            groups: self.groups.clone()?,
            drain_after: self.drain_after,
        })
    }
}
