//! What a hub shows of itself.
ghost use Rattle.std.specs.Prelude.{◌≡◌, ◌++◌, ◌∷◌, [], List, ℕ, IfErr, OnOk, OnErr};

use crate::capabilities::Registration;
use crate::names::{Moment, NodeNo, ReqNo, SessionId};
use std::alloc::Global;
use std::marker::Model;

/// How a node stands to the hub.
#[derive(Clone, Copy, Debug, PartialEq, Eq)]
pub enum Standing {
    /// Registered, and takes new sessions.
    Up,
    /// Registered, and takes no new sessions.
    Draining,
    /// Was silent for too long.
    Down,
    /// Was removed.
    Gone,
    /// Registered, and takes no new sessions before its next beat, since it was silent.
    Suspect,
}

/// What a slot is in use for, as a view shows it.
#[derive(Clone, Copy, Debug, PartialEq, Eq)]
pub enum SlotState {
    Free,
    /// Reserved for a request, which is not shown.
    Held,
    /// Runs this session.
    Busy(SessionId),
    /// Its session has ended or was not kept, and the node was not yet asked to end it.
    Closing,
}

/// A node as a view shows it.
#[derive(Debug, Drop)]
pub struct NodeView {
    pub node: NodeNo,
    pub registration: Registration,
    pub standing: Standing,
    /// The slots in their order, from index 0.
    pub slots: SlotViews,
}

/// A waiting request as a view shows it.
#[derive(Clone, Copy, Debug, PartialEq, Eq)]
pub struct WaitView {
    pub request: ReqNo,
    /// From this moment on the request is overdue.
    pub deadline: Moment,
    /// How many choices it has.
    pub choices: u16,
    /// The bytes of its choices, each written as JSON, added up.
    pub bytes: u64,
}

/// What the hub shows of itself: whether a new session could start now, the listed nodes and the waiting requests, each by number.
#[derive(Debug, Drop)]
pub struct View {
    /// Some node that is up, and below the most sessions that it takes, has a free slot.
    pub ready: bool,
    pub nodes: NodeViews,
    pub waiting: WaitViews,
}

/// The states of slots, seen as their list.
#[derive(Debug, Drop)]
pub struct SlotViews {
    states: Vec<SlotState>,
}

impl Model for SlotViews {
    ghost use Rattle.std.specs.Prelude.{List};
    ghost use Rattle.grid_types.specs.declared.view.SlotState.{SlotState};

    ghost Value = { List SlotState };

    ghost view = { λ v. v.states.items };
}

impl SlotViews {
    /// The empty list. It takes no memory.
    pub fn new(alloc: Global) -> Self
        ensures { result ≡ [] }
    {
        SlotViews {
            states: Vec::new(alloc),
        }
    }

    /// Puts the item last; without memory all stays as it is and the item comes back.
    pub fn push(&mut self, item: SlotState) -> Result<(), SlotState>
        ensures ok { OnOk result (self.new ≡ self.old ++ item ∷ []) }
        ensures err { OnErr result (self.new ≡ self.old) }
        ensures back { IfErr result (λ back. back ≡ item) }
    {
        match self.states.push(item) {
            Ok(()) => Ok(()),
            Err(refused) => Err(refused.value),
        }
    }

    /// The states, by the slots' numbers.
    pub fn items(&self) -> &[SlotState]
        ensures { result.now ≡ self.now }
    {
        self.states.as_slice()
    }
}

/// The views of nodes, seen as their list.
#[derive(Debug, Drop)]
pub struct NodeViews {
    nodes: Vec<NodeView>,
}

impl Model for NodeViews {
    ghost use Rattle.std.specs.Prelude.{List};
    ghost use Rattle.grid_types.specs.declared.view.NodeView.{NodeView};

    ghost Value = { List NodeView };

    ghost view = { λ v. v.nodes.items };
}

impl NodeViews {
    /// The empty list. It takes no memory.
    pub fn new(alloc: Global) -> Self
        ensures { result ≡ [] }
    {
        NodeViews {
            nodes: Vec::new(alloc),
        }
    }

    /// Puts the item last; without memory all stays as it is and the item comes back.
    pub fn push(&mut self, item: NodeView) -> Result<(), NodeView>
        ensures ok { OnOk result (self.new ≡ self.old ++ item ∷ []) }
        ensures err { OnErr result (self.new ≡ self.old) }
        ensures back { IfErr result (λ back. back ≡ item) }
    {
        match self.nodes.push(item) {
            Ok(()) => Ok(()),
            Err(refused) => Err(refused.value),
        }
    }

    /// The nodes in order.
    pub fn items(&self) -> &[NodeView]
        ensures { result.now ≡ self.now }
    {
        self.nodes.as_slice()
    }
}

/// The views of waiting requests, seen as their list.
#[derive(Debug, Drop)]
pub struct WaitViews {
    requests: Vec<WaitView>,
}

impl Model for WaitViews {
    ghost use Rattle.std.specs.Prelude.{List};
    ghost use Rattle.grid_types.specs.declared.view.WaitView.{WaitView};

    ghost Value = { List WaitView };

    ghost view = { λ v. v.requests.items };
}

impl WaitViews {
    /// The empty list. It takes no memory.
    pub fn new(alloc: Global) -> Self
        ensures { result ≡ [] }
    {
        WaitViews {
            requests: Vec::new(alloc),
        }
    }

    /// Puts the item last; without memory all stays as it is and the item comes back.
    pub fn push(&mut self, item: WaitView) -> Result<(), WaitView>
        ensures ok { OnOk result (self.new ≡ self.old ++ item ∷ []) }
        ensures err { OnErr result (self.new ≡ self.old) }
        ensures back { IfErr result (λ back. back ≡ item) }
    {
        match self.requests.push(item) {
            Ok(()) => Ok(()),
            Err(refused) => Err(refused.value),
        }
    }

    /// The requests in order.
    pub fn items(&self) -> &[WaitView]
        ensures { result.now ≡ self.now }
    {
        self.requests.as_slice()
    }
}
