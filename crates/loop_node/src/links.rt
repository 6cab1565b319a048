//! Loop nodes behind one link.
ghost use Rattle.std.specs.Prelude.{◌≡◌, ◌≢◌, ℕ, ◌≤◌, ◌<◌, true, false, List, [], ◌∷◌, ◌++◌, length, MatchOption, Result, IfOk, IfErr, OnOk, OnErr, IsErrOf, IsTrue, vec_len};
ghost use Rattle.std.specs.List.{list_all, list_any};
ghost use Rattle.grid_outside.specs.Counts.{Rose};
ghost use Rattle.loop_node.specs.Sessions.{Node};
ghost use Rattle.loop_node.specs.Sizes.{short_texts};
ghost use Rattle.loop_node.specs.Links.{Differ, is_at as is_node_at, is_reached, IsReached, OneAnswers, NodesGive};
ghost use Rattle.grid_outside.specs.Exchanges.{ask_of, is_within};
ghost use Rattle.grid_outside.specs.declared.exchange.Reply.TheVariants as exchange;

use crate::node::LoopNode;
use grid_outside::{ExchangeFault, NodeLink, Reply};
use grid_types::{NoMemory, NodeAddress};
use http_frames::{NodeReply, NodeRequest};
use itoa::Buffer;
use std::alloc::Global;
use std::marker::Model;

/// Loop nodes, seen as their list.
#[derive(Drop)]
pub struct LoopList {
    nodes: Vec<LoopNode>,
}

impl Model for LoopList {
    ghost use Rattle.std.specs.Prelude.{List};
    ghost use Rattle.loop_node.specs.Sessions.{Node};

    ghost Value = { List Node };

    ghost view = { λ l. l.nodes.items };
}

impl LoopList {
    /// No nodes. It takes no memory.
    pub fn new(alloc: Global) -> Self
        ensures { result ≡ [] }
    {
        LoopList {
            nodes: Vec::new(alloc),
        }
    }

    /// Puts the node last; without memory all stays as it is and the node comes back.
    pub fn push(&mut self, node: LoopNode) -> Result<(), LoopNode>
        ensures ok { OnOk result (self.new ≡ self.old ++ node ∷ []) }
        ensures err { OnErr result (self.new ≡ self.old) }
        ensures back { IfErr result (λ back. back ≡ node) }
    {
        match self.nodes.push(node) {
            Ok(()) => Ok(()),
            Err(refused) => Err(refused.value),
        }
    }

    /// The nodes in order.
    pub fn items(&self) -> &[LoopNode]
        ensures { result.now ≡ self.now }
    {
        self.nodes.as_slice()
    }
}

/// Reaches loop nodes: the node with number N at the address `loop:N`. It never fails, but an address
/// of no loop node is unreachable.
#[derive(Drop)]
pub struct LoopNodes {
    nodes: Vec<LoopNode>,
    faults: u64,
    ghost short: { list_all short_texts nodes.items ≡ true },
}

/// Whether the node has the address.
fn is_at(address: &[u8], node: &LoopNode) -> bool
    ensures { result ≡ is_node_at address.now node.now }
{
    let mut buffer = Buffer::new();
    let number = buffer.format(node.number());
    match address.strip_prefix(b"loop:") {
        Some(rest) => rest == number.as_bytes(),
        None => false,
    }
}

/// The place of the node at the address.
fn place_of(nodes: &[LoopNode], address: &[u8]) -> Option<usize>
    ensures { MatchOption result (is_reached address.now nodes.now ≡ false)
        (IsReached address.now nodes.now) }
{
    for (index, node) in nodes.iter().enumerate() {
        if is_at(address, node) {
            return Some(index);
        }
    }
    None
}

/// The answer of the node at a place.
fn ask_at(
    nodes: &mut Vec<LoopNode>,
    place: usize,
    alloc: Global,
    request: &NodeRequest<'_>,
) -> Result<NodeReply, NoMemory>
    requires { place < vec_len nodes.old }
    ensures answers { IfOk result (λ reply. (address : List ℕ) → IsReached address nodes.old.items place
        → OneAnswers nodes.old.items address (ask_of request.now) reply nodes.new.items) }
    ensures err { OnErr result (nodes.new.items ≡ nodes.old.items) }
    ensures short { list_all short_texts nodes.old.items ≡ true →
        list_all short_texts nodes.new.items ≡ true }
    ensures within { list_all short_texts nodes.old.items ≡ true
        → IfOk result (λ reply. IsTrue (is_within (exchange.Http reply))) }
{
    nodes[place].answer(alloc, request)
}

impl LoopNodes {
    ghost use Rattle.loop_node.specs.LinkedNodes.{nodes_reached};

    /// `alloc` is not used: it takes no memory.
    pub fn new(alloc: Global, nodes: LoopList) -> LoopNodes
        requires differ { Differ nodes }
        requires short { list_all short_texts nodes ≡ true }
        ensures { nodes_reached result ≡ nodes }
    {
        let _ = alloc;
        LoopNodes {
            nodes: nodes.nodes,
            faults: 0,
        }
    }

    /// The nodes in order.
    pub fn nodes(&self) -> &[LoopNode]
        ensures { result.now ≡ nodes_reached self.now }
    {
        self.nodes.as_slice()
    }
}

impl NodeLink for LoopNodes {
    ghost use Rattle.loop_node.specs.LinkedNodes.{nodes_reached};

    ghost faults = { λ n. n.faults };

    ghost gives = { λ old address ask came new. NodesGive (nodes_reached old) address ask came (nodes_reached new) };

    fn exchange(
        &mut self,
        alloc: Global,
        address: &NodeAddress,
        request: &NodeRequest<'_>,
    ) -> Result<Reply, ExchangeFault> {
        let Some(place) = place_of(&self.nodes, address.as_bytes()) else {
            self.faults = self.faults.saturating_add(1);
            return Err(ExchangeFault::Unreachable);
        };
        match ask_at(&mut self.nodes, place, alloc, request) {
            Ok(reply) => Ok(Reply::Http(reply)),
            Err(NoMemory) => Err(ExchangeFault::Memory),
        }
    }
}
