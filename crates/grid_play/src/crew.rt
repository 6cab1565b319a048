//! A hub in which the nodes of a play have registered.
ghost use Rattle.std.specs.Prelude.{◌≡◌, ◌<◌, ◌≤◌, ◌+◌, ◌^◌, ◌++◌, ◌∷◌, [], ℕ, true, codes, decimal, length, IfOk, OnOk};
ghost use Rattle.grid_types.specs.declared.limits.TheConstants.{MOST_SLOTS};
ghost use Rattle.grid_types.specs.Config.{IsValid};
ghost use Rattle.grid_types.specs.Calls.{Call};
ghost use Rattle.grid_types.specs.HubAnswers.{after_call};
ghost use Rattle.grid_types.specs.Permitted.{is_well_sized};
ghost use Rattle.hub_core.specs.HubView.{past};
ghost use Rattle.loop_node.specs.LinkedNodes.{nodes_reached};
ghost use Rattle.loop_node.specs.Links.{node_address};
ghost use Rattle.loop_node.specs.Sessions.{node_caps, text_cap};
ghost use Rattle.grid_play.specs.Crew.{AllFit, IsFit, crew_from, first_crew, gathered, joins, loop_node_of, registration_of};

use grid_types::{
    Cap, CapValue, Caps, Groups, HubConfig, Moment, NoMemory, NodeAddress, NodeNo, Registration,
    SlotGroup, Text,
};
use hub_core::{LocalHub, Registering};
use loop_node::{LoopList, LoopNode, LoopNodes};
use play_words::PlayNode;
use std::alloc::Global;

/// A hub, the nodes that have registered there, and their numbers.
#[derive(Drop)]
pub struct Crew {
    pub hub: LocalHub,
    pub nodes: LoopNodes,
    pub numbers: Vec<NodeNo>,
}

fn push_text(alloc: Global, caps: &mut Caps, name: &str, value: &str) -> Result<(), NoMemory>
    ensures { OnOk result (caps.new ≡ caps.old ++ text_cap name.now value.now ∷ []) }
{
    let cap = Cap {
        name: Text::of(alloc, name)?,
        value: CapValue::Text(Text::of(alloc, value)?),
    };
    match caps.push(cap) {
        Ok(()) => Ok(()),
        Err(_) => Err(NoMemory),
    }
}

/// The capabilities of a node's slots.
fn stereotype_of(alloc: Global, browser: &str, version: &str) -> Result<Caps, NoMemory>
    ensures { IfOk result (λ caps. caps ≡ node_caps browser.now version.now) }
{
    let mut caps = Caps::new(alloc);
    push_text(alloc, &mut caps, "browserName", browser)?;
    push_text(alloc, &mut caps, "browserVersion", version)?;
    push_text(alloc, &mut caps, "platformName", "linux")?;
    Ok(caps)
}

/// The name of node i.
fn name_of(alloc: Global, i: NodeNo) -> Result<Text, NoMemory>
    ensures { IfOk result (λ name. name ≡ codes "play-" ++ decimal i) }
{
    Ok(Text::from_string(format!(in alloc; "play-{i}")?))
}

/// The address of node i.
fn address_of(alloc: Global, i: NodeNo) -> Result<NodeAddress, NoMemory>
    ensures { IfOk result (λ address. address ≡ node_address i) }
{
    let text = format!(in alloc; "loop:{i}")?;
    NodeAddress::from_bytes(text.as_bytes()).ok_or(NoMemory)
}

/// What node i says of itself.
pub fn registration_of(alloc: Global, i: NodeNo, node: &PlayNode) -> Result<Registration, NoMemory>
    requires least { 1 ≤ node.now.slots }
    requires most { node.now.slots ≤ MOST_SLOTS }
    ensures is { IfOk result (λ r. r ≡ registration_of i node.now) }
    ensures sized { IfOk result (λ r. is_well_sized r ≡ true) }
{
    let mut groups = Groups::new(alloc);
    let group = SlotGroup {
        stereotype: stereotype_of(alloc, node.browser.as_str(), node.version.as_str())?,
        count: node.slots,
    };
    let Ok(()) = groups.push(group) else {
        return Err(NoMemory);
    };
    Ok(Registration::new(
        name_of(alloc, i)?,
        address_of(alloc, i)?,
        node.slots,
        groups,
    ))
}

/// The node in memory that stands behind it.
fn loop_node_of(alloc: Global, i: NodeNo, node: &PlayNode) -> Result<LoopNode, NoMemory>
    ensures { IfOk result (λ n. n ≡ loop_node_of i node.now) }
{
    let browser = Text::of(alloc, node.browser.as_str())?;
    let version = Text::of(alloc, node.version.as_str())?;
    Ok(LoopNode::new(alloc, i, browser, version, node.slots, node.refuses))
}

/// Registers a node at the moment 0. Err is out of memory.
fn register(hub: &mut LocalHub, registration: Registration) -> Result<(), NoMemory>
    requires { is_well_sized registration ≡ true }
    ensures config { hub.new.config ≡ hub.old.config }
    ensures goes_on { OnOk result (past hub.new
        ≡ after_call hub.old.config (past hub.old) 0 (Call.register registration) 0) }
{
    hub.room()?;
    match hub.register(registration, Moment(0)) {
        Registering::Registered(_) => Ok(()),
        Registering::NameTaken(_) => Ok(()),
        Registering::NodesFull { .. } => Ok(()),
        Registering::NumbersSpent => Ok(()),
        Registering::Memory(_) => Err(NoMemory),
    }
}

fn add(nodes: &mut LoopList, node: LoopNode) -> Result<(), NoMemory>
    ensures { OnOk result (nodes.new ≡ nodes.old ++ node ∷ []) }
{
    match nodes.push(node) {
        Ok(()) => Ok(()),
        Err(_) => Err(NoMemory),
    }
}

fn add_number(numbers: &mut Vec<NodeNo>, number: NodeNo) -> Result<(), NoMemory>
    ensures { OnOk result (numbers.new.items ≡ numbers.old.items ++ number ∷ []) }
{
    match numbers.push(number) {
        Ok(()) => Ok(()),
        Err(_) => Err(NoMemory),
    }
}

/// Node i registers, and stands behind the others.
fn register_one(
    alloc: Global,
    hub: &mut LocalHub,
    nodes: &mut LoopList,
    numbers: &mut Vec<NodeNo>,
    i: NodeNo,
    node: &PlayNode,
) -> Result<(), NoMemory>
    requires fit { IsFit node.now }
    ensures config { hub.new.config ≡ hub.old.config }
    ensures joins { OnOk result (gathered hub.new nodes.new numbers.new.items
        ≡ joins hub.old.config (gathered hub.old nodes.old numbers.old.items) i node.now) }
{
    let registration = registration_of(alloc, i, node)?;
    let reached = loop_node_of(alloc, i, node)?;
    register(hub, registration)?;
    add(nodes, reached)?;
    add_number(numbers, i)
}

/// The nodes register one after the other, with the numbers from `first` on.
fn register_all(
    alloc: Global,
    hub: &mut LocalHub,
    nodes: &mut LoopList,
    numbers: &mut Vec<NodeNo>,
    first: NodeNo,
    played: &[PlayNode],
) -> Result<(), NoMemory>
    requires fit { AllFit played.now }
    requires few { first + length played.now < 2 ^ 32 }
    ensures config { hub.new.config ≡ hub.old.config }
    ensures joined { OnOk result (gathered hub.new nodes.new numbers.new.items
        ≡ crew_from hub.old.config first played.now (gathered hub.old nodes.old numbers.old.items)) }
{
    match played {
        [] => Ok(()),
        [node, others @ ..] => {
            register_one(alloc, hub, nodes, numbers, first, node)?;
            register_all(alloc, hub, nodes, numbers, first + 1, others)
        }
    }
}

/// A hub in which the nodes have registered, in their order and with the numbers from 1 on.
pub fn crew_of(alloc: Global, config: HubConfig, played: &[PlayNode]) -> Result<Crew, NoMemory>
    requires valid { IsValid config }
    requires fit { AllFit played.now }
    requires few { length played.now < 2 ^ 16 }
    ensures config { IfOk result (λ c. c.hub.config ≡ config) }
    ensures crew { IfOk result (λ c. gathered c.hub (nodes_reached c.nodes) c.numbers.items
        ≡ first_crew config played.now) }
{
    let mut hub = LocalHub::new(alloc, config)?;
    let mut list = LoopList::new(alloc);
    let mut numbers = Vec::new(alloc);
    register_all(alloc, &mut hub, &mut list, &mut numbers, 1, played)?;
    let reached = LoopNodes::new(alloc, list);
    Ok(Crew {
        hub,
        nodes: reached,
        numbers,
    })
}
