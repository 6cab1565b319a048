//! The nodes of a simulation.
ghost use Rattle.std.specs.Prelude.{◌≡◌, ◌<◌, ◌≤◌, ◌+◌, ◌++◌, ◌∷◌, [], ℕ, true, codes, decimal, IfOk, OnOk};
ghost use Rattle.grid_types.specs.declared.limits.TheConstants.{MOST_SLOTS};
ghost use Rattle.grid_types.specs.Config.{IsValid};
ghost use Rattle.grid_types.specs.Calls.{Call};
ghost use Rattle.grid_types.specs.HubAnswers.{after_call};
ghost use Rattle.grid_types.specs.Permitted.{is_well_sized};
ghost use Rattle.hub_core.specs.HubView.{past};
ghost use Rattle.loop_node.specs.LinkedNodes.{nodes_reached};
ghost use Rattle.loop_node.specs.Links.{node_address};
ghost use Rattle.loop_node.specs.Sessions.{node_caps, text_cap};
ghost use Rattle.grid_simulate.specs.Crew.{version, browser_of, registration_of, joins_as, joined, crew};
ghost use Rattle.grid_simulate.specs.World.{world_of, simulated_config};
ghost use Rattle.grid_simulate.specs.Joining.{gathered};
ghost use Rattle.grid_simulate.specs.Held.{IsSound};

use crate::draws::draw;
use crate::simulation::Simulation;
use grid_types::{
    Cap, CapValue, Caps, Groups, HubConfig, Moment, NoMemory, NodeAddress, NodeNo, Registration,
    SlotGroup, Text,
};
use hub_core::{LocalHub, Registering};
use loop_node::{LoopList, LoopNode, LoopNodes};
use std::alloc::Global;

/// How many nodes there are.
const CREW: NodeNo = 8;

/// The version of every node's browser.
const VERSION: &str = "126.0";

fn browser_of(number: u64) -> &'static str
    ensures { result.now ≡ browser_of number }
{
    if number == 0 {
        return "chrome";
    }
    if number == 1 {
        return "firefox";
    }
    "safari"
}

fn push_text(alloc: Global, caps: &mut Caps, name: &str, value: &str) -> Result<(), NoMemory>
    ensures { OnOk result (caps.new ≡ caps.old ++ text_cap name.now value.now ∷ []) }
{
    let cap = Cap {
        name: Text::of(alloc, name)?,
        value: CapValue::Text(Text::of(alloc, value)?),
    };
    match caps.push(cap) {
        Ok(()) => Ok(()),
        Err(_) => Err(NoMemory),
    }
}

/// The capabilities of a node with this browser.
fn stereotype_of(alloc: Global, browser: &str) -> Result<Caps, NoMemory>
    ensures { IfOk result (λ caps. caps ≡ node_caps browser.now version) }
{
    let mut caps = Caps::new(alloc);
    push_text(alloc, &mut caps, "browserName", browser)?;
    push_text(alloc, &mut caps, "browserVersion", VERSION)?;
    push_text(alloc, &mut caps, "platformName", "linux")?;
    Ok(caps)
}

/// The name of node i.
fn name_of(alloc: Global, i: NodeNo) -> Result<Text, NoMemory>
    ensures { IfOk result (λ name. name ≡ codes "sim-" ++ decimal i) }
{
    Ok(Text::from_string(format!(in alloc; "sim-{i}")?))
}

/// The address of node i.
fn address_of(alloc: Global, i: NodeNo) -> Result<NodeAddress, NoMemory>
    ensures { IfOk result (λ address. address ≡ node_address i) }
{
    let text = format!(in alloc; "loop:{i}")?;
    NodeAddress::from_bytes(text.as_bytes()).ok_or(NoMemory)
}

/// What node i says of itself.
fn registration_of(
    alloc: Global,
    i: NodeNo,
    browser: &str,
    slots: u16,
) -> Result<Registration, NoMemory>
    requires least { 1 ≤ slots }
    requires most { slots ≤ MOST_SLOTS }
    ensures is { IfOk result (λ r. r ≡ registration_of i browser.now slots) }
    ensures sized { IfOk result (λ r. is_well_sized r ≡ true) }
{
    let mut groups = Groups::new(alloc);
    let group = SlotGroup {
        stereotype: stereotype_of(alloc, browser)?,
        count: slots,
    };
    let Ok(()) = groups.push(group) else {
        return Err(NoMemory);
    };
    Ok(Registration::new(name_of(alloc, i)?, address_of(alloc, i)?, slots, groups))
}

/// Registers a node at the moment 0. Err is out of memory.
fn register(hub: &mut LocalHub, registration: Registration) -> Result<(), NoMemory>
    requires config { hub.old.config ≡ simulated_config }
    requires sized { is_well_sized registration ≡ true }
    ensures config { hub.new.config ≡ simulated_config }
    ensures goes_on { OnOk result (past hub.new
        ≡ after_call simulated_config (past hub.old) 0 (Call.register registration) 0) }
{
    hub.room()?;
    match hub.register(registration, Moment(0)) {
        Registering::Registered(_) => Ok(()),
        Registering::NameTaken(_) => Ok(()),
        Registering::NodesFull { .. } => Ok(()),
        Registering::NumbersSpent => Ok(()),
        Registering::Memory(_) => Err(NoMemory),
    }
}

fn add(nodes: &mut LoopList, node: LoopNode) -> Result<(), NoMemory>
    ensures { OnOk result (nodes.new ≡ nodes.old ++ node ∷ []) }
{
    match nodes.push(node) {
        Ok(()) => Ok(()),
        Err(_) => Err(NoMemory),
    }
}

/// Node i registers, and stands behind the others.
fn enroll(
    alloc: Global,
    hub: &mut LocalHub,
    nodes: &mut LoopList,
    i: NodeNo,
    browser: &str,
    slots: u16,
    refuses: u32,
) -> Result<(), NoMemory>
    requires config { hub.old.config ≡ simulated_config }
    requires least { 1 ≤ slots }
    requires most { slots ≤ MOST_SLOTS }
    ensures config { hub.new.config ≡ simulated_config }
    ensures joins { OnOk result ((number : ℕ) → gathered number hub.new nodes.new
        ≡ joins_as (gathered number hub.old nodes.old) i browser.now slots refuses) }
{
    let registration = registration_of(alloc, i, browser, slots)?;
    let text = Text::of(alloc, browser)?;
    let version = Text::of(alloc, VERSION)?;
    let node = LoopNode::new(alloc, i, text, version, slots, refuses);
    register(hub, registration)?;
    add(nodes, node)
}

/// How many slots a node has, by a draw below 4.
fn slots_of(number: u64) -> u16
    requires { number < 4 }
    ensures is { result ≡ 1 + number }
    ensures least { 1 ≤ result }
    ensures most { result ≤ MOST_SLOTS }
{
    1 + number as u16
}

/// How many first starts a node refuses, by a draw below 3.
fn refuses_of(number: u64) -> u32
    requires { number < 3 }
    ensures { result ≡ number }
{
    number as u32
}

/// Node i comes: what it is like is drawn.
fn join(
    alloc: Global,
    number: &mut u64,
    hub: &mut LocalHub,
    nodes: &mut LoopList,
    i: NodeNo,
) -> Result<(), NoMemory>
    requires config { hub.old.config ≡ simulated_config }
    ensures config { hub.new.config ≡ simulated_config }
    ensures joined { OnOk result (gathered number.new hub.new nodes.new
        ≡ joined (gathered number.old hub.old nodes.old) i) }
{
    let kind = draw(number, 3);
    let browser = browser_of(kind);
    let extra = draw(number, 4);
    let slots = slots_of(extra);
    let first = draw(number, 3);
    let refuses = refuses_of(first);
    enroll(alloc, hub, nodes, i, browser, slots, refuses)
}

/// How the hub of a simulation is set up.
pub fn simulated_config() -> HubConfig
    ensures is { result ≡ simulated_config }
    ensures valid { IsValid result }
{
    HubConfig {
        timeout_ms: 60_000,
        queue_requests: 50,
        ..HubConfig::default()
    }
}

/// A simulation before its first step.
fn at_rest(alloc: Global, number: u64, hub: LocalHub, nodes: LoopNodes) -> Simulation
    requires { hub.config ≡ simulated_config }
    ensures world { world_of result ≡ gathered number hub (nodes_reached nodes) }
    ensures sound { IsSound result }
    ensures moment { result.moment ≡ 0 }
{
    Simulation {
        number,
        moment: 0,
        hub,
        nodes,
        tickets: Vec::new(alloc),
        reservations: Vec::new(alloc),
        sessions: Vec::new(alloc),
    }
}

impl Simulation {
    /// The hub with its eight nodes.
    pub(crate) fn new(alloc: Global, number: u64) -> Result<Simulation, NoMemory>
        ensures crew { IfOk result (λ s. world_of s ≡ crew number 8) }
        ensures sound { IfOk result (λ s. IsSound s) }
        ensures moment { IfOk result (λ s. s.moment ≡ 0) }
    {
        let mut hub = LocalHub::new(alloc, simulated_config())?;
        let mut nodes = LoopList::new(alloc);
        let mut drawn = number;
        for i in 0..CREW {
            join(alloc, &mut drawn, &mut hub, &mut nodes, i + 1)?;
        }
        let reached = LoopNodes::new(alloc, nodes);
        Ok(at_rest(alloc, drawn, hub, reached))
    }
}
