//! Worked cases of what a dispatch compares. No code can read a counter, so that it stays low is what these functions
//! promise.
ghost use Rattle.std.specs.Prelude.{◌≡◌, ◌<◌, ◌+◌, ◌*◌, ◌≤◌, ℕ, true, false, [], List, length, IfOk, OnOk};
ghost use Rattle.grid_types.specs.declared.capabilities.Cap.{Cap};
ghost use Rattle.grid_types.specs.Permitted.{is_well_sized};
ghost use Rattle.hub_core.specs.CoreStands.{Stands};
ghost use Rattle.trial_core.specs.Plain.{IsPlainCore, KeepsPlain, NoneWaits, StandsForSome};

use grid_types::{
    Cap, CapValue, Caps, Choices, Groups, HubConfig, Moment, NodeAddress, Registration, SlotGroup,
    Text,
};
use hub_core::{Dispatched, Enqueued, HubCore, Registering};
use request_laws::kinds_tell;
use slot_match::Steps;
use std::alloc::Global;
use std::marker::Brand;
use std::process::Abort;
use std::sync::ledger::{Blank, Ledger};
use trial_desk::Fault;

/// How many requests wait.
const WAITING: u32 = 10_000;

fn browser_name(alloc: Global, name: &str) -> Result<Cap, Fault> {
    Ok(Cap {
        name: Text::of(alloc, "browserName")?,
        value: CapValue::Text(Text::of(alloc, name)?),
    })
}

fn browser(alloc: Global, name: &str) -> Result<Caps, Fault> {
    let member = browser_name(alloc, name)?;
    let mut caps = Caps::new(alloc);
    let pushed = caps.push(member);
    let so = pushed.is_ok();
    // Let go by a call: the check of a value that ends by itself writes out all its fields.
    drop(pushed);
    if so {
        Ok(caps)
    } else {
        drop(caps);
        Err(Fault::Memory)
    }
}

fn firefox(alloc: Global) -> Result<Choices, Fault>
    ensures { IfOk result (λ choices. length choices ≡ 1) }
{
    let caps = browser(alloc, "firefox")?;
    match Choices::one(alloc, caps) {
        Ok(choices) => Ok(choices),
        Err(_) => Err(Fault::Memory),
    }
}

/// A node of one slot for chrome.
fn node(alloc: Global, name: &str) -> Result<Registration, Fault>
    ensures sized { IfOk result (λ r. is_well_sized r ≡ true) }
    ensures one { IfOk result (λ r. length r.groups ≤ 1) }
{
    let address = NodeAddress::from_bytes(b"127.0.0.1:1").ok_or(Fault::NotTaken)?;
    let name = Text::of(alloc, name)?;
    let group = SlotGroup {
        stereotype: browser(alloc, "chrome")?,
        count: 1,
    };
    let mut groups = Groups::new(alloc);
    match groups.push(group) {
        Ok(()) => {}
        Err(back) => {
            drop(back);
            drop(groups);
            return Err(Fault::Memory);
        }
    }
    Ok(Registration::new(name, address, 1, groups))
}

fn register(core: &mut HubCore, registration: Registration) -> Registering
    requires sized { is_well_sized registration ≡ true }
    requires one { length registration.groups ≤ 1 }
    ensures { (choices : List (List Cap)) → KeepsPlain 1 choices core.old core.new }
{
    core.register(1, registration, Moment(5))
}

fn registered(answer: Registering) -> Result<(), Fault> {
    match answer {
        Registering::Registered(_) => Ok(()),
        Registering::Memory(_) => Err(Fault::Memory),
        _ => Err(Fault::NotTaken),
    }
}

fn register_named(core: &mut HubCore, alloc: Global, name: &str) -> Result<(), Fault>
    ensures { OnOk result ((choices : List (List Cap)) → KeepsPlain 1 choices core.old core.new) }
{
    let registration = node(alloc, name)?;
    let answer = register(core, registration);
    registered(answer)?;
    Ok(())
}

fn register_four(core: &mut HubCore, alloc: Global) -> Result<(), Fault>
    ensures { OnOk result ((choices : List (List Cap)) → KeepsPlain 4 choices core.old core.new) }
{
    let _a = register_named(core, alloc, "a")?;
    let _b = register_named(core, alloc, "b")?;
    let _c = register_named(core, alloc, "c")?;
    let _d = register_named(core, alloc, "d")?;
    Ok(())
}

fn enqueue<L: Ledger>(core: &mut HubCore, choices: Choices, steps: &mut Steps<L>) -> Enqueued
    requires { core.old.config.reject_unsupported ≡ false }
    ensures plain { KeepsPlain 0 choices core.old core.new }
    ensures free { steps.new ≡ steps.old }
{
    let _lists = choices.items();
    core.enqueue(1, choices, Moment(10), steps)
}

fn queued(answer: Enqueued) -> Result<(), Fault> {
    match answer {
        Enqueued::Queued(_) => Ok(()),
        Enqueued::Memory => Err(Fault::Memory),
        other => {
            drop(other);
            Err(Fault::NoToken)
        }
    }
}

fn enqueue_copy<L: Ledger>(
    core: &mut HubCore,
    choices: &Choices,
    steps: &mut Steps<L>,
) -> Result<(), Fault>
    requires { core.old.config.reject_unsupported ≡ false }
    ensures plain { OnOk result (KeepsPlain 0 choices.now core.old core.new) }
    ensures free { steps.new ≡ steps.old }
{
    let Ok(copy) = choices.clone() else {
        return Err(Fault::Memory);
    };
    let answer = enqueue(core, copy, steps);
    queued(answer)?;
    Ok(())
}

fn enqueue_all<L: Ledger>(
    core: &mut HubCore,
    choices: &Choices,
    count: u32,
    steps: &mut Steps<L>,
) -> Result<(), Fault>
    requires { core.old.config.reject_unsupported ≡ false }
    ensures plain { OnOk result (KeepsPlain 0 choices.now core.old core.new) }
    ensures free { steps.new ≡ steps.old }
{
    for _ in 0..count {
        enqueue_copy(core, choices, steps)?;
    }
    Ok(())
}

/// Whether nothing is dispatched. Where equal requests wait, each of their choices is compared with each node once at
/// most, and nothing is compared where none waits.
fn dispatches_nothing<L: Ledger>(core: &mut HubCore, steps: &mut Steps<L>) -> bool
    ensures some { StandsForSome core.old → StandsForSome core.new }
    ensures few { (most : ℕ) (choices : List (List Cap)) → IsPlainCore most choices core.old →
        steps.new ≤ steps.old + length choices * most }
    ensures none { NoneWaits core.old → steps.new ≤ steps.old }
{
    // For the proof alone: equal requests are of one kind.
    kinds_tell();
    let answer = core.dispatch(1, Moment(11), steps);
    is_nothing(answer)
}

fn is_nothing(answer: Dispatched) -> bool {
    let so = matches!(answer, Dispatched::Nothing);
    drop(answer);
    so
}

/// Four nodes of one group each and so many requests that none of them serves: whether nothing is dispatched. Four
/// comparisons are made at most.
fn waits_in_vain<L: Ledger>(
    alloc: Global,
    core: &mut HubCore,
    count: u32,
    steps: &mut Steps<L>,
) -> Result<bool, Fault>
    requires stands { Stands core.old [] }
    requires takes { core.old.config.reject_unsupported ≡ false }
    ensures some { IfOk result (λ b. StandsForSome core.new) }
    ensures four { steps.new ≤ steps.old + 4 }
{
    let choices = firefox(alloc)?;
    let _nodes = register_four(core, alloc)?;
    let _requests = enqueue_all(core, &choices, count, steps)?;
    let is_so = dispatches_nothing(core, steps);
    Ok(is_so)
}

/// Clears all requests: whether there were so many, and then nothing is dispatched. Nothing is compared.
fn clears_all<L: Ledger>(core: &mut HubCore, count: u32, steps: &mut Steps<L>) -> bool
    requires { StandsForSome core.old }
    ensures { steps.new ≤ steps.old }
{
    let cleared = core.clear(1, Moment(12));
    let is_so = dispatches_nothing(core, steps);
    is_so & (cleared == count)
}

/// Both cases one behind the other.
fn plays<L: Ledger>(alloc: Global, core: &mut HubCore, blank: Blank) -> Result<bool, Fault>
    requires name { blank.name ≡ L.name }
    requires parts { blank.parts ≡ L.parts }
    requires some { 0 < L.parts }
    requires stands { Stands core.old [] }
    requires takes { core.old.config.reject_unsupported ≡ false }
{
    let mut steps = Steps::<L>::new(blank);
    let waits = waits_in_vain(alloc, core, WAITING, &mut steps)?;
    let clears = clears_all(core, WAITING, &mut steps);
    Ok(waits && clears)
}

#[test]
fn many_equal_requests_wait_in_vain(rt: HostRuntime) -> Result<(), Fault> {
    let config = HubConfig::default();
    assert!(rt; config.is_valid());
    let mut core = HubCore::new(rt.alloc(), config)?;
    let plays = plays::<Brand>(rt.alloc(), &mut core, Blank::new(1));
    drop(core);
    let plays = plays?;
    assert!(rt; plays);
    Ok(())
}
