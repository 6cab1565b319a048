//! What is handed to a hub in a trial.
ghost use Rattle.std.specs.Prelude.{◌≡◌, ◌≤◌, true, IfOk};
ghost use Rattle.grid_types.specs.Permitted.{is_drain_count, is_well_sized};

use crate::answers::Fault;
use grid_types::{
    Cap, CapValue, Caps, Choices, Groups, NodeAddress, QUEUE_TIME_NAME, Registration, SlotGroup,
    Text,
};
use std::alloc::Global;

/// The capabilities `{"browserName":"NAME"}`.
pub(crate) fn browser(alloc: Global, name: &str) -> Result<Caps, Fault> {
    let mut caps = Caps::new(alloc);
    let member = Cap {
        name: Text::of(alloc, "browserName")?,
        value: CapValue::Text(Text::of(alloc, name)?),
    };
    match caps.push(member) {
        Ok(()) => Ok(caps),
        Err(_) => Err(Fault::Memory),
    }
}

/// Adds the member by which a request asks to wait for so many milliseconds.
pub(crate) fn ask_to_wait(alloc: Global, caps: &mut Caps, time_ms: u64) -> Result<(), Fault> {
    let Ok(text) = format!(in alloc; "{time_ms}") else {
        return Err(Fault::Memory);
    };
    let member = Cap {
        name: Text::of(alloc, QUEUE_TIME_NAME)?,
        value: CapValue::Raw(Text::from_string(text)),
    };
    match caps.push(member) {
        Ok(()) => Ok(()),
        Err(_) => Err(Fault::Memory),
    }
}

/// One choice of these capabilities.
pub(crate) fn only(alloc: Global, caps: Caps) -> Result<Choices, Fault> {
    match Choices::one(alloc, caps) {
        Ok(choices) => Ok(choices),
        Err(_) => Err(Fault::Memory),
    }
}

/// A node with so many slots of one browser, all of which may run at once, that drains after a count of sessions where it
/// has one.
pub(crate) fn node(
    alloc: Global,
    name: Text,
    address: NodeAddress,
    stereotype: Caps,
    slots: u16,
    drain_after: Option<u32>,
) -> Result<Registration, Fault>
    requires least { 1 ≤ slots }
    requires most { slots ≤ 64 }
    requires count { is_drain_count drain_after ≡ true }
    ensures { IfOk result (λ r. is_well_sized r ≡ true) }
{
    let mut groups = Groups::new(alloc);
    let group = SlotGroup {
        stereotype,
        count: slots,
    };
    if groups.push(group).is_err() {
        return Err(Fault::Memory);
    }
    Ok(Registration {
        name,
        address,
        max_sessions: slots,
        groups,
        drain_after,
    })
}

pub(crate) fn address(text: &str) -> Result<NodeAddress, Fault> {
    NodeAddress::from_bytes(text.as_bytes()).ok_or(Fault::NotTaken)
}
