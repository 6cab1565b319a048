//! What the node says of itself.
ghost use Rattle.std.specs.Prelude.{◌≡◌, ◌∷◌, ◌++◌, [], IfOk};
ghost use Rattle.grid_node.specs.Registration.{local_address, node_registration, node_stereotype, text_cap};

use grid_types::{
    Cap, CapValue, Caps, Groups, NoMemory, NodeAddress, Registration, SlotGroup, Text,
};
use std::alloc::Global;

/// The version of a node's browser.
pub(crate) const VERSION: &str = "126.0";

fn push_text(alloc: Global, caps: &mut Caps, name: &str, text: &str) -> Result<(), NoMemory>
    ensures { IfOk result (λ _. caps.new ≡ caps.old ++ text_cap name.now text.now ∷ []) }
{
    let cap = Cap {
        name: Text::of(alloc, name)?,
        value: CapValue::Text(Text::of(alloc, text)?),
    };
    match caps.push(cap) {
        Ok(()) => Ok(()),
        Err(_) => Err(NoMemory),
    }
}

fn stereotype(alloc: Global, browser: &str) -> Result<Caps, NoMemory>
    ensures { IfOk result (λ caps. caps ≡ node_stereotype browser.now) }
{
    let mut caps = Caps::new(alloc);
    push_text(alloc, &mut caps, "browserName", browser)?;
    push_text(alloc, &mut caps, "browserVersion", VERSION)?;
    push_text(alloc, &mut caps, "platformName", "linux")?;
    Ok(caps)
}

/// A port of this machine, as a node's address.
fn local_address(alloc: Global, port: u16) -> Result<NodeAddress, NoMemory>
    ensures { IfOk result (λ a. a ≡ local_address port) }
{
    let text = format!(in alloc; "127.0.0.1:{port}")?;
    match NodeAddress::from_bytes(text.as_bytes()) {
        Some(address) => Ok(address),
        None => unreachable!(),
    }
}

/// A node at a port of this machine, with one group of as many slots as it may have sessions.
pub(crate) fn registration(
    alloc: Global,
    name: &str,
    port: u16,
    browser: &str,
    slots: u16,
) -> Result<Registration, NoMemory>
    ensures { IfOk result (λ r. r ≡ node_registration name.now port browser.now slots) }
{
    let mut groups = Groups::new(alloc);
    let group = SlotGroup {
        stereotype: stereotype(alloc, browser)?,
        count: slots,
    };
    if groups.push(group).is_err() {
        return Err(NoMemory);
    }
    Ok(Registration::new(
        Text::of(alloc, name)?,
        local_address(alloc, port)?,
        slots,
        groups,
    ))
}
