//! The driver as a node.
ghost use Rattle.std.specs.Prelude.{◌≡◌, ◌∷◌, ◌++◌, [], IfOk, OnOk};
ghost use Rattle.grid_attach.specs.Said.{node_said, offered, text_cap, told_cap};

use grid_types::{Cap, CapValue, Caps, Groups, NoMemory, Registration, SlotGroup, Text};
use server_words::AttachWords;
use std::alloc::Global;

fn push_text(alloc: Global, caps: &mut Caps, name: &str, text: &str) -> Result<(), NoMemory>
    ensures { OnOk result (caps.new ≡ caps.old ++ text_cap name.now text.now ∷ []) }
{
    let cap = Cap {
        name: Text::of(alloc, name)?,
        value: CapValue::Text(Text::of(alloc, text)?),
    };
    match caps.push(cap) {
        Ok(()) => Ok(()),
        Err(_) => Err(NoMemory),
    }
}

/// Tells it unless it is empty.
fn push_told(alloc: Global, caps: &mut Caps, name: &str, text: &str) -> Result<(), NoMemory>
    ensures { OnOk result (caps.new ≡ caps.old ++ told_cap name.now text.now) }
{
    if text.is_empty() {
        Ok(())
    } else {
        push_text(alloc, caps, name, text)
    }
}

/// What the words name themselves.
fn push_own(caps: &mut Caps, own: &Caps) -> Result<(), NoMemory>
    ensures { OnOk result (caps.new ≡ caps.old ++ own.now) }
{
    let items = own.items();
    'own: for item in items {
        match caps.push(item.clone()?) {
            Ok(()) => {}
            Err(_) => return Err(NoMemory),
        }
    }
    Ok(())
}

fn stereotype(alloc: Global, said: &AttachWords, version: &str) -> Result<Caps, NoMemory>
    ensures { IfOk result (λ caps. caps ≡ offered said.now version.now) }
{
    let mut caps = Caps::new(alloc);
    push_text(alloc, &mut caps, "browserName", said.browser.as_str())?;
    push_told(alloc, &mut caps, "browserVersion", version)?;
    push_told(alloc, &mut caps, "platformName", said.platform.as_str())?;
    push_own(&mut caps, &said.own)?;
    Ok(caps)
}

/// The driver as a node, with this version of its browser.
pub(crate) fn node(
    alloc: Global,
    said: &AttachWords,
    version: &str,
) -> Result<Registration, NoMemory>
    ensures { IfOk result (λ r. r ≡ node_said said.now version.now) }
{
    let mut groups = Groups::new(alloc);
    let group = SlotGroup {
        stereotype: stereotype(alloc, said, version)?,
        count: said.slots,
    };
    match groups.push(group) {
        Ok(()) => {}
        Err(_) => return Err(NoMemory),
    }
    Ok(Registration::new(
        Text::of(alloc, said.name.as_str())?,
        said.driver,
        said.slots,
        groups,
    ))
}
