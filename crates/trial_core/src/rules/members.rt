//! Capabilities in few words: a constant of a trial says them, and here they are made.
use grid_types::{Cap, CapValue, Caps, NoMemory, Text};
use std::alloc::Global;

#[derive(Clone, Copy)]
pub(crate) enum Kind {
    Text,
    Raw,
    On,
    Off,
}

/// A capability's name, the kind of its value, and the value's text. There is no capability where there is no name.
pub(crate) type Member = (&'static str, Kind, &'static str);

fn value_of(alloc: Global, kind: Kind, text: &str) -> Result<CapValue, NoMemory> {
    Ok(match kind {
        Kind::Text => CapValue::Text(Text::of(alloc, text)?),
        Kind::Raw => CapValue::Raw(Text::of(alloc, text)?),
        Kind::On => CapValue::Flag(true),
        Kind::Off => CapValue::Flag(false),
    })
}

fn cap_of(alloc: Global, member: &Member) -> Result<Cap, NoMemory> {
    let (name, kind, text) = *member;
    let name = Text::of(alloc, name)?;
    let value = value_of(alloc, kind, text)?;
    Ok(Cap { name, value })
}

// Borrows the capabilities, so that no early return drops them.
pub(crate) fn put(alloc: Global, caps: &mut Caps, member: &Member) -> Result<(), NoMemory> {
    if member.0.is_empty() {
        return Ok(());
    }
    match caps.push(cap_of(alloc, member)?) {
        Ok(()) => Ok(()),
        Err(_) => Err(NoMemory),
    }
}
