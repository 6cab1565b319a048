//! The registration and the body of a beat as JSON.
ghost use Rattle.std.specs.Prelude.{◌≡◌, ◌++◌, IfOk, OnOk, map, string_bytes};
ghost use Rattle.std.specs.List.{join_with_byte};
ghost use Rattle.grid_types.specs.Capabilities.{json_string, written_caps};
ghost use Rattle.node_signs.specs.Signs.{beat_bytes, comma, registration_bytes, written_drain, written_group, written_names};

use grid_types::{Bytes, Caps, NoMemory, Registration, SlotGroup};
use std::alloc::Global;
use std::fmt::Write;
use wd_bodies::{caps_text, json_text};

/// The body by which a node registers.
pub fn registration_body(alloc: Global, node: &Registration) -> Result<Bytes, NoMemory>
    ensures { IfOk result (λ b. b ≡ registration_bytes node.now) }
{
    let mut text = String::from_str(alloc, "{\"name\":")?;
    push_names(alloc, &mut text, node)?;
    push_drain(&mut text, node.drain_after)?;
    text.push_str(",\"slots\":[")?;
    push_groups(alloc, &mut text, node.groups.items())?;
    text.push_str("]}")?;
    Ok(Bytes::from_vec(text.into_bytes()))
}

/// The body of the beats of a node of this name.
pub fn beat_body(alloc: Global, name: &str) -> Result<Bytes, NoMemory>
    ensures { IfOk result (λ b. b ≡ beat_bytes name.now) }
{
    let mut text = String::from_str(alloc, "{\"name\":")?;
    push_json(alloc, &mut text, name)?;
    text.push_str("}")?;
    Ok(Bytes::from_vec(text.into_bytes()))
}

fn push_names(alloc: Global, text: &mut String, node: &Registration) -> Result<(), NoMemory>
    ensures { OnOk result (string_bytes text.new
        ≡ string_bytes text.old ++ written_names node.now) }
{
    push_json(alloc, text, node.name.as_str())?;
    text.push_str(",\"address\":")?;
    push_json(alloc, text, node.address.as_str())?;
    write!(text, ",\"maxSessions\":{}", node.max_sessions)?;
    Ok(())
}

fn push_json(alloc: Global, text: &mut String, content: &str) -> Result<(), NoMemory>
    ensures { OnOk result (string_bytes text.new
        ≡ string_bytes text.old ++ json_string content.now) }
{
    text.push_str(json_text(alloc, content)?.as_str())?;
    Ok(())
}

fn push_drain(text: &mut String, drain_after: Option<u32>) -> Result<(), NoMemory>
    ensures { OnOk result (string_bytes text.new
        ≡ string_bytes text.old ++ written_drain drain_after) }
{
    if let Some(count) = drain_after {
        write!(text, ",\"drainAfter\":{count}")?;
    }
    Ok(())
}

fn push_groups(alloc: Global, text: &mut String, groups: &[SlotGroup]) -> Result<(), NoMemory>
    ensures { OnOk result (string_bytes text.new
        ≡ string_bytes text.old ++ join_with_byte 44 (map written_group groups.now)) }
{
    for (index, group) in groups.iter().enumerate() {
        push_comma(text, index)?;
        push_group(alloc, text, group)?;
    }
    Ok(())
}

/// A comma, unless the item is the first.
fn push_comma(text: &mut String, index: usize) -> Result<(), NoMemory>
    ensures { OnOk result (string_bytes text.new ≡ string_bytes text.old ++ comma index) }
{
    if index > 0 {
        text.push_str(",")?;
    }
    Ok(())
}

fn push_group(alloc: Global, text: &mut String, group: &SlotGroup) -> Result<(), NoMemory>
    ensures { OnOk result (string_bytes text.new
        ≡ string_bytes text.old ++ written_group group.now) }
{
    write!(text, "{{\"count\":{},\"stereotype\":", group.count)?;
    push_caps(alloc, text, &group.stereotype)?;
    text.push_str("}")?;
    Ok(())
}

fn push_caps(alloc: Global, text: &mut String, caps: &Caps) -> Result<(), NoMemory>
    ensures { OnOk result (string_bytes text.new ≡ string_bytes text.old ++ written_caps caps.now) }
{
    text.push_str(caps_text(alloc, caps)?.as_str())?;
    Ok(())
}
