//! Capabilities as JSON.
ghost use Rattle.std.specs.Prelude.{◌≡◌, ◌++◌, ◌∷◌, if◌then◌else◌, not, bytes_eq, IfOk, OnOk, map, string_bytes};
ghost use Rattle.std.specs.List.{join_with_byte};
ghost use Rattle.grid_types.specs.Capabilities.{json_string, written_value, written_member, written_caps};
ghost use Rattle.wd_bodies.specs.Bodies.{is_for_nodes, for_nodes};

use grid_types::{Cap, CapValue, Caps, NoMemory, QUEUE_TIME_NAME, Text};
use std::alloc::Global;

/// The capabilities as a JSON object, in their order and without white space.
pub fn caps_text(alloc: Global, caps: &Caps) -> Result<Text, NoMemory>
    ensures { IfOk result (λ t. t ≡ written_caps caps.now) }
{
    let mut text = String::from_str(alloc, "{")?;
    push_members(alloc, &mut text, caps.items())?;
    text.push_str("}")?;
    Ok(Text::from_string(text))
}

fn push_members(alloc: Global, text: &mut String, members: &[Cap]) -> Result<(), NoMemory>
    ensures { OnOk result (string_bytes text.new
        ≡ string_bytes text.old ++ join_with_byte 44 (map written_member members.now)) }
{
    for (index, member) in members.iter().enumerate() {
        if index > 0 {
            text.push_str(",")?;
        }
        push_member(alloc, text, member)?;
    }
    Ok(())
}

/// The capabilities that a node is asked for, as a JSON object: all but those for the hub alone.
pub(crate) fn text_for_nodes(alloc: Global, caps: &Caps) -> Result<Text, NoMemory>
    ensures { IfOk result (λ t. t ≡ written_caps (for_nodes caps.now)) }
{
    let mut text = String::from_str(alloc, "{")?;
    push_for_nodes(alloc, &mut text, caps.items())?;
    text.push_str("}")?;
    Ok(Text::from_string(text))
}

fn push_for_nodes(alloc: Global, text: &mut String, members: &[Cap]) -> Result<(), NoMemory>
    ensures { OnOk result (string_bytes text.new
        ≡ string_bytes text.old ++ join_with_byte 44 (map written_member (for_nodes members.now))) }
{
    let mut is_first = true;
    for member in members {
        if is_for_nodes(member) {
            push_after(alloc, text, is_first, member)?;
            is_first = false;
        }
    }
    Ok(())
}

/// A request's own time to wait is for the hub alone.
fn is_for_nodes(member: &Cap) -> bool
    ensures { result ≡ is_for_nodes member.now }
{
    member.name.as_str() != QUEUE_TIME_NAME
}

/// The member, behind a comma where it is not the first.
fn push_after(
    alloc: Global,
    text: &mut String,
    is_first: bool,
    member: &Cap,
) -> Result<(), NoMemory>
    ensures { OnOk result (string_bytes text.new ≡ string_bytes text.old
        ++ (if is_first then written_member member.now else 44 ∷ written_member member.now)) }
{
    if !is_first {
        text.push_str(",")?;
    }
    push_member(alloc, text, member)
}

fn push_member(alloc: Global, text: &mut String, member: &Cap) -> Result<(), NoMemory>
    ensures { OnOk result (string_bytes text.new
        ≡ string_bytes text.old ++ written_member member.now) }
{
    text.push_str(json_text(alloc, member.name.as_str())?.as_str())?;
    text.push_str(":")?;
    push_value(alloc, text, &member.value)
}

fn push_value(alloc: Global, text: &mut String, value: &CapValue) -> Result<(), NoMemory>
    ensures { OnOk result (string_bytes text.new
        ≡ string_bytes text.old ++ written_value value.now) }
{
    match value {
        CapValue::Text(content) => text.push_str(json_text(alloc, content.as_str())?.as_str())?,
        CapValue::Flag(true) => text.push_str("true")?,
        CapValue::Flag(false) => text.push_str("false")?,
        CapValue::Raw(json) => text.push_str(json.as_str())?,
    }
    Ok(())
}

/// The text as a JSON string, in its quotes (RFC 8259 §7).
pub fn json_text(alloc: Global, text: &str) -> Result<Text, NoMemory>
    ensures { IfOk result (λ t. t ≡ json_string text.now) }
{
    // A text is never refused, so an error is out of memory.
    match serde_json::to_string(alloc, &text) {
        Ok(written) => Ok(Text::from_string(written)),
        Err(_) => Err(NoMemory),
    }
}
