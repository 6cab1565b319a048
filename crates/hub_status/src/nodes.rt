//! The nodes of a status, with their groups of slots.
ghost use Rattle.std.specs.Prelude.{◌≡◌, ◌+◌, ◌<◌, ◌≤◌, ◌^◌, ◌++◌, OnOk, length, map, min, string_bytes};
ghost use Rattle.std.specs.List.{join_with_byte};
ghost use Rattle.grid_types.specs.Capabilities.{written_caps};
ghost use Rattle.hub_status.specs.Status.{availability as availability_of, written_group, written_groups, written_limits, written_names, written_node};

use crate::comma::push_comma;
use crate::slots::push_states;
use grid_types::{Caps, NoMemory, NodeView, SlotGroup, SlotState, Standing};
use std::alloc::Global;
use std::fmt::Write;
use wd_bodies::{caps_text, json_text};

pub(crate) fn push_nodes(
    alloc: Global,
    text: &mut String,
    nodes: &[NodeView],
) -> Result<(), NoMemory>
    ensures { OnOk result (string_bytes text.new
        ≡ string_bytes text.old ++ join_with_byte 44 (map written_node nodes.now)) }
{
    for (index, node) in nodes.iter().enumerate() {
        push_comma(text, index)?;
        push_node(alloc, text, node)?;
    }
    Ok(())
}

fn push_node(alloc: Global, text: &mut String, node: &NodeView) -> Result<(), NoMemory>
    ensures { OnOk result (string_bytes text.new ≡ string_bytes text.old ++ written_node node.now) }
{
    push_names(alloc, text, node)?;
    push_limits(text, node)?;
    text.push_str(",\"slots\":[")?;
    push_groups(
        alloc,
        text,
        node.registration.groups.items(),
        node.slots.items(),
    )?;
    text.push_str("]}")?;
    Ok(())
}

fn push_names(alloc: Global, text: &mut String, node: &NodeView) -> Result<(), NoMemory>
    ensures { OnOk result (string_bytes text.new
        ≡ string_bytes text.old ++ written_names node.now) }
{
    write!(text, "{{\"node\":{},\"name\":", node.node)?;
    text.push_str(json_text(alloc, node.registration.name.as_str())?.as_str())?;
    text.push_str(",\"address\":")?;
    text.push_str(json_text(alloc, node.registration.address.as_str())?.as_str())?;
    Ok(())
}

fn push_limits(text: &mut String, node: &NodeView) -> Result<(), NoMemory>
    ensures { OnOk result (string_bytes text.new
        ≡ string_bytes text.old ++ written_limits node.now) }
{
    write!(
        text,
        ",\"availability\":\"{}\"",
        availability(node.standing)
    )?;
    write!(text, ",\"maxSessions\":{}", node.registration.max_sessions)?;
    Ok(())
}

fn availability(standing: Standing) -> &'static str
    ensures { result.now ≡ availability_of standing }
{
    match standing {
        Standing::Up => "UP",
        Standing::Suspect => "SUSPECT",
        Standing::Draining => "DRAINING",
        Standing::Down => "DOWN",
        Standing::Gone => "GONE",
    }
}

/// Each group shows as many of the slots as it counts.
fn push_groups(
    alloc: Global,
    text: &mut String,
    groups: &[SlotGroup],
    slots: &[SlotState],
) -> Result<(), NoMemory>
    ensures { OnOk result (string_bytes text.new
        ≡ string_bytes text.old ++ join_with_byte 44 (written_groups 0 groups.now slots.now)) }
{
    let mut first = 0;
    let mut rest = slots;
    for (index, group) in groups.iter().enumerate() {
        let (own, others) = rest.split_at(slots_of(group, rest));
        push_comma(text, index)?;
        push_group(alloc, text, group, first, own)?;
        first += own.len();
        rest = others;
    }
    Ok(())
}

fn push_group(
    alloc: Global,
    text: &mut String,
    group: &SlotGroup,
    first: usize,
    slots: &[SlotState],
) -> Result<(), NoMemory>
    requires { first + length slots.now < 2 ^ 64 }
    ensures { OnOk result (string_bytes text.new
        ≡ string_bytes text.old ++ written_group first group.now slots.now) }
{
    text.push_str("{\"stereotype\":")?;
    push_caps(alloc, text, &group.stereotype)?;
    text.push_str(",\"states\":[")?;
    push_states(text, first, slots)?;
    text.push_str("]}")?;
    Ok(())
}

/// How many of the slots are the group's.
fn slots_of(group: &SlotGroup, rest: &[SlotState]) -> usize
    ensures { result ≡ min group.now.count (length rest.now) }
{
    usize::from(group.count).min(rest.len())
}

fn push_caps(alloc: Global, text: &mut String, caps: &Caps) -> Result<(), NoMemory>
    ensures { OnOk result (string_bytes text.new ≡ string_bytes text.old ++ written_caps caps.now) }
{
    text.push_str(caps_text(alloc, caps)?.as_str())?;
    Ok(())
}
