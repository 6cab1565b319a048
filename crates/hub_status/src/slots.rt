//! The slots of a group.
ghost use Rattle.std.specs.Prelude.{◌≡◌, ◌+◌, ◌<◌, ◌^◌, ◌++◌, OnOk, length, string_bytes};
ghost use Rattle.std.specs.List.{join_with_byte};
ghost use Rattle.hub_status.specs.Status.{state_name as name_of, state_session, written_state, written_states};

use crate::comma::push_comma;
use grid_types::{NoMemory, SlotState};
use std::fmt::Write;

/// The slots, the first of which has this index in its node.
pub(crate) fn push_states(
    text: &mut String,
    first: usize,
    states: &[SlotState],
) -> Result<(), NoMemory>
    requires { first + length states.now < 2 ^ 64 }
    ensures { OnOk result (string_bytes text.new
        ≡ string_bytes text.old ++ join_with_byte 44 (written_states first states.now)) }
{
    for (index, state) in states.iter().enumerate() {
        push_comma(text, index)?;
        push_state(text, first + index, state)?;
    }
    Ok(())
}

fn push_state(text: &mut String, index: usize, state: &SlotState) -> Result<(), NoMemory>
    ensures { OnOk result (string_bytes text.new
        ≡ string_bytes text.old ++ written_state index state.now) }
{
    write!(
        text,
        "{{\"slot\":{index},\"state\":\"{}\",\"session\":",
        state_name(state)
    )?;
    push_session(text, state)?;
    text.push_str("}")?;
    Ok(())
}

fn state_name(state: &SlotState) -> &'static str
    ensures { result.now ≡ name_of state.now }
{
    match state {
        SlotState::Free => "FREE",
        SlotState::Held => "HELD",
        SlotState::Busy(_) => "BUSY",
        SlotState::Closing => "CLOSING",
    }
}

/// Ids are letters, digits, '-' and '_', so they need no escape.
fn push_session(text: &mut String, state: &SlotState) -> Result<(), NoMemory>
    ensures { OnOk result (string_bytes text.new
        ≡ string_bytes text.old ++ state_session state.now) }
{
    match state {
        SlotState::Busy(session) => {
            text.push_str("\"")?;
            text.push_str(session.as_str())?;
            text.push_str("\"")?;
        }
        SlotState::Free | SlotState::Held | SlotState::Closing => text.push_str("null")?,
    }
    Ok(())
}
