//! How long a request may wait, by the extension capability `grid:queueTimeout` of its choices.
ghost use Rattle.std.specs.Prelude.{◌≡◌, List, ℕ, Option, codes};
ghost use Rattle.std.specs.Str.Parse.{digits_value};
ghost use Rattle.grid_types.specs.declared.capabilities.Cap.{Cap};
ghost use Rattle.grid_types.specs.declared.queue_time.TheConstants.{QUEUE_TIME_NAME};
ghost use Rattle.grid_types.specs.Lists.{first_some, when};
ghost use Rattle.grid_types.specs.QueueTime.{is_queue_time, queue_time_of, asked_time, queue_time};

use crate::capabilities::{Cap, CapValue, Caps, Choices};
use crate::config::HubConfig;
use crate::digits::are_digits;
use crate::limits::{LEAST_QUEUE_TIME_MS, MOST_QUEUE_TIME_MS};

/// The extension capability by which a request asks for a time of its own, in milliseconds.
pub const QUEUE_TIME_NAME: &str = "grid:queueTimeout";

/// The letters of that name, since definitions cite the constant. It does nothing.
pub fn queue_time_name()
    ensures { QUEUE_TIME_NAME.now ≡ codes "grid:queueTimeout" }
{}

/// The number of milliseconds that digits alone write, where a request may ask for it.
fn milliseconds(text: &str) -> Option<u64>
    ensures { result ≡ when (is_queue_time text.now) (digits_value 10 text.now) }
{
    if !are_digits(text.as_bytes()) {
        return None;
    }
    match text.parse::<u64>() {
        Ok(number) => {
            if number >= LEAST_QUEUE_TIME_MS && number <= MOST_QUEUE_TIME_MS {
                Some(number)
            } else {
                None
            }
        }
        Err(_) => None,
    }
}

/// The milliseconds that a value of that capability asks for: a number from 1,000 to 86,400,000 in digits alone, as its
/// JSON text. A value of any other form asks for none.
pub fn time_of_value(value: &CapValue) -> Option<u64>
    ensures { result ≡ queue_time_of value.now }
{
    match value {
        CapValue::Raw(text) => milliseconds(text.as_str()),
        CapValue::Text(_) => None,
        CapValue::Flag(_) => None,
    }
}

fn time_of_member(member: &Cap) -> Option<u64>
    ensures { result ≡ asked_time member.now }
{
    if member.name.as_str() == QUEUE_TIME_NAME {
        time_of_value(&member.value)
    } else {
        None
    }
}

fn time_of_list(members: &[Cap]) -> Option<u64>
    ensures { result ≡ first_some asked_time members.now }
{
    for member in members {
        if let Some(time) = time_of_member(member) {
            return Some(time);
        }
    }
    None
}

fn time_of_choices(lists: &[Caps]) -> Option<u64>
    ensures { result ≡ first_some (first_some asked_time) lists.now }
{
    for caps in lists {
        if let Some(time) = time_of_list(caps.items()) {
            return Some(time);
        }
    }
    None
}

/// The milliseconds that a request of these choices may wait: what the first list asks for that asks for any, else the
/// hub's own time. It takes no memory.
pub fn time_to_wait(choices: &Choices, config: &HubConfig) -> u64
    ensures { result ≡ queue_time config.now choices.now }
{
    match time_of_choices(choices.items()) {
        Some(time) => time,
        None => config.timeout_ms,
    }
}
