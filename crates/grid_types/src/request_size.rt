//! How many bytes the choices of a request take, written as JSON.
ghost use Rattle.std.specs.Prelude.{◌≡◌, ◌-◌, ◌^◌, min, length};
ghost use Rattle.grid_types.specs.Capabilities.{escaped, json_string, written_value, written_member, written_caps, request_bytes};

use crate::capabilities::{Cap, CapValue, Caps};

/// How many bytes a byte takes inside a JSON string.
fn escaped_len(b: u8) -> u64
    ensures { result ≡ length (escaped b) }
{
    match b {
        b'"' | b'\\' | 8 | 9 | 10 | 12 | 13 => 2,
        0..=31 => 6,
        _ => 1,
    }
}

/// How many bytes a text takes as a JSON string.
fn string_len(text: &str) -> u64
    ensures { result ≡ min (length (json_string text.now)) (2 ^ 64 - 1) }
{
    let mut len: u64 = 2;
    for b in text.as_bytes() {
        len = len.saturating_add(escaped_len(*b));
    }
    len
}

fn value_len(value: &CapValue) -> u64
    ensures { result ≡ min (length (written_value value.now)) (2 ^ 64 - 1) }
{
    match value {
        CapValue::Text(text) => string_len(text.as_str()),
        CapValue::Flag(true) => 4,
        CapValue::Flag(false) => 5,
        CapValue::Raw(text) => text.as_str().len() as u64,
    }
}

fn member_len(member: &Cap) -> u64
    ensures { result ≡ min (length (written_member member.now)) (2 ^ 64 - 1) }
{
    string_len(member.name.as_str())
        .saturating_add(1)
        .saturating_add(value_len(&member.value))
}

/// How many bytes the capabilities take as a JSON object: each member has a comma or the last brace behind it.
#[tactic(auto, using(crate::proofs::SizeLemmas::total_step, crate::proofs::SizeLemmas::no_caps_length))]
fn caps_len(caps: &Caps) -> u64
    ensures { result ≡ min (length (written_caps caps.now)) (2 ^ 64 - 1) }
{
    let members = caps.items();
    if members.is_empty() {
        return 2;
    }
    let mut len: u64 = 1;
    for member in members {
        len = len.saturating_add(member_len(member)).saturating_add(1);
    }
    len
}

/// The bytes of a request with these choices: the lengths of their texts as JSON objects (RFC 8259), added up, or the
/// type's end where they pass it.
#[tactic(auto, using(crate::proofs::SizeLemmas::total_step), unfolding(crate::specs::Capabilities::request_bytes))]
pub fn request_bytes(choices: &[Caps]) -> u64
    ensures { result ≡ min (request_bytes choices.now) (2 ^ 64 - 1) }
{
    let mut bytes: u64 = 0;
    for caps in choices {
        bytes = bytes.saturating_add(caps_len(caps));
    }
    bytes
}
