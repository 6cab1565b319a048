//! Capabilities that the words name themselves.
ghost use Rattle.std.specs.Prelude.{◌≡◌, IfOk, is_some, map};
ghost use Rattle.server_words.specs.OwnCapabilities.{named_cap, own_cap, own_caps, own_value};
ghost use Rattle.server_words.specs.Puts.{Puts};

use grid_types::{Cap, CapValue, Caps, NoMemory, Text};
use serde_json::Value;
use std::alloc::Global;

/// JSON stands as it was written, any other text for itself.
fn own_value(alloc: Global, text: &str) -> Result<CapValue, NoMemory>
    ensures { IfOk result (λ v. v ≡ own_value text.now) }
{
    match Value::from_str(alloc, text) {
        Ok(_) => Ok(CapValue::Raw(Text::of(alloc, text)?)),
        Err(error) => {
            if error.is_memory() {
                Err(NoMemory)
            } else {
                Ok(CapValue::Text(Text::of(alloc, text)?))
            }
        }
    }
}

fn named_cap(alloc: Global, name: &str, text: &str) -> Result<Option<Cap>, NoMemory>
    ensures { IfOk result (λ cap. cap ≡ named_cap name.now text.now) }
{
    if name.is_empty() {
        return Ok(None);
    }
    Ok(Some(Cap {
        name: Text::of(alloc, name)?,
        value: own_value(alloc, text)?,
    }))
}

/// The capability that a text `NAME=VALUE` names; None where it names none.
fn own_cap(alloc: Global, text: &str) -> Result<Option<Cap>, NoMemory>
    ensures { IfOk result (λ cap. cap ≡ own_cap text.now) }
{
    match text.split_once('=') {
        Some((name, value)) => named_cap(alloc, name, value),
        None => Ok(None),
    }
}

/// Whether the text names a capability.
pub fn names_capability(text: &str) -> bool
    ensures { result ≡ is_some (own_cap text.now) }
{
    match text.split_once('=') {
        Some((name, _)) => !name.is_empty(),
        None => false,
    }
}

/// Puts the capabilities of all texts behind the others. False: a text names none.
pub(crate) fn put_own(alloc: Global, texts: &[&str], caps: &mut Caps) -> Result<bool, NoMemory>
    ensures { IfOk result (λ all. Puts all (own_caps (map (λ s. s.now) texts.now)) caps.old
        caps.new) }
{
    match texts {
        [] => Ok(true),
        [text, others @ ..] => match own_cap(alloc, *text)? {
            Some(cap) => match caps.push(cap) {
                Ok(()) => put_own(alloc, others, caps),
                Err(_) => Err(NoMemory),
            },
            None => Ok(false),
        },
    }
}
