//! What stands for a key.
ghost use Rattle.std.specs.Prelude.{◌≡◌, IfOk, option_map, decimal, Some};
ghost use Rattle.std.specs.List.{list_all};
ghost use Rattle.toml.specs.View.{view};
ghost use Rattle.grid_config.specs.Values.{begins_with_dash, has_form, is_address, is_capability, is_label, is_name, is_path, is_plain, is_printing, is_sync, number_within, text_of, truth, word_for};

use crate::rows::{Form, Kind};
use grid_types::{NoMemory, Text, are_node_name_bytes};
use server_words::{address_in, names_capability};
use std::alloc::Global;
use toml::Value;

/// The most bytes of a name.
const MOST_NAME_BYTES: usize = 64;

/// The most bytes of a path, one fewer than Linux takes with the byte behind it.
const MOST_PATH_BYTES: usize = 4_095;

/// The last control character of ASCII.
const DELETE: u8 = 127;

fn are_plain(text: &[u8]) -> bool
    ensures { result ≡ list_all is_plain text.now }
{
    text.iter().all(|b| *b >= b'!' && *b <= b'~')
}

fn begins_with_dash(text: &[u8]) -> bool
    ensures { result ≡ begins_with_dash text.now }
{
    match text {
        [first, ..] => *first == b'-',
        [] => false,
    }
}

fn is_name(text: &[u8]) -> bool
    ensures { result ≡ is_name text.now }
{
    text.len() >= 1 && text.len() <= MOST_NAME_BYTES && are_plain(text) && !begins_with_dash(text)
}

fn is_label(text: &[u8]) -> bool
    ensures { result ≡ is_label text.now }
{
    is_name(text) && are_node_name_bytes(text)
}

fn is_address(text: &str) -> bool
    ensures { result ≡ is_address text.now }
{
    address_in(text).is_some() && !begins_with_dash(text.as_bytes())
}

fn is_capability(text: &str) -> bool
    ensures { result ≡ is_capability text.now }
{
    names_capability(text) && !begins_with_dash(text.as_bytes())
}

fn are_printing(text: &[u8]) -> bool
    ensures { result ≡ list_all is_printing text.now }
{
    text.iter().all(|b| *b >= b' ' && !(*b == DELETE))
}

fn is_path(text: &[u8]) -> bool
    ensures { result ≡ is_path text.now }
{
    text.len() >= 1
        && text.len() <= MOST_PATH_BYTES
        && are_printing(text)
        && !begins_with_dash(text)
}

fn is_sync(text: &str) -> bool
    ensures { result ≡ is_sync text.now }
{
    text == "each" || text == "second"
}

fn has_form(form: Form, text: &str) -> bool
    ensures { result ≡ has_form form text.now }
{
    match form {
        Form::Name => is_name(text.as_bytes()),
        Form::Label => is_label(text.as_bytes()),
        Form::Address => is_address(text),
        Form::Capability => is_capability(text),
        Form::Path => is_path(text.as_bytes()),
        Form::Sync => is_sync(text),
    }
}

/// The number, where it is between the limits.
fn within(least: u32, most: u32, number: i64) -> Option<u32>
    ensures { option_map decimal result ≡ number_within least most number }
{
    match u32::try_from(number) {
        Ok(number) => {
            if least <= number && number <= most {
                Some(number)
            } else {
                None
            }
        }
        Err(_) => None,
    }
}

fn truth_text(holds: bool) -> &'static str
    ensures { result.now ≡ truth holds }
{
    if holds { "true" } else { "false" }
}

fn number_word(alloc: Global, number: u32) -> Result<Text, NoMemory>
    ensures { IfOk result (λ text. text ≡ decimal number) }
{
    Ok(Text::from_string(format!(in alloc; "{number}")?))
}

fn some_text(alloc: Global, text: &str) -> Result<Option<Text>, NoMemory>
    ensures { IfOk result (λ word. word ≡ Some text.now) }
{
    Ok(Some(Text::of(alloc, text)?))
}

fn text_word(alloc: Global, form: Form, text: &str) -> Result<Option<Text>, NoMemory>
    ensures { IfOk result (λ word. word ≡ text_of form text.now) }
{
    if has_form(form, text) {
        some_text(alloc, text)
    } else {
        Ok(None)
    }
}

fn some_number(alloc: Global, number: Option<u32>) -> Result<Option<Text>, NoMemory>
    ensures { IfOk result (λ word. word ≡ option_map decimal number) }
{
    match number {
        Some(number) => Ok(Some(number_word(alloc, number)?)),
        None => Ok(None),
    }
}

/// How the value is written as a word; None where it may not stand for a key of this kind.
pub(crate) fn word_for(alloc: Global, kind: Kind, value: &Value) -> Result<Option<Text>, NoMemory>
    ensures { IfOk result (λ word. word ≡ word_for kind (view value.now)) }
{
    match kind {
        Kind::Number { least, most } => match value.as_integer() {
            Some(number) => some_number(alloc, within(least, most, number)),
            None => Ok(None),
        },
        Kind::Truth => match value.as_bool() {
            Some(truth) => some_text(alloc, truth_text(truth)),
            None => Ok(None),
        },
        Kind::Text(form) => match value.as_str() {
            Some(text) => text_word(alloc, form, text),
            None => Ok(None),
        },
    }
}
