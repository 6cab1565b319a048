//! The characters of a string, as `serde_json` reads them.
ghost use Rattle.std.specs.Prelude.{◌≡◌, IfOk, Some};
ghost use Rattle.json_spans.specs.Parts.{kind_of};
ghost use Rattle.json_spans.specs.Span.{part_of};
ghost use Rattle.json_spans.specs.Characters.{IsMeaning};
ghost use Rattle.serde_json.specs.Read.{read};
ghost use Rattle.serde_json.specs.Data.{string};

use crate::kind::Kind;
use crate::span::Span;
use grid_types::{NoMemory, Text};
use serde_json::Value;
use std::alloc::Global;

pub(crate) fn read_text(alloc: Global, span: &Span<'_>) -> Result<Text, NoMemory>
    requires { kind_of (part_of span.now).bytes ≡ Kind.Text }
    ensures { IfOk result (λ t. read (part_of span.now).bytes ≡ Some (string t)) }
{
    // serde_json reads each string of the grammar, and as a string.
    let value = match Value::from_slice(alloc, span.bytes) {
        Ok(value) => value,
        Err(fault) => {
            if !fault.is_memory() {
                unreachable!();
            }
            return Err(NoMemory);
        }
    };
    let Value::String(characters) = value else {
        unreachable!();
    };
    Ok(Text::from_string(characters))
}

/// The characters of a string, with its escapes read (RFC 8259 §7). Err: out of memory.
pub fn text(alloc: Global, span: Span<'_>) -> Result<Text, NoMemory>
    requires { kind_of (part_of span).bytes ≡ Kind.Text }
    // It is what the string stands for by the standard.
    ensures characters { IfOk result (IsMeaning (part_of span.entry)) }
    // And it is what serde_json reads.
    ensures read { IfOk result (λ t. read (part_of span.entry).bytes ≡ Some (string t)) }
{
    read_text(alloc, &span)
}
