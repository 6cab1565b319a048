//! A value's text without the white space outside its strings.
ghost use Rattle.std.specs.Prelude.{◌≡◌, IfOk};
ghost use Rattle.json_spans.specs.Squeeze.{next, drops, squeezed};
ghost use Rattle.json_spans.specs.Span.{part_of};
ghost use Rattle.json_spans.specs.Tight.{IsTight};

use crate::span::Span;
use crate::table::is_space;
use grid_types::{NoMemory, Text};
use std::alloc::{AllocError, Global};

#[derive(Clone, Copy)]
enum Where {
    Outside,
    Inside,
    Escaped,
}

fn next(place: Where, x: u8) -> Where
    ensures { result ≡ next place x }
{
    match place {
        Where::Outside => if x == b'"' {
            Where::Inside
        } else {
            Where::Outside
        },
        Where::Inside => {
            if x == b'"' {
                Where::Outside
            } else if x == b'\\' {
                Where::Escaped
            } else {
                Where::Inside
            }
        }
        Where::Escaped => Where::Inside,
    }
}

fn drops(place: Where, x: u8) -> bool
    ensures { result ≡ drops place x }
{
    match place {
        Where::Outside => is_space(x),
        Where::Inside | Where::Escaped => false,
    }
}

fn squeeze(alloc: Global, bytes: &[u8]) -> Result<Vec<u8>, AllocError>
    ensures { IfOk result (λ v. v.items ≡ squeezed bytes.now) }
{
    let mut out = Vec::new(alloc);
    let mut place = Where::Outside;
    for x in bytes {
        if !drops(place, *x) {
            out.push(*x)?;
        }
        place = next(place, *x);
    }
    Ok(out)
}

/// The text of a value without the white space outside its strings. Err: out of memory.
pub fn squeezed(alloc: Global, span: Span<'_>) -> Result<Text, NoMemory>
    // It spells the value with no white space.
    ensures tight { IfOk result (IsTight (part_of span.entry)) }
    // And it is the bytes without those.
    ensures bytes { IfOk result (λ t. t ≡ squeezed (part_of span.entry).bytes) }
{
    let out = squeeze(alloc, span.bytes)?;
    // What is left out is ASCII, so the rest is UTF-8 still.
    Ok(Text::from_string(String::from_utf8(out).unwrap()))
}
