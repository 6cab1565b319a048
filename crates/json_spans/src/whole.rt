//! From a whole text to its one value.
ghost use Rattle.std.specs.Prelude.{◌≡◌, ◌+◌, ◌≤◌, ◌<◌, ◌^◌, length, drop, take, IfOk, IfErr, IsOk, IsUtf8, List, ℕ};
ghost use Rattle.json_spans.specs.Grammar.{Tree};
ghost use Rattle.json_spans.specs.Parts.{space_len, IsText, IsCut};
ghost use Rattle.json_spans.specs.Span.{part_of};
ghost use Rattle.json_spans.specs.Cut.{whole, Refuses};
ghost use Rattle.json_spans.specs.Machine.{as_result};

use crate::fault::JsonFault;
use crate::machine::value_end;
use crate::span::Span;
use crate::table::is_space;

/// Where the white space ends that begins at `at`.
pub(crate) fn spaces_end(text: &[u8], at: usize) -> usize
    requires { at ≤ length text.now }
    ensures value { result ≡ at + space_len (drop at text.now) }
    ensures bounds { (at ≤ result) × (result ≤ length text.now) }
{
    let mut i = at;
    while i < text.len() && is_space(text[i]) {
        i += 1;
    }
    i
}

/// The value's two places.
fn scan(text: &[u8]) -> Result<(usize, usize), JsonFault>
    ensures exact { IfOk result (λ p. (p.0 ≡ space_len text.now)
        × (as_result (whole text.now) ≡ Ok p.1)) }
    ensures bounds { IfOk result (λ p. (p.0 ≤ p.1) × (p.1 ≤ length text.now) × (p.1 < 2 ^ 64)) }
    ensures err { IfErr result (λ e. as_result (whole text.now) ≡ Err e) }
{
    let from = spaces_end(text, 0);
    let to = value_end(text, from)?;
    let end = spaces_end(text, to);
    if end < text.len() {
        return Err(JsonFault::Syntax { at: end as u64 });
    }
    Ok((from, to))
}

/// The one value of a JSON text (RFC 8259), as a slice of it. It takes no memory, and reads the text once. The whole text
/// is to be UTF-8, with at most 127 brackets open at a place. Half of a pair of surrogates may not stand alone.
pub fn cut(text: &[u8]) -> Result<Span<'_>, JsonFault>
    // What is handed out is the value, from its place.
    ensures ok { IfOk result (λ s. IsUtf8 text.now × IsCut text.now (part_of s)) }
    // Each refusal is where the text stops, or its bytes are not UTF-8.
    ensures refused { IfErr result (Refuses text.now) }
    // Each JSON text within 127 levels is cut.
    ensures only { (before : List ℕ) (v : Tree) (after : List ℕ) → IsUtf8 text.now →
        IsText text.now before v after → IsOk result }
{
    match std::str::from_utf8(text) {
        Err(_) => Err(JsonFault::NotUtf8),
        Ok(_) => match scan(text) {
            Err(fault) => Err(fault),
            Ok((from, to)) => Ok(Span {
                bytes: &text[from..to],
                place: from as u64,
            }),
        },
    }
}
