//! How many elements a list has.
ghost use Rattle.std.specs.Prelude.{◌≡◌};
ghost use Rattle.json_spans.specs.Parts.{kind_of};
ghost use Rattle.json_spans.specs.Span.{part_of};
ghost use Rattle.json_spans.specs.Inside.{HasElements};

use crate::kind::Kind;
use crate::parts::places_at;
use crate::span::Span;
use crate::whole::spaces_end;

/// How many elements a list has, and 0 for any other value. It takes no memory, and reads the list once.
pub fn element_count(span: Span<'_>) -> u64
    ensures { HasElements (part_of span.entry) result }
{
    match span.kind() {
        Kind::List => count_list(span),
        _ => 0,
    }
}

fn count_list(span: Span<'_>) -> u64
    requires { kind_of (part_of span).bytes ≡ Kind.List }
    ensures { HasElements (part_of span.entry) result }
{
    let bytes = span.bytes;
    let first = spaces_end(bytes, 1);
    if bytes[first] == b']' {
        return 0;
    }
    let mut count: u64 = 0;
    let mut at = 1;
    while at < bytes.len() {
        let Ok(places) = places_at(bytes, at) else {
            unreachable!();
        };
        count += 1;
        if bytes[places.end] != b',' {
            return count;
        }
        at = places.end + 1;
    }
    unreachable!()
}
