//! The elements of a list.
ghost use Rattle.std.specs.Prelude.{◌≡◌, ◌≤◌, IfOk, IfErr, length};
ghost use Rattle.json_spans.specs.Parts.{kind_of};
ghost use Rattle.json_spans.specs.Span.{part_of};
ghost use Rattle.json_spans.specs.Inside.{AreElements, ListFault};

use crate::element_list::ElementList;
use crate::fault::JsonFault;
use crate::kind::Kind;
use crate::parts::{keep, places_at};
use crate::span::Span;
use crate::whole::spaces_end;
use std::alloc::Global;

/// The elements of a list, at most `limit` of them. A longer one is refused at its bracket. It reads the list once.
pub fn elements<'a>(alloc: Global, span: Span<'a>, limit: u32) -> Result<ElementList<'a>, JsonFault>
    requires { kind_of (part_of span).bytes ≡ Kind.List }
    ensures ok { IfOk result (AreElements (part_of span.entry)) }
    ensures few { IfOk result (λ l. length l ≤ limit) }
    ensures refused { IfErr result (ListFault (part_of span.entry) limit) }
{
    let bytes = span.bytes;
    let mut found = Vec::new(alloc);
    let first = spaces_end(bytes, 1);
    if bytes[first] == b']' {
        return Ok(ElementList { items: found });
    }
    let mut at = 1;
    while at < bytes.len() {
        let Ok(places) = places_at(bytes, at) else {
            unreachable!();
        };
        if found.len() == limit as usize {
            return Err(JsonFault::Many { at: span.place });
        }
        let item = Span {
            bytes: &bytes[places.from..places.to],
            place: span.place + places.from as u64,
        };
        let Ok(()) = keep(&mut found, item) else {
            return Err(JsonFault::Memory);
        };
        if bytes[places.end] != b',' {
            return Ok(ElementList { items: found });
        }
        at = places.end + 1;
    }
    unreachable!()
}
