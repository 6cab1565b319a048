//! The members of an object.
ghost use Rattle.std.specs.Prelude.{◌≡◌, ◌≤◌, IfOk, IfErr, OnOk, length, map, ◌++◌, ◌∷◌, []};
ghost use Rattle.json_spans.specs.Parts.{kind_of};
ghost use Rattle.json_spans.specs.Span.{part_of, pair_of};
ghost use Rattle.json_spans.specs.Inside.{AreMembersOf, ObjectFault};

use crate::fault::JsonFault;
use crate::kind::Kind;
use crate::member_list::MemberList;
use crate::parts::places_at;
use crate::span::Span;
use crate::whole::spaces_end;
use grid_types::NoMemory;
use std::alloc::Global;

/// How many members an object may have whose members are handed out.
pub const MAX_MEMBERS: usize = 1_024;

fn keep_pair<'a>(
    found: &mut Vec<(Span<'a>, Span<'a>)>,
    name: Span<'a>,
    value: Span<'a>,
) -> Result<(), NoMemory>
    ensures { OnOk result (map pair_of found.new.items
        ≡ map pair_of found.old.items ++ pair_of (name.entry, value.entry) ∷ []) }
{
    match found.push((name, value)) {
        Ok(()) => Ok(()),
        Err(_) => Err(NoMemory),
    }
}

/// The members, whatever their names.
pub(crate) fn all_members<'a>(alloc: Global, span: Span<'a>) -> Result<MemberList<'a>, JsonFault>
    requires { kind_of (part_of span).bytes ≡ Kind.Object }
    ensures ok { IfOk result (AreMembersOf (part_of span.entry)) }
    ensures few { IfOk result (λ l. length l ≤ MAX_MEMBERS) }
    ensures refused { IfErr result (ObjectFault (part_of span.entry)) }
{
    let bytes = span.bytes;
    let mut found = Vec::new(alloc);
    let first = spaces_end(bytes, 1);
    if bytes[first] == b'}' {
        return Ok(MemberList { items: found });
    }
    let mut at = 1;
    while at < bytes.len() {
        let Ok(name) = places_at(bytes, at) else {
            unreachable!();
        };
        let behind = name.end + 1;
        let Ok(value) = places_at(bytes, behind) else {
            unreachable!();
        };
        if found.len() == MAX_MEMBERS {
            return Err(JsonFault::Many { at: span.place });
        }
        let name_span = Span {
            bytes: &bytes[name.from..name.to],
            place: span.place + name.from as u64,
        };
        let value_span = Span {
            bytes: &bytes[value.from..value.to],
            place: span.place + value.from as u64,
        };
        let Ok(()) = keep_pair(&mut found, name_span, value_span) else {
            return Err(JsonFault::Memory);
        };
        if bytes[value.end] != b',' {
            return Ok(MemberList { items: found });
        }
        at = value.end + 1;
    }
    unreachable!()
}
