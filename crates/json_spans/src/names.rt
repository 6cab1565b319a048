//! Names that come twice.
ghost use Rattle.std.specs.Prelude.{◌≡◌, ◌≤◌, ◌<◌, IfOk, IfErr, OnOk, get_or, MatchOption, IsTrue, ◌↔◌, length, map};
ghost use Rattle.json_spans.specs.Parts.{kind_of};
ghost use Rattle.json_spans.specs.Span.{part_of, pair_of};
ghost use Rattle.json_spans.specs.Inside.{AreMembersOf, ObjectFault, RepeatFault, Differ, no_pair};
ghost use Rattle.json_spans.specs.Names.{Distinct, Twice, AreNames, HaveNames};
ghost use Rattle.json_spans.specs.declared.object.TheConstants.{MAX_MEMBERS};

use crate::fault::JsonFault;
use crate::kind::Kind;
use crate::member_list::MemberList;
use crate::object::all_members;
use crate::span::Span;
use crate::strings::read_text;
use grid_types::{NoMemory, Text};
use std::alloc::Global;

fn same_text(a: &Text, b: &Text) -> bool
    ensures { IsTrue result ↔ (a.now ≡ b.now) }
{
    a.as_str() == b.as_str()
}

/// The first text that stands before, and its earlier place.
fn first_twice(texts: &[Text]) -> Option<(usize, usize)>
    ensures { MatchOption result (Distinct texts.now (length texts.now))
        (λ p. Twice texts.now p.0 p.1) }
{
    for j in 0..texts.len() {
        for i in 0..j {
            if same_text(&texts[i], &texts[j]) {
                return Some((i, j));
            }
        }
    }
    None
}

fn names_of(alloc: Global, pairs: &[(Span<'_>, Span<'_>)]) -> Result<Vec<Text>, NoMemory>
    requires { HaveNames (map pair_of pairs.now) }
    ensures ok { IfOk result (λ v. AreNames (map pair_of pairs.now) v.items) }
    ensures err { IfErr result (λ _. 0 < length (map pair_of pairs.now)) }
{
    let mut names = Vec::new(alloc);
    for pair in pairs {
        let name = read_text(alloc, &pair.0)?;
        let Ok(()) = names.push(name) else {
            return Err(NoMemory);
        };
    }
    Ok(names)
}

fn name_place(pairs: &[(Span<'_>, Span<'_>)], i: usize) -> u64
    requires { i < length pairs.now }
    ensures { result ≡ (get_or (map pair_of pairs.now) i no_pair).0.place }
{
    let (name, _) = pairs[i];
    name.place()
}

/// Whether two members have one name.
fn check_names(alloc: Global, pairs: &[(Span<'_>, Span<'_>)]) -> Result<(), JsonFault>
    requires { HaveNames (map pair_of pairs.now) }
    ensures ok { OnOk result (Differ (map pair_of pairs.now) (length pairs.now)) }
    ensures err { IfErr result (RepeatFault (map pair_of pairs.now)) }
{
    let Ok(names) = names_of(alloc, pairs) else {
        return Err(JsonFault::Memory);
    };
    match first_twice(names.as_slice()) {
        None => Ok(()),
        Some((i, j)) => Err(JsonFault::Repeated {
            first: name_place(pairs, i),
            again: name_place(pairs, j),
        }),
    }
}

/// The members of an object: at most 1,024, whose names differ after their escapes are read. A longer one is refused
/// at its bracket before its names are looked at, and a repeated name at its second place.
pub fn members<'a>(alloc: Global, span: Span<'a>) -> Result<MemberList<'a>, JsonFault>
    requires { kind_of (part_of span).bytes ≡ Kind.Object }
    ensures ok { IfOk result (AreMembersOf (part_of span.entry)) }
    ensures few { IfOk result (λ l. length l ≤ MAX_MEMBERS) }
    ensures differ { IfOk result (λ l. Differ l (length l)) }
    ensures refused { IfErr result (ObjectFault (part_of span.entry)) }
{
    match all_members(alloc, span) {
        Err(fault) => Err(fault),
        Ok(list) => match check_names(alloc, list.items()) {
            Ok(()) => Ok(list),
            Err(fault) => Err(fault),
        },
    }
}
