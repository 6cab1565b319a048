//! From the bytes of a beat's body to the name of the node that beats.
ghost use Rattle.std.specs.Prelude.{◌≡◌, ◌≢◌, IfOk, IfErr, map, Ok, Err, List};
ghost use Rattle.json_spans.specs.Span.{pair_of};
ghost use Rattle.caps_merge.specs.Placed.{Member};
ghost use Rattle.caps_merge.specs.Shown.{ShowMembers, AreShown};
ghost use Rattle.caps_merge.specs.Beats.{name_by, BeatGives};

use crate::registering::MAX_BODY;
use crate::registering::fault::{RegFault, RegField};
use crate::registering::fields::{fields_of, name_named};
use grid_types::Text;
use json_spans::{Span, cut};
use std::alloc::Global;

fn name_by(alloc: Global, members: &[(Span<'_>, Span<'_>)]) -> Result<Option<Text>, RegFault>
    requires { AreShown (map pair_of members.now) }
    ensures ok { IfOk result (λ name. (ms : List Member) →
        ShowMembers (map pair_of members.now) ms → name_by ms ≡ Ok name) }
    ensures err { IfErr result (λ f. f ≢ RegFault.Memory → (ms : List Member) →
        ShowMembers (map pair_of members.now) ms → name_by ms ≡ Err f) }
{
    match name_named(alloc, members) {
        Ok(name) => Ok(Some(name)),
        Err(fault) => Err(fault),
    }
}

/// The name that the body of a beat tells, none where it is empty, or the first fault that stands in the way.
pub fn beat_name(alloc: Global, body: &[u8]) -> Result<Option<Text>, RegFault>
    ensures ok { IfOk result (λ name. BeatGives body.now (Ok name)) }
    ensures err { IfErr result (λ f. f ≢ RegFault.Memory → BeatGives body.now (Err f)) }
{
    if body.is_empty() {
        return Ok(None);
    }
    if body.len() > MAX_BODY {
        return Err(RegFault::TooLarge {
            bytes: body.len() as u64,
        });
    }
    match cut(body) {
        Ok(span) => match fields_of(alloc, span, RegField::Body) {
            Ok(list) => name_by(alloc, list.items()),
            Err(fault) => Err(fault),
        },
        Err(fault) => Err(RegFault::from(fault)),
    }
}
