//! The members of an object.
use crate::span::Span;
use std::marker::Model;

/// The members of an object, in order: pairs of a name and a value.
#[derive(Drop)]
pub struct MemberList<'a> {
    pub(crate) items: Vec<(Span<'a>, Span<'a>)>,
}

impl<'a> Model for MemberList<'a> {
    ghost use Rattle.std.specs.Prelude.{List, map};
    ghost use Rattle.json_spans.specs.Inside.{Pair, pairs_code};

    ghost Value = { List Pair };

    ghost coded = { pairs_code };

    ghost use Rattle.json_spans.specs.Span.{pair_of};

    ghost view = { λ l. map pair_of l.items.items };
}

impl<'a> MemberList<'a> {
    ghost use Rattle.std.specs.Prelude.{◌≡◌, map};
    ghost use Rattle.json_spans.specs.Span.{pair_of};

    /// Lends the members, in the order of the text.
    pub fn items(&self) -> &[(Span<'a>, Span<'a>)]
        ensures { map pair_of result.now ≡ self.now }
    {
        self.items.as_slice()
    }
}
