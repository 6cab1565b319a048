//! The elements of a list.
use crate::span::Span;
use std::marker::Model;

/// The elements of a list, in order.
#[derive(Drop)]
pub struct ElementList<'a> {
    pub(crate) items: Vec<Span<'a>>,
}

impl<'a> Model for ElementList<'a> {
    ghost use Rattle.std.specs.Prelude.{List, map};
    ghost use Rattle.std.specs.Coded.{coded_list};
    ghost use Rattle.json_spans.specs.Parts.{Part, part_code};

    ghost Value = { List Part };

    ghost coded = { coded_list part_code };

    ghost use Rattle.json_spans.specs.Span.{part_of};

    ghost view = { λ l. map part_of l.items.items };
}

impl<'a> ElementList<'a> {
    ghost use Rattle.std.specs.Prelude.{◌≡◌, map};
    ghost use Rattle.json_spans.specs.Span.{part_of};

    /// Lends the elements, in the order of the text.
    pub fn items(&self) -> &[Span<'a>]
        ensures { map part_of result.now ≡ self.now }
    {
        self.items.as_slice()
    }
}
