//! Session ids in the order of their bytes.
ghost use Rattle.std.specs.Prelude.{◌≡◌, Some, nat_eq, refl};
ghost use Rattle.std.specs.Ordering.{nat_cmp};
ghost use Rattle.std.specs.Cmp.{partial_equiv_from_equiv};
ghost use Rattle.std.specs.Cmp.Lexicographic.{pointwise, slice_cmp, nat_list_eq_equiv, nat_list_cmp_total, texts_po, texts_ties};

use grid_types::SessionId;
use std::cmp::Ordering;
use std::marker::Model;

/// A session's id as a key, in the order of its bytes. An order answers in logarithmic time whatever ids the nodes
/// choose; a hash with a known seed would not.
#[derive(Drop)]
pub struct SessionKey {
    id: SessionId,
}

impl Model for SessionKey {
    ghost use Rattle.std.specs.Prelude.{List, ℕ};

    ghost Value = { List ℕ };

    ghost view = { λ k. k.id };
}

impl SessionKey {
    pub(crate) fn of(id: SessionId) -> SessionKey
        ensures { result ≡ id }
    {
        SessionKey { id }
    }
}

fn compare_bytes<'x>(a: &'x [u8], b: &'x [u8]) -> Ordering
    ensures { result ≡ slice_cmp nat_cmp a.now b.now }
{
    Ord::cmp(&a, &b)
}

impl PartialEq for SessionKey {
    ghost eq = { pointwise nat_eq };

    ghost laws = { partial_equiv_from_equiv nat_list_eq_equiv };

    fn eq(&self, other: &Self) -> bool {
        self.id.as_bytes() == other.id.as_bytes()
    }
}

impl Eq for SessionKey {
    ghost laws = { nat_list_eq_equiv };
}

impl PartialOrd for SessionKey {
    ghost partial_cmp = { λ a b. Some (slice_cmp nat_cmp a b) };

    ghost laws = { texts_po };

    fn partial_cmp(&self, other: &Self) -> Option<Ordering> {
        Some(self.cmp(other))
    }
}

impl Ord for SessionKey {
    ghost cmp = { slice_cmp nat_cmp };

    ghost total = { nat_list_cmp_total };

    ghost matches_partial_cmp = { λ a b. refl };

    ghost matches_eq = { texts_ties };

    fn cmp(&self, other: &Self) -> Ordering {
        compare_bytes(self.id.as_bytes(), other.id.as_bytes())
    }
}
