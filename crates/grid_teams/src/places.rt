//! The place of what has a name.
ghost use Rattle.std.specs.Prelude.{◌≡◌, ◌<◌, ℕ, List, IfSome, length};
ghost use Rattle.grid_teams.specs.Places.{names_by, place_of};

/// What has a name.
pub trait Named {
    /// Its name.
    ghost name: { Self → List ℕ };

    /// The name's bytes. It takes no memory.
    fn name_bytes(&self) -> &[u8]
        ensures { result.now ≡ name self.now };
}

/// The place of the first that has the name; None exactly where none has it. It takes no memory.
pub fn place_in<T: Named>(items: &[T], name: &[u8]) -> Option<usize>
    ensures place { result ≡ place_of name.now (names_by T.name items.now) }
    ensures within { IfSome result (λ place. place < length items.now) }
{
    match items {
        [] => None,
        [item, others @ ..] => {
            if item.name_bytes() == name {
                return Some(0);
            }
            match place_in(others, name) {
                Some(place) => Some(place + 1),
                None => None,
            }
        }
    }
}
