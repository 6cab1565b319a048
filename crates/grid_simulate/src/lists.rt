//! Lists of which elements are taken out and put in.
ghost use Rattle.std.specs.Prelude.{◌≡◌, ◌<◌, ◌≤◌, ◌+◌, ◌&&◌, ◌++◌, ◌∷◌, [], vec_len, vec_capacity, Some};
ghost use Rattle.std.specs.List.{slice_get, remove, insert};

/// Takes the element at a place out.
pub(crate) fn take_out<T>(items: &mut Vec<T>, place: usize) -> T
    requires { place < vec_len items.old }
    ensures found { slice_get items.old.items place ≡ Some result }
    ensures rest { items.new.items ≡ remove items.old.items place }
    ensures len { vec_len items.new + 1 ≡ vec_len items.old }
    ensures capacity { vec_capacity items.new ≡ vec_capacity items.old }
{
    items.remove(place)
}

/// Puts an element last, for which memory was taken.
pub(crate) fn put_last<T: Drop>(items: &mut Vec<T>, item: T)
    requires { vec_len items.old < vec_capacity items.old }
    ensures { items.new.items ≡ items.old.items ++ item ∷ [] }
{
    let _done = items.push(item);
}

/// Puts an element in at a place, for which memory was taken.
pub(crate) fn put_in<T: Drop>(items: &mut Vec<T>, place: usize, item: T)
    requires within { place ≤ vec_len items.old }
    requires room { vec_len items.old < vec_capacity items.old }
    ensures { items.new.items ≡ insert items.old.items place item }
{
    let _done = items.insert(place, item);
}

/// Whether this and what came before were done.
pub(crate) fn both(this: bool, before: bool) -> bool
    ensures { result ≡ (this && before) }
{
    this && before
}
