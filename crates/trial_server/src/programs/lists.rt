//! Words as a program gets them.
use grid_types::Text;
use std::alloc::Global;

// Borrows the list, so that no early return drops it.
fn put_all(alloc: Global, list: &mut Vec<Text>, words: &[&str]) -> Option<()> {
    for word in words {
        list.push(Text::of(alloc, *word).ok()?).ok()?;
    }
    Some(())
}

/// The words as texts. None is out of memory, as everywhere here.
pub(crate) fn list(alloc: Global, words: &[&str]) -> Option<Vec<Text>> {
    let mut list = Vec::new(alloc);
    put_all(alloc, &mut list, words)?;
    Some(list)
}
