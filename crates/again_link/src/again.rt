//! A link and what was read of it.

use grid_outside::Link;

/// Hands out first the bytes that were read of the link last, and then what that gives. What is written goes to it.
#[derive(Drop)]
pub struct AgainLink<'a, L: Link> {
    pub(crate) inner: &'a mut L,
    pub(crate) again: &'a [u8],
}
