//! What a hub answers whose turns are used up.

/// No turn is given any more: tickets are drawn below 2^62 only, and `ticket`, the next one, is not below.
#[derive(Clone, Copy, Debug, PartialEq, Eq)]
pub struct Spent {
    /// The next ticket, 2^62 or above.
    pub ticket: u64,
}
