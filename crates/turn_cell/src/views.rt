//! What a pass knows. No value of these types is made: they are what contracts and the rule speak of, in which a
//! `LinkedList` is a list and a `u64` a number with no upper end.
use grid_types::{Entry, Found, SessionId};
use std::collections::LinkedList;
use std::snapshot::Snapshot;

/// What is kept of a pass that a join has ended.
pub struct Ended {
    /// The caller of its entries.
    pub number: u64,
    /// Its own entries.
    pub mine: LinkedList<Entry>,
    /// The length of the history at each of its turns.
    pub points: LinkedList<u64>,
}

/// A session that a pass found without a turn, and where it runs.
pub struct Look {
    pub session: SessionId,
    pub found: Found,
}

/// What a pass knows. Lists have the oldest first.
pub struct View<V> {
    /// The caller of the pass's entries. No two passes of a cell have one number.
    pub number: u64,
    /// A history that the cell's history begins with.
    pub seen: LinkedList<Entry>,
    /// 1 more than the ticket of the turn at which `seen` was learned, and 0 where that was at no turn.
    pub since: u64,
    /// The pass's own entries.
    pub mine: LinkedList<Entry>,
    /// The length of the history at each of its turns.
    pub points: LinkedList<u64>,
    /// What it found without a turn, as it was noted.
    pub found: LinkedList<Look>,
    /// How many of its looks found that no ticket was left.
    pub spent: u64,
    /// The passes that it has joined.
    pub ended: LinkedList<Ended>,
    /// The value that the cell was made with, whose mark is the cell's.
    pub origin: Option<V>,
    /// The cell's first ticket.
    pub first: u64,
}

/// Where a pass stands.
pub enum Stage {
    /// A join has ended it.
    Gone,
    /// It has no ticket.
    Idle,
    /// It has this ticket, and waits to be served.
    Waits(u64),
    /// It is served by this ticket, and has the slot out. The second number is 1 where a pass was split off in this turn, else 0.
    Serves(u64, u64),
    /// The same, and it has given the value back and noted these entries.
    Gives(u64, u64, LinkedList<Entry>),
    /// A join gave it one of these two lists, and it has not looked since.
    Joins(LinkedList<Entry>, LinkedList<Entry>),
    /// It is no pass but a note of what one has seen, which another takes in.
    Tells,
}

/// What the rule is told of a cell: the value that it was made with, its first ticket, and the number of its first pass.
#[derive(Drop)]
pub struct Start<V> {
    pub origin: Snapshot<V>,
    pub first: u64,
    pub number: u64,
}

/// The view of a seat at the cell's table.
pub struct Doing<V> {
    pub stage: Stage,
    pub view: View<V>,
}
