//! What many connections on one thread wait by.
ghost use Rattle.std.specs.Prelude.{◌≡◌, ℕ, List, ◌++◌, None, IfOk, vec_capacity};

use crate::clock::Clock;
use crate::line::Line;
use crate::node_line::NodeLine;
use crate::source::Failed;

/// What tells a thread that drives many seats which of them may go on. A seat stands at a place, a number that the thread
/// chooses. No clause says when anything is ready.
pub trait Gate {
    type L: Line + Send + Drop;

    type N: NodeLine + Send + Drop;

    /// What tells the thread the time.
    type C: Clock + Send + Drop;

    /// Waits until something may go on, at most so many milliseconds, and puts the places of what may go on behind `ready`,
    /// as far as there is room for them: it takes no memory. It may name any place, also one that nothing stands at.
    fn wait(&mut self, ms: u64, ready: &mut Vec<usize>)
        ensures behind { (places : List ℕ) × (ready.new.items ≡ ready.old.items ++ places) }
        ensures room { vec_capacity ready.new ≡ vec_capacity ready.old };

    /// Takes the link of a connection in at this place, and gives it back with what reaches its nodes, of which no
    /// exchange is under way. Err: the system has no room for it, and the link is closed.
    fn admit(&mut self, place: usize, link: Self::L) -> Result<(Self::L, Self::N), Failed>
        ensures view { IfOk result (λ both. Self.L.Line.view both.0 ≡ Self.L.Line.view link) }
        ensures idle { IfOk result (λ both. Self.N.NodeLine.asks both.1 None) };

    /// What reaches the nodes for a seat without a link at this place.
    fn nodes(&mut self, place: usize) -> Self::N
        ensures idle { Self.N.NodeLine.asks result None };
}
