//! One exchange with a node, of which no call waits.
ghost use Rattle.std.specs.Prelude.{◌≡◌, ℕ, List, Option, None, Some, IfNone, IfOk, IfSome, IsTrue};
ghost use Rattle.grid_outside.specs.Exchanges.{Came, CameSo, ask_of, is_within};
ghost use Rattle.grid_outside.specs.declared.exchange.Ask.{Ask};

use crate::exchange::{ExchangeFault, Reply};
use grid_types::NodeAddress;
use http_frames::NodeRequest;
use std::alloc::Global;

/// What reaches the nodes, one exchange at a time, of which no call waits: an exchange is begun, and what came of it is asked
/// for until it is there. No clause says when that is.
pub trait NodeLine {
    /// What exchanges have made of the nodes.
    ghost State: { Type 0 };

    ghost state: { Self → State };

    /// How often a node was unreachable; it stays at 2^64 - 1 once it is there.
    ghost faults: { State → ℕ };

    /// What an exchange may give: from this state the node at the address may be asked so, this comes of it, and then
    /// this is the state.
    ghost gives: { State → List ℕ → Ask → Came → State → Type 0 };

    /// Which exchange is under way: with the node at this address, that is asked so; or none.
    ghost asks: { Self → Option (List ℕ × Ask) → Type 0 };

    /// How long the exchange that is begun next may take, in milliseconds. Where it isn't told, or is more than the line itself
    /// allows, the line's own limit stands. No clause says when an exchange is over.
    fn allow(&mut self, ms: u64)
        ensures asks { (under : Option (List ℕ × Ask)) → asks self.old under → asks self.new under }
        ensures same { state self.new ≡ state self.old };

    /// Begins an exchange. None may be under way, so that no request is sent again. One that finds no memory is begun all the
    /// same, and what comes of it is `Memory`.
    fn ask(&mut self, alloc: Global, address: &NodeAddress, request: &NodeRequest<'_>)
        requires { asks self.old None }
        ensures asks { asks self.new (Some (address.now, ask_of request.now)) }
        ensures same { state self.new ≡ state self.old };

    /// What came of the exchange under way, which then is over. None says that it goes on, or that none is under way.
    fn came(&mut self, alloc: Global) -> Option<Result<Reply, ExchangeFault>>
        ensures came { IfSome result (λ came. (address : List ℕ) (ask : Ask) → asks self.old (Some (address, ask)) →
            CameSo gives faults (state self.old) address ask came (state self.new)) }
        ensures within { IfSome result (λ came. IfOk came (λ reply. IsTrue (is_within reply))) }
        ensures idle { IfSome result (λ came. asks self.new None) }
        ensures asked { IfSome result (λ came. asks self.old None → ⊥) }
        ensures asks { IfNone result ((under : Option (List ℕ × Ask)) → asks self.old under →
            asks self.new under) }
        ensures same { IfNone result (state self.new ≡ state self.old) };

    /// Where one is under way, it is not so that none is.
    ghost one: { (x : Self) (address : List ℕ) (ask : Ask) → asks x (Some (address, ask)) → asks x None → ⊥ };
}
