//! What any link to the nodes reaches, as a line of which no call waits.
ghost use Rattle.std.specs.Prelude.{◌≡◌, ℕ, List, Option, None, Some, true, IfNone, IfOk, IfSome, IsTrue, if◌then◌else◌};
ghost use Rattle.grid_outside.specs.Exchanges.{Came, CameSo, ask_of, is_within};
ghost use Rattle.grid_outside.specs.UnderWay.{is_kept_within};
ghost use Rattle.grid_outside.specs.declared.exchange.Ask.{Ask};

use crate::exchange::{ExchangeFault, Reply};
use crate::node_line::NodeLine;
use crate::node_link::NodeLink;
use crate::waits::Waits;
use grid_types::NodeAddress;
use http_frames::NodeRequest;
use std::alloc::Global;
use std::snapshot::Snapshot;

/// Makes an exchange by its link at once where it is begun, and keeps what came of it until it is asked for. A question finds
/// nothing there where that is planned.
#[derive(Drop)]
pub struct MemNodeLine<N: Drop> {
    nodes: N,
    came: Option<Result<Reply, ExchangeFault>>,
    waits: Waits,
    /// The nodes as they were before the exchange under way, which no code can read.
    before: Snapshot<N>,
    ghost within: { is_kept_within came ≡ true },
}

impl<N: Drop> MemNodeLine<N> {
    ghost use Rattle.grid_outside.specs.Waiting.{BeginsToWait};

    /// The list has the numbers of the questions, from 0, that find nothing there.
    pub fn new(nodes: N, waits: Vec<u64>) -> MemNodeLine<N>
        ensures nodes { result.nodes ≡ nodes }
        ensures idle { result.came ≡ None }
        ensures waits { BeginsToWait waits.items result.waits }
    {
        let before = Snapshot::of(&nodes);
        MemNodeLine {
            nodes,
            came: None,
            waits: Waits::new(waits),
            before,
        }
    }

    /// What reaches the nodes.
    pub fn nodes(&self) -> &N
        ensures { result.now ≡ self.now.nodes }
    {
        &self.nodes
    }
}

impl<N: NodeLink + Drop> NodeLine for MemNodeLine<N> {
    ghost use Rattle.grid_outside.specs.UnderWay.{IsUnderWay, told_state};
    ghost use Rattle.grid_outside.specs.UnderWayLaws.{one_under_way};
    ghost use Rattle.grid_outside.specs.Waiting.{CountsOne, is_waiting};

    ghost State = { N };

    ghost state = { λ x. told_state x.before.value x.came x.nodes };

    ghost faults = { N.faults };

    ghost gives = { N.gives };

    ghost asks = { λ x. IsUnderWay N.gives N.faults x.before.value x.came x.nodes };

    ghost one = { λ x. one_under_way N.gives N.faults x.before.value x.came x.nodes };

    fn allow(&mut self, _ms: u64)
        ensures same { self.new ≡ self.old }
    {}

    fn ask(&mut self, alloc: Global, address: &NodeAddress, request: &NodeRequest<'_>) {
        self.before = Snapshot::of(&self.nodes);
        self.came = Some(self.nodes.exchange(alloc, address, request));
    }

    fn came(&mut self, alloc: Global) -> Option<Result<Reply, ExchangeFault>>
        ensures came { IfSome result (λ came. (address : List ℕ) (ask : Ask) →
            IsUnderWay N.gives N.faults self.old.before.value self.old.came self.old.nodes (Some (address, ask)) →
            CameSo N.gives N.faults (told_state self.old.before.value self.old.came self.old.nodes) address ask came
            (told_state self.new.before.value self.new.came self.new.nodes)) }
        ensures within { IfSome result (λ came. IfOk came (λ reply. IsTrue (is_within reply))) }
        ensures idle { IfSome result (λ came.
            IsUnderWay N.gives N.faults self.new.before.value self.new.came self.new.nodes None) }
        ensures asked { IfSome result (λ came.
            IsUnderWay N.gives N.faults self.old.before.value self.old.came self.old.nodes None → ⊥) }
        ensures asks { IfNone result ((under : Option (List ℕ × Ask)) →
            IsUnderWay N.gives N.faults self.old.before.value self.old.came self.old.nodes under →
            IsUnderWay N.gives N.faults self.new.before.value self.new.came self.new.nodes under) }
        ensures same { IfNone result (told_state self.new.before.value self.new.came self.new.nodes
            ≡ told_state self.old.before.value self.old.came self.old.nodes) }
        ensures counts { CountsOne self.old.waits self.new.waits }
        ensures planned { result ≡ (if is_waiting self.old.waits then None else self.old.came) }
    {
        let _ = alloc;
        if self.waits.next_waits() {
            return None;
        }
        self.came.take()
    }
}
