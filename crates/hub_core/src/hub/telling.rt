//! What the core tells beside its calls, for whoever writes down what they enter. None of this changes it or takes memory.
ghost use Rattle.std.specs.Prelude.{◌≡◌, max, nat_lt, true, Some};
ghost use Rattle.std.specs.Option.{option_copied};
ghost use Rattle.grid_types.specs.History.{clock};
ghost use Rattle.grid_types.specs.HubAnswers.{idle_bindings};
ghost use Rattle.grid_types.specs.Lists.{least};
ghost use Rattle.grid_types.specs.Nodes.{is_base_up, registration_of};
ghost use Rattle.grid_types.specs.Requests.{choices_of, is_unsettled, place};
ghost use Rattle.grid_types.specs.Slots.{is_listed};
ghost use Rattle.session_queue.specs.Table.{place_of};
ghost use Rattle.hub_core.specs.CoreStands.{CoreTells};
ghost use Rattle.hub_core.specs.Lent.{caps_of, created_caps};

use crate::hub::HubCore;
use grid_types::{Caps, Choices, Moment, NodeNo, Outcome, Registration, ReqNo};
use session_queue::Stage;

impl HubCore {
    /// The moment of the changes of a call that comes at this one: that of the last entry, where this one is earlier.
    pub fn raised(&self, at: Moment) -> Moment
        ensures { CoreTells self.now (λ H. result.0 ≡ max at.0 (clock H)) }
    {
        self.tables.raised(at)
    }

    /// Whether the node is registered and was not drained. It may be suspect.
    pub fn is_base_up(&self, node: NodeNo) -> bool
        ensures { CoreTells self.now (λ H. result ≡ is_base_up H node) }
    {
        self.tables.is_base_up(node)
    }

    /// The binding of the session that `expire` ends at this moment.
    pub fn idle_binding(&self, at: Moment) -> Option<ReqNo>
        ensures { CoreTells self.now (λ H. result
            ≡ least nat_lt (idle_bindings self.now.config H (max at.0 (clock H)))) }
    {
        let now = self.tables.raised(at);
        self.tables.least_idle(now, &self.config)
    }

    /// What a listed node said of itself.
    pub fn registration(&self, node: NodeNo) -> Option<&Registration>
        ensures { CoreTells self.now (λ H. is_listed H node ≡ true →
            option_copied result ≡ registration_of H node) }
    {
        self.tables.registration(node)
    }

    /// What a request asked for that is not settled.
    pub fn choices(&self, request: ReqNo) -> Option<&Choices>
        ensures { CoreTells self.now (λ H. is_unsettled (place H request) ≡ true →
            option_copied result ≡ Some (choices_of H request)) }
    {
        match self.tables.request(request) {
            Some(asked) => Some(&asked.choices),
            None => None,
        }
    }

    /// The capabilities of the session that was created for a request, until its outcome is handed out.
    pub fn created_caps(&self, request: ReqNo) -> Option<&Caps>
        ensures { CoreTells self.now
            (λ H. option_copied result ≡ created_caps (place H request)) }
    {
        match self.tables.request(request) {
            Some(asked) => caps_in(&asked.stage),
            None => None,
        }
    }
}

/// The capabilities of the session that was created, where the stage is that outcome.
fn caps_in(stage: &Stage) -> Option<&Caps>
    ensures { option_copied result ≡ created_caps (place_of stage.now) }
{
    match stage {
        Stage::Settled(outcome) => caps_of(outcome),
        _ => None,
    }
}

/// The capabilities of the session that was created, where that is the outcome.
fn caps_of(outcome: &Outcome) -> Option<&Caps>
    ensures { option_copied result ≡ caps_of outcome.now }
{
    match outcome {
        Outcome::Created { caps, .. } => Some(caps),
        _ => None,
    }
}
