//! What has a hub's journal before a hub goes on from it.

use grid_outside::{Failed, Source};
use grid_types::{HubConfig, Moment};
use journal_keeper::Keeping;
use std::sync::Wait;

/// What a hub goes on with: what keeps its journal from now on, and the moment.
#[derive(Drop)]
pub struct Outset {
    pub keeping: Keeping,
    pub at: Moment,
}

/// Bytes that are read, and then handed over to what keeps a hub's journal. Each call that hands them over is told how the hub is
/// set up. The moment at which the hub goes on is not before the last one of its journal.
pub trait Store: Source {
    ghost use Rattle.std.specs.Prelude.{◌≡◌, ℕ, true, List, Option, is_none, IfOk, OnOk, option_map, take};
    ghost use Rattle.grid_outside.specs.Counts.{HasCause};
    ghost use Rattle.journal_keeper.specs.Keepings.{kept_by};

    /// What it put aside last, where it tells that.
    ghost aside: { Self → Option (List ℕ) };

    /// The last moment that it gave.
    ghost moment: { Self → ℕ };

    /// Cuts off what is behind so many of its first bytes, and hands out what keeps these. The last moment of their journal is `last`.
    fn keep_front<R: Wait>(
        &mut self,
        rt: &R,
        config: &HubConfig,
        last: Moment,
        whole: u64,
    ) -> Result<Outset, Failed>
        ensures kept { IfOk result (λ o. kept_by o.keeping
            ≡ option_map (take whole) (Self.view self.old).given) }
        ensures at { IfOk result (λ o. o.at.0 ≡ moment self.new) }
        ensures given { (Self.view self.new).given ≡ (Self.view self.old).given }
        ensures cause { HasCause (Self.view self.old).faults (Self.view self.new).faults result };

    /// Has these bytes in place of its own, and hands out what keeps them.
    fn keep_anew<R: Wait>(
        &mut self,
        rt: &R,
        config: &HubConfig,
        head: &[u8],
    ) -> Result<Outset, Failed>
        ensures kept { IfOk result (λ o. kept_by o.keeping
            ≡ option_map (λ bytes. head.now) (Self.view self.old).given) }
        ensures at { IfOk result (λ o. o.at.0 ≡ moment self.new) }
        ensures given { (Self.view self.new).given ≡ (Self.view self.old).given }
        ensures cause { HasCause (Self.view self.old).faults (Self.view self.new).faults result };

    /// Puts its bytes aside, has these in their place, and hands out what keeps them.
    fn keep_aside<R: Wait>(
        &mut self,
        rt: &R,
        config: &HubConfig,
        head: &[u8],
    ) -> Result<Outset, Failed>
        ensures kept { IfOk result (λ o. kept_by o.keeping
            ≡ option_map (λ bytes. head.now) (Self.view self.old).given) }
        ensures aside { OnOk result (aside self.new ≡ (Self.view self.old).given) }
        ensures at { IfOk result (λ o. o.at.0 ≡ moment self.new) }
        ensures given { (Self.view self.new).given ≡ (Self.view self.old).given }
        ensures cause { HasCause (Self.view self.old).faults (Self.view self.new).faults result };

    /// A store that tells no bytes never does.
    ghost untold: { (one other : Self) → is_none (Self.Source.view one).given ≡ true → is_none (Self.Source.view other).given ≡ true };
}
