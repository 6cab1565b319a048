//! The end of an opening, once nothing is open.
ghost use Rattle.std.specs.Prelude.{◌≡◌, ◌+◌, ◌-◌, ◌^◌, ◌<◌, List, Ok, Err, IfOk, IfErr};
ghost use Rattle.grid_types.specs.declared.entry.Entry.{Entry};
ghost use Rattle.grid_opening.specs.declared.fault.OpeningFault.TheVariants as fault;
ghost use Rattle.grid_opening.specs.Openings.{Hands, Holds, Reason, SettlesTo};

use crate::ender::Ender;
use crate::fault::{OpeningFault, Unsettled};
use crate::opening::Opening;
use grid_ledger::{GridLedger, Listener};
use grid_types::Moment;
use journal_keeper::Keeper;

/// What a hub goes on from: what stands for a history in which nothing is open, who was told of its entries, the keeper of its
/// journal, and a number above that of each caller.
#[derive(Drop)]
pub struct Settled<K: Drop, L: Drop> {
    pub ledger: GridLedger,
    pub listener: L,
    pub keeper: K,
    pub first_caller: u64,
}

impl<K: Keeper + Drop, L: Listener + Drop> Opening<K, L> {
    /// Hands all over.
    ///
    /// # Errors
    /// `Numbers`.
    fn finish(self) -> Result<Settled<K, L>, Unsettled<K>>
        ensures hands { IfOk result (Hands self) }
        ensures numbers { IfErr result (λ e. (e.fault ≡ fault.Numbers)
            × (self.most_caller ≡ 2 ^ 64 - 1)) }
    {
        if self.most_caller == u64::MAX {
            return Err(Unsettled {
                fault: OpeningFault::Numbers,
                keeper: self.keeper,
            });
        }
        Ok(Settled {
            first_caller: self.most_caller + 1,
            ledger: self.ledger,
            listener: self.listener,
            keeper: self.keeper,
        })
    }

    /// Lets each held slot go, clears the requests that wait, takes the outcomes that nobody took, where a session of one of these is
    /// ended, and frees the closing slots, once each session was ended at its node. Each registered node is heard and each live
    /// session used at the moment, so that none lapses for the time in which the hub was down. Then nothing is open, and all is
    /// handed over.
    ///
    /// # Errors
    /// `Unkept`, `Memory`, `Late` and `Numbers`.
    pub fn settle<E: Ender<L>>(
        mut self,
        ender: &mut E,
        at: Moment,
    ) -> Result<Settled<K, L>, Unsettled<K>>
        ensures settles { IfOk result (λ settled. (H : List Entry) →
            Holds K.kept L.heard self H → SettlesTo K.kept L.heard self settled H) }
        ensures reason { IfErr result (λ e.
            Reason K.kept L.heard K.faults self at.0 e.keeper e.fault) }
    {
        let at = self.raised(at);
        match self.settle_at(ender, at) {
            Ok(()) => self.finish(),
            Err(fault) => Err(Unsettled {
                fault,
                keeper: self.keeper,
            }),
        }
    }
}
