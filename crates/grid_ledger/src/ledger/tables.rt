//! The ledger as the tables that a hub goes on from.
ghost use Rattle.std.specs.Prelude.{◌≡◌, List};
ghost use Rattle.grid_types.specs.declared.entry.Entry.{Entry};
ghost use Rattle.hub_tables.specs.Tables as of_tables;
ghost use Rattle.grid_ledger.specs.LedgerStands.{Stands};

use crate::ledger::GridLedger;
use grid_types::HubConfig;
use hub_tables::HubTables;

impl GridLedger {
    /// The configuration of the history that the tables stand for.
    pub fn config(&self) -> HubConfig
        ensures { result ≡ self.now.config }
    {
        self.config
    }

    /// The tables by themselves: they stand for each history that the ledger stands for. Nothing is remembered of a search.
    pub fn into_tables(self) -> HubTables
        ensures { (H : List Entry) → Stands self H → of_tables.Stands self.config result H }
    {
        HubTables::resume(
            self.nodes,
            self.slots,
            self.requests,
            self.sessions,
            self.next_node,
            self.next_request,
            self.clock,
        )
    }
}
