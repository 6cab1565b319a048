//! The hub of one thread that keeps each call that made entries before its answer is handed on.
ghost use Rattle.std.specs.Prelude.{◌≡◌, ◌≤◌, ◌<◌, [], ℕ, Bool, true, false, IsTrue, IsErrOf, Some, OnOk, OnErr, IfOk, length};
ghost use Rattle.grid_types.specs.Calls.{Call, Reply};
ghost use Rattle.grid_types.specs.Legal.{legal};
ghost use Rattle.grid_types.specs.Safe.{IsSafe};
ghost use Rattle.hub_core.specs.HubView.{HubView, past, ServesLocally};
ghost use Rattle.hub_core.specs.Replies.{viewed_reply};
ghost use Rattle.grid_outside.specs.Counts.{Rose};
ghost use Rattle.grid_keeper.specs.Keeping.{Finishes, IsOpen, KeptCall, kept_fault};
ghost use Rattle.grid_keeper.specs.declared.kept_hub.KeptFault.TheVariants as fault;

mod nodes;
mod requests;
mod sessions;
mod starts;

use grid_types::{Entry, Found, NoMemory, SessionId, View};
use hub_core::LocalHub;
use row_keeper::{KeepFault, Keeper};
use std::alloc::Global;

/// Why a call has closed the hub.
#[derive(Clone, Copy, Debug, PartialEq, Eq)]
pub enum KeptFault {
    /// The keeper failed.
    Keeper,
    /// There was no memory, for the row or for keeping it.
    Memory,
}

/// A hub of one caller with the keeper of its calls. After a fault it is closed: the tokens that it gave end with it, and
/// a hub has to be opened over what was kept.
#[derive(Drop)]
pub struct KeptHub<K: Keeper> {
    hub: LocalHub,
    keeper: K,
    is_open: bool,
    alloc: Global,
}

impl<K: Keeper> KeptHub<K> {
    /// An open hub over this keeper.
    pub(crate) fn over(alloc: Global, hub: LocalHub, keeper: K) -> KeptHub<K>
        ensures hub { result.hub ≡ hub }
        ensures keeper { result.keeper ≡ keeper }
        ensures open { result.is_open ≡ true }
    {
        KeptHub {
            hub,
            keeper,
            is_open: true,
            alloc,
        }
    }

    /// The keeper of an open or a closed hub.
    pub fn into_keeper(self) -> K
        ensures { result ≡ self.keeper }
    {
        self.keeper
    }

    /// All entries, the oldest first, of an open or a closed hub.
    pub fn journal(&self) -> &[Entry]
        ensures journal { result.now ≡ self.now.hub.journal }
        ensures legal { legal self.now.hub.config (past self.now.hub) ≡ true }
        ensures safe { IsSafe (past self.now.hub) }
    {
        self.hub.journal()
    }

    /// Takes the memory of the journal for one next call, and for what spends the tokens that this call gives.
    pub fn room(&mut self) -> Result<(), NoMemory>
        requires { IsOpen K.disk self.old }
        ensures open { IsOpen K.disk self.new }
        ensures ok { OnOk result (self.new.hub ≡ record self.old.hub { room = true }) }
        ensures err { OnErr result (self.new.hub ≡ self.old.hub) }
        ensures keeper { self.new.keeper ≡ self.old.keeper }
    {
        self.hub.room()
    }

    /// Where the session is live.
    pub fn lookup(&self, session: &SessionId) -> Found
        requires { IsOpen K.disk self.now }
        ensures { (at : ℕ) → ServesLocally self.now.hub (Call.lookup session.now) at (Some (Reply.found result)) self.now.hub }
    {
        self.hub.lookup(session)
    }

    /// Shows the listed nodes and the waiting requests, each by number, and whether a session could start now.
    pub fn view(&self) -> Result<View, NoMemory>
        requires { IsOpen K.disk self.now }
        ensures { (at : ℕ) → ServesLocally self.now.hub Call.view at (viewed_reply result) self.now.hub }
    {
        self.hub.view()
    }

    /// Closes the hub for want of memory.
    pub(crate) fn close(&mut self) -> KeptFault
        ensures hub { self.new.hub ≡ self.old.hub }
        ensures keeper { self.new.keeper ≡ self.old.keeper }
        ensures closed { self.new.is_open ≡ false }
        ensures memory { result ≡ fault.Memory }
    {
        self.is_open = false;
        KeptFault::Memory
    }

    /// Keeps the row of the call that was made last, where it made entries.
    fn finish(&mut self, before: usize, row: &[u8]) -> Result<(), KeptFault>
        ensures kept { Finishes K.disk self.old before row.now result self.new }
        ensures later { K.faults self.old.keeper ≤ K.faults self.new.keeper }
        ensures cause { IsErrOf result fault.Keeper →
            Rose (K.faults self.old.keeper) (K.faults self.new.keeper) }
    {
        if self.hub.journal().len() <= before {
            return Ok(());
        }
        match self.keeper.keep(row) {
            Ok(()) => Ok(()),
            Err(fault) => {
                self.is_open = false;
                Err(kept_fault(fault))
            }
        }
    }
}

fn kept_fault(fault: KeepFault) -> KeptFault
    ensures { result ≡ kept_fault fault }
{
    match fault {
        KeepFault::Failed => KeptFault::Keeper,
        KeepFault::Memory => KeptFault::Memory,
    }
}
