//! A hub that keeps its journal in a file, and goes on from it.
ghost use Rattle.std.specs.Prelude.{◌≡◌, ◌+◌, ◌≤◌, IfOk, IfErr};

use crate::asking::Asking;
use crate::beside::HubSide;
use crate::file_store::FileStore;
use crate::trouble::Trouble;
use grid_outside::{Clock, NodeLink};
use grid_types::HubConfig;
use hub_cell::{Pass, SharedHub};
use hub_opening::begin;
use hub_server::{Begins, Unbegun};
use hub_store::open_store;
use server_words::JournalWords;
use std::alloc::Global;
use std::fs::{File, Files};
use std::sync::Wait;

/// Makes the hub of a program: one that keeps its journal in the file that its words name, and goes on from what is there.
#[derive(Drop)]
pub struct FileHub<F: Files<File = File> + Drop, N: NodeLink + Drop, C: Clock + Drop> {
    store: FileStore<F, C>,
    /// What asks nodes to end sessions.
    asking: Asking<N>,
}

impl<F: Files<File = File> + Drop, N: NodeLink + Drop, C: Clock + Drop> FileHub<F, N, C> {
    /// It opens files by `files`, asks nodes to end sessions by `nodes`, and looks at the machine's clock.
    pub fn new(alloc: Global, files: F, nodes: N, clock: C, side: HubSide) -> Self {
        let HubSide {
            ahead,
            begins,
            watch,
            syncs,
        } = side;
        FileHub {
            store: FileStore::new(alloc, files, clock, ahead, begins, watch, syncs),
            asking: Asking::new(alloc, nodes),
        }
    }

    /// The path of its journal, once it was asked for one.
    pub fn path(&self) -> &str {
        self.store.path()
    }

    /// Why there is no hub, where its journal is why.
    pub fn trouble(&self) -> Option<&Trouble> {
        self.store.trouble()
    }
}

impl<F: Files<File = File> + Drop, N: NodeLink + Drop, C: Clock + Drop> Begins
    for FileHub<F, N, C> {
    ghost may = { λ why. Unit {0} };

    fn begin<R: Wait>(
        &mut self,
        rt: &R,
        alloc: Global,
        config: HubConfig,
        journal: &JournalWords,
        passes: u32,
    ) -> Result<(SharedHub, Pass), Unbegun> {
        let Some(path) = &journal.file else {
            self.store.say_begins(rt, config, 0);
            let keeping = self.store.keeping(None);
            return match begin(rt, alloc, config, keeping, 0, passes) {
                Ok(begun) => Ok(begun),
                Err(_) => Err(Unbegun::Memory),
            };
        };
        self.store.set_path(path);
        self.store.open(path, journal.each)?;
        match open_store(rt, alloc, config, &mut self.store, &mut self.asking, passes) {
            Ok(begun) => Ok(begun),
            Err(unopened) => Err(self.store.closes(unopened.fault)),
        }
    }
}
