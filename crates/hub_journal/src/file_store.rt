//! The file of a hub's journal, as what a hub goes on from.
ghost use Rattle.std.specs.Prelude.{◌≡◌, ℕ, ◌≤◌, List, None, Option, IfOk};
ghost use Rattle.grid_outside.specs.Counts.{HasCause};
ghost use Rattle.journal_keeper.specs.Keepings.{kept_by};

use crate::aside::{opened, put_aside, write_anew};
use crate::beginning::{Beginning, Front};
use crate::trouble::{Trouble, name_of};
use crossbeam_channel::Sender;
use grid_outside::{Clock, Failed, Source};
use grid_types::{HubConfig, Moment, Text};
use hub_server::Unbegun;
use hub_store::{Outset, Store, StoreFault};
use journal_keeper::{FileKeeper, Keeping, Syncing, Watch, Watched};
use std::alloc::Global;
use std::fs::{File, Files, TryLockError};
use std::io::Read;
use std::sync::atomic::{AtomicU64, Ordering};
use std::sync::{Arc, Wait};

/// The file, and whether each append is made to stay on the disk.
#[derive(Drop)]
struct Kept {
    file: File,
    each: bool,
}

/// A hub's file. It tells no bytes.
#[derive(Drop)]
pub(crate) struct FileStore<F: Files<File = File> + Drop, C: Clock + Drop> {
    pub(crate) alloc: Global,
    /// What opens files.
    pub(crate) files: F,
    /// The machine's clock.
    pub(crate) clock: C,
    /// By how much the hub's clocks are to be ahead of it, once that is known.
    pub(crate) ahead: Arc<AtomicU64>,
    /// Where a thread is told what the hub begins with.
    pub(crate) begins: Sender<Beginning>,
    /// Where a thread is told what is kept.
    pub(crate) watch: Option<Watch>,
    /// Where a thread is handed the file, to make stay on the disk what was appended.
    pub(crate) syncs: Sender<File>,
    /// The path of the file, once it was asked for one.
    path: Option<Text>,
    kept: Option<Kept>,
    /// Why there is no hub.
    trouble: Option<Trouble>,
    at: Moment,
    faults: u64,
    ends: u64,
}

impl<F: Files<File = File> + Drop, C: Clock + Drop> FileStore<F, C> {
    /// No file is open yet.
    pub(crate) fn new(
        alloc: Global,
        files: F,
        clock: C,
        ahead: Arc<AtomicU64>,
        begins: Sender<Beginning>,
        watch: Watch,
        syncs: Sender<File>,
    ) -> Self {
        FileStore {
            alloc,
            files,
            clock,
            ahead,
            begins,
            watch: Some(watch),
            syncs,
            path: None,
            kept: None,
            trouble: None,
            at: Moment(0),
            faults: 0,
            ends: 0,
        }
    }

    /// The path of the file, once it was asked for one.
    pub(crate) fn path(&self) -> &str {
        match &self.path {
            Some(path) => path.as_str(),
            None => "",
        }
    }

    /// Why there is no hub, where the file is why.
    pub(crate) fn trouble(&self) -> Option<&Trouble> {
        self.trouble.as_ref()
    }

    /// Notes why there is no hub.
    fn notes(&mut self, trouble: Trouble, why: Unbegun) -> Unbegun {
        self.trouble = Some(trouble);
        why
    }

    /// Notes why it fails.
    fn fails<T>(&mut self, trouble: Trouble) -> Result<T, Failed>
        ensures none { IfOk result (λ t. ⊥) }
        ensures ends { self.new.ends ≡ self.old.ends }
        ensures cause { HasCause self.old.faults self.new.faults result }
    {
        self.faults = self.faults.saturating_add(1);
        self.trouble = Some(trouble);
        Err(Failed)
    }

    /// Opens the file at the path, and takes it for this hub alone.
    pub(crate) fn open(&mut self, path: &Text, each: bool) -> Result<(), Unbegun> {
        let file = match opened(&self.files, path.as_str()) {
            Ok(file) => file,
            Err(error) => return Err(self.notes(Trouble::System(error), Unbegun::Failed)),
        };
        match file.try_lock() {
            Ok(()) => {}
            Err(TryLockError::WouldBlock) => {
                return Err(self.notes(Trouble::Held, Unbegun::Held));
            }
            Err(TryLockError::Error(error)) => {
                return Err(self.notes(Trouble::System(error), Unbegun::Failed));
            }
        }
        self.kept = Some(Kept { file, each });
        Ok(())
    }

    /// The path of the file is this.
    pub(crate) fn set_path(&mut self, path: &Text) {
        self.path = path.clone().ok();
    }

    /// What a hub's program makes of the fault.
    pub(crate) fn closes(&mut self, fault: StoreFault) -> Unbegun {
        match fault {
            StoreFault::Memory => self.notes(Trouble::Memory, Unbegun::Memory),
            // Why it failed is noted.
            StoreFault::Failed => Unbegun::Failed,
            StoreFault::Verdict(verdict) => {
                self.notes(Trouble::Verdict(verdict), Unbegun::NoJournal)
            }
            StoreFault::Option(option) => {
                self.notes(Trouble::Option(name_of(option)), Unbegun::NoJournal)
            }
            StoreFault::Opening(fault) => self.notes(Trouble::Opening(fault), Unbegun::Failed),
        }
    }

    /// So many bytes of the file, from the beginning.
    fn before(&self, whole: u64) -> Option<Front> {
        if whole == 0 {
            return None;
        }
        let bytes = usize::try_from(whole).ok()?;
        let file = opened(&self.files, self.path()).ok()?;
        Some(Front::new(file, bytes))
    }

    /// Says what the hub begins with: how it is set up, and so many bytes of its file.
    pub(crate) fn say_begins<R: Wait>(&self, rt: &R, config: HubConfig, whole: u64) {
        let beginning = Beginning {
            config,
            before: self.before(whole),
        };
        // There is room for one, and one alone is sent.
        let _ = self.begins.try_send(rt, beginning);
    }

    /// What keeps the journal.
    pub(crate) fn keeping(&mut self, file: Option<FileKeeper<File>>) -> Keeping
        ensures kept { kept_by result ≡ None }
        ensures faults { self.new.faults ≡ self.old.faults }
    {
        match (self.watch.take(), file) {
            (Some(watch), file) => Keeping::Watched(Watched { file, watch }),
            (None, Some(keeper)) => Keeping::File(keeper),
            (None, None) => Keeping::Nothing,
        }
    }

    /// The moment at which the hub goes on, which is not before the last one of its journal. Its clocks show it too.
    fn moment(&mut self, last: Moment) -> Moment
        ensures { self.new.faults ≡ self.old.faults }
    {
        let now = self.clock.now();
        self.ahead
            .store(last.0.saturating_sub(now.0), Ordering::SeqCst);
        Moment(now.0.max(last.0))
    }

    /// The keeper of the file, of which a copy is handed to who makes appends stay on the disk where appends don't.
    fn keeper<R: Wait>(&mut self, rt: &R, kept: Kept) -> Result<FileKeeper<File>, Failed>
        ensures { HasCause self.old.faults self.new.faults result }
    {
        let syncing = if kept.each {
            Syncing::Each
        } else {
            match kept.file.try_clone() {
                Ok(copy) => {
                    // There is room for one, and one alone is sent.
                    let _ = self.syncs.try_send(rt, copy);
                }
                Err(error) => return self.fails(Trouble::System(error)),
            }
            Syncing::Apart
        };
        Ok(FileKeeper::new(kept.file, syncing))
    }

    /// The hub goes on in the file, which has so many bytes of before, with this last moment.
    fn hand_over<R: Wait>(
        &mut self,
        rt: &R,
        config: HubConfig,
        kept: Kept,
        last: Moment,
        whole: u64,
    ) -> Result<Outset, Failed>
        ensures kept { IfOk result (λ o. kept_by o.keeping ≡ None) }
        ensures at { IfOk result (λ o. o.at.0 ≡ self.new.at.0) }
        ensures cause { HasCause self.old.faults self.new.faults result }
    {
        self.say_begins(rt, config, whole);
        let at = self.moment(last);
        match self.keeper(rt, kept) {
            Ok(keeper) => {
                let keeping = self.keeping(Some(keeper));
                self.at = at;
                Ok(Outset { keeping, at })
            }
            Err(_) => Err(Failed),
        }
    }
}

impl<F: Files<File = File> + Drop, C: Clock + Drop> Source for FileStore<F, C> {
    ghost view = { λ s. record { given = None; ends = s.ends; faults = s.faults } };

    fn read(&mut self, into: &mut [u8]) -> Result<usize, Failed> {
        let Some(kept) = &self.kept else {
            return self.fails(Trouble::Read);
        };
        let mut file = &kept.file;
        match file.read(into) {
            Ok(count) => {
                if count == 0 {
                    self.ends = self.ends.saturating_add(1);
                }
                Ok(count)
            }
            Err(_) => self.fails(Trouble::Read),
        }
    }
}

impl<F: Files<File = File> + Drop, C: Clock + Drop> Store for FileStore<F, C> {
    ghost aside = { λ s. None };

    ghost moment = { λ s. s.at.0 };

    ghost untold = { λ one other none. none };

    fn keep_front<R: Wait>(
        &mut self,
        rt: &R,
        config: &HubConfig,
        last: Moment,
        whole: u64,
    ) -> Result<Outset, Failed> {
        let Some(kept) = self.kept.take() else {
            return self.fails(Trouble::Read);
        };
        match kept.file.set_len(whole) {
            Ok(()) => self.hand_over(rt, *config, kept, last, whole),
            Err(error) => self.fails(Trouble::System(error)),
        }
    }

    fn keep_anew<R: Wait>(
        &mut self,
        rt: &R,
        config: &HubConfig,
        head: &[u8],
    ) -> Result<Outset, Failed> {
        let Some(kept) = self.kept.take() else {
            return self.fails(Trouble::Read);
        };
        match write_anew(&kept.file, head) {
            Ok(()) => self.hand_over(rt, *config, kept, Moment(0), 0),
            Err(error) => self.fails(Trouble::System(error)),
        }
    }

    fn keep_aside<R: Wait>(
        &mut self,
        rt: &R,
        config: &HubConfig,
        head: &[u8],
    ) -> Result<Outset, Failed> {
        let Some(Kept { each, .. }) = self.kept.take() else {
            return self.fails(Trouble::Read);
        };
        match put_aside(&self.files, self.alloc, self.path(), head) {
            Ok(file) => self.hand_over(rt, *config, Kept { file, each }, Moment(0), 0),
            Err(error) => self.fails(Trouble::System(error)),
        }
    }
}
