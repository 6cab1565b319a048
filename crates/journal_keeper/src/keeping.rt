//! What a hub's journal is kept by.
ghost use Rattle.std.specs.Prelude.{◌≡◌, option_map};
ghost use Rattle.journal_keeper.specs.Keepings.{kept_by};

use crate::file::FileKeeper;
use crate::keeper::{Keeper, News, Short};
use crate::memory::MemKeeper;
use crate::watching::Watch;
use grid_outside::Failed;
use std::fs::File;
use std::sync::Wait;

/// Where a hub's journal is kept. One type serves each hub, so that no type above it names how a journal is kept.
#[derive(Drop)]
pub enum Keeping {
    /// Nowhere.
    Nothing,
    /// In memory, for trials.
    Memory(MemKeeper),
    /// In a file.
    File(FileKeeper<File>),
    /// In a file, where there is one, and a thread is told what is kept.
    Watched(Watched),
}

/// A journal's file, where there is one, and the end at which a thread is told what is kept.
#[derive(Drop)]
pub struct Watched {
    pub file: Option<FileKeeper<File>>,
    pub watch: Watch,
}

impl Keeper for Watched {
    ghost use Rattle.std.specs.Prelude.{None};
    ghost use Rattle.journal_keeper.specs.Keepings.{faults_in};

    ghost faults = { λ w. faults_in w.file };

    ghost kept = { λ w. None };

    ghost synced = { λ w. 0 };

    fn is_kept(&self) -> bool {
        self.file.is_some()
    }

    fn append(&mut self, piece: &[u8]) -> Result<(), Short> {
        match &mut self.file {
            Some(keeper) => keeper.append(piece),
            None => Ok(()),
        }
    }

    fn sync(&mut self) -> Result<(), Failed> {
        match &mut self.file {
            Some(keeper) => keeper.sync(),
            None => Ok(()),
        }
    }

    fn tell<R: Wait>(&mut self, rt: &R, news: News<'_>) {
        self.watch.tell(rt, news);
    }
}

impl Keeping {
    /// The bytes that stand there, where they are told.
    pub fn bytes(&self) -> Option<&[u8]>
        ensures { option_map (λ bytes. bytes.now) result ≡ kept_by self.now }
    {
        match self {
            Keeping::Memory(keeper) => Some(keeper.bytes()),
            _ => None,
        }
    }
}

impl Keeper for Keeping {
    ghost use Rattle.journal_keeper.specs.Keepings.{faults_of, kept_by, synced_of};

    ghost faults = { faults_of };

    ghost kept = { kept_by };

    ghost synced = { synced_of };

    fn is_kept(&self) -> bool {
        match self {
            Keeping::Nothing => false,
            Keeping::Memory(_) => true,
            Keeping::File(_) => true,
            Keeping::Watched(keeper) => keeper.is_kept(),
        }
    }

    fn append(&mut self, piece: &[u8]) -> Result<(), Short> {
        match self {
            Keeping::Nothing => Ok(()),
            Keeping::Memory(keeper) => keeper.append(piece),
            Keeping::File(keeper) => keeper.append(piece),
            Keeping::Watched(keeper) => keeper.append(piece),
        }
    }

    fn sync(&mut self) -> Result<(), Failed> {
        match self {
            Keeping::Nothing => Ok(()),
            Keeping::Memory(keeper) => keeper.sync(),
            Keeping::File(keeper) => keeper.sync(),
            Keeping::Watched(keeper) => keeper.sync(),
        }
    }

    fn tell<R: Wait>(&mut self, rt: &R, news: News<'_>) {
        if let Keeping::Watched(keeper) = self {
            keeper.tell(rt, news);
        }
    }
}
