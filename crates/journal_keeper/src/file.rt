//! A journal's file on a disk. To a hub it tells no bytes.
ghost use Rattle.std.specs.Prelude.{◌≡◌, ℕ, ◌≤◌, None, OnOk, IfErr};
ghost use Rattle.std.specs.Io.KnownBytes.{Appends};
ghost use Rattle.grid_outside.specs.Counts.{HasCause, Rose};
ghost use Rattle.journal_keeper.specs.Keeps.{Adds, AddsFront, AppendsFront};

use crate::keeper::{Keeper, News, Short};
use grid_outside::Failed;
use std::fs::OpenFile;
use std::io::Write;
use std::sync::Wait;

/// When appended bytes are made to outlast a loss of power.
#[derive(Clone, Copy, Debug, PartialEq, Eq)]
pub enum Syncing {
    /// Within each append, which then takes as long as the disk does.
    Each,
    /// By calls of `sync` alone, or by nobody.
    Apart,
}

/// A file that was opened to append. A piece goes out in one write, and in further ones what that did not take.
#[derive(Drop)]
pub struct FileKeeper<F: Write + OpenFile + Drop> {
    file: F,
    syncing: Syncing,
    faults: u64,
}

impl<F: Write + OpenFile + Drop> FileKeeper<F> {
    /// No fault is counted yet.
    pub fn new(file: F, syncing: Syncing) -> Self
        ensures { result.faults ≡ 0 }
    {
        FileKeeper {
            file,
            syncing,
            faults: 0,
        }
    }

    /// The file, of which a copy may be synced beside the appends.
    pub fn file(&self) -> &F
        ensures { result.now ≡ self.now.file }
    {
        &self.file
    }

    /// Counts a failure.
    fn count_fault(&mut self)
        ensures file { self.new.file ≡ self.old.file }
        ensures later { self.old.faults ≤ self.new.faults }
        ensures rose { Rose self.old.faults self.new.faults }
    {
        self.faults = self.faults.saturating_add(1);
    }

    /// Writes all of the piece. A write that takes nothing of what is left has failed.
    fn write_piece(&mut self, piece: &[u8]) -> Result<(), Short>
        ensures whole { OnOk result (Appends (F.contents self.old.file) (F.contents self.new.file) piece.now) }
        ensures part { IfErr result (λ short. AppendsFront
            (F.contents self.old.file) (F.contents self.new.file) piece.now short.taken) }
        ensures cause { HasCause self.old.faults self.new.faults result }
    {
        let mut at = 0;
        for _ in 0..u64::MAX {
            let (_written, rest) = piece.split_at(at);
            if rest.is_empty() {
                return Ok(());
            }
            match self.file.write(rest) {
                Ok(count) if count > 0 => at += count,
                _ => break,
            }
        }
        self.count_fault();
        Err(Short { taken: at })
    }

    fn sync_file(&mut self) -> Result<(), Failed>
        ensures file { self.new.file ≡ self.old.file }
        ensures cause { HasCause self.old.faults self.new.faults result }
    {
        match self.file.sync_data() {
            Ok(()) => Ok(()),
            Err(_) => {
                self.count_fault();
                Err(Failed)
            }
        }
    }
}

impl<F: Write + OpenFile + Drop> Keeper for FileKeeper<F> {
    ghost faults = { λ k. k.faults };

    ghost kept = { λ k. None };

    ghost synced = { λ k. 0 };

    fn is_kept(&self) -> bool {
        true
    }

    /// Where the file's writer tells its bytes, those of the piece stand behind them, or a front of those. Where they all do
    /// and could not be synced, the piece was taken whole all the same.
    fn append(&mut self, piece: &[u8]) -> Result<(), Short>
        ensures whole { OnOk result (Adds None None piece.now) }
        ensures part { IfErr result (λ short. AddsFront None None piece.now short.taken) }
        ensures synced { 0 ≤ 0 }
        ensures cause { HasCause self.old.faults self.new.faults result }
        ensures written { OnOk result (Appends (F.contents self.old.file) (F.contents self.new.file) piece.now) }
        ensures cut { IfErr result (λ short. AppendsFront
            (F.contents self.old.file) (F.contents self.new.file) piece.now short.taken) }
    {
        self.write_piece(piece)?;
        match self.syncing {
            Syncing::Each => match self.sync_file() {
                Ok(()) => Ok(()),
                Err(_) => Err(Short { taken: piece.len() }),
            },
            Syncing::Apart => Ok(()),
        }
    }

    fn sync(&mut self) -> Result<(), Failed> {
        self.sync_file()
    }

    fn tell<R: Wait>(&mut self, _rt: &R, _news: News<'_>) {}
}
