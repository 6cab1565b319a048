//! What a hub begins with, for who tells what it enters.
ghost use Rattle.std.specs.Prelude.{◌≡◌, ℕ, ◌<◌, ◌≤◌, None};

use grid_farm::read_farm;
use grid_log::Recall;
use grid_outside::{Failed, Source};
use grid_types::HubConfig;
use std::alloc::Global;
use std::fs::File;
use std::io::Read;

/// So many bytes are read in a second or less.
const SYNC_BYTES: usize = 1 << 25;

/// What a hub begins with: what it is set up with, and the journal from which it goes on, if it has one.
#[derive(Drop)]
pub(crate) struct Beginning {
    pub(crate) config: HubConfig,
    pub(crate) before: Option<Front>,
}

/// The front of a file, as an input. It tells no bytes.
#[derive(Drop)]
pub(crate) struct Front {
    file: File,
    /// So many bytes are not read yet.
    left: usize,
    /// So many were read since what is appended meanwhile was made to stay on the disk.
    since_sync: usize,
    faults: u64,
    ends: u64,
}

impl Front {
    /// So many bytes of a file, from its beginning.
    pub(crate) fn new(file: File, bytes: usize) -> Self {
        Front {
            file,
            left: bytes,
            since_sync: 0,
            faults: 0,
            ends: 0,
        }
    }

    /// Of so many bytes that were read those that are of the front. Each second or so it makes what the hub appends meanwhile stay on
    /// the disk.
    fn has_read(&mut self, bytes: usize) -> usize
        ensures count { result ≤ bytes }
        ensures ends { self.new.ends ≡ self.old.ends }
        ensures faults { self.new.faults ≡ self.old.faults }
    {
        let count = bytes.min(self.left);
        self.left -= count;
        self.since_sync = self.since_sync.saturating_add(count);
        if self.since_sync >= SYNC_BYTES {
            self.since_sync = 0;
            let _ = self.file.sync_data();
        }
        count
    }

    /// What a log remembers of the journal that stands there: nothing, where it can't be read.
    pub(crate) fn recalled(mut self, alloc: Global) -> Recall {
        match read_farm(alloc, &mut self) {
            Ok(read) => read.farm.past,
            Err(_) => Recall::new(alloc),
        }
    }
}

impl Source for Front {
    ghost view = { λ s. record { given = None; ends = s.ends; faults = s.faults } };

    fn read(&mut self, into: &mut [u8]) -> Result<usize, Failed> {
        match self.file.read(into) {
            Ok(bytes) => {
                let count = self.has_read(bytes);
                if count == 0 {
                    self.ends = self.ends.saturating_add(1);
                }
                Ok(count)
            }
            Err(_) => {
                self.faults = self.faults.saturating_add(1);
                Err(Failed)
            }
        }
    }
}
