//! What is known of a farm.
ghost use Rattle.std.specs.Prelude.{◌≡◌, if◌then◌else◌, OnOk};
ghost use Rattle.grid_farm.specs.Farms.{farm_after, no_farm};
ghost use Rattle.grid_farm.specs.Kinds.{is_created};
ghost use Rattle.grid_farm.specs.Known.{known};

use crate::counts::Counts;
use crate::hour::{LastHour, clock_after, minute_of};
use crate::kind::{Kind, is_of};
use crate::rows::UseRow;
use crate::uses::{note_draining, note_uses};
use grid_log::Recall;
use grid_types::{Change, Entry, NoMemory, NodeNo};
use std::alloc::Global;

/// The nodes, requests and sessions, the slots in use, the nodes that are draining, the counts, the greatest moment so far, and
/// the hour up to it.
#[derive(Drop)]
pub struct KnownFarm {
    pub past: Recall,
    pub uses: Vec<UseRow>,
    pub draining: Vec<NodeNo>,
    pub counts: Counts,
    /// In milliseconds since the hub's clock began.
    pub at: u64,
    pub hour: LastHour,
}

/// 1 where a session is created.
fn created_in(change: &Change) -> u64
    ensures { result ≡ if is_created change.now then 1 else 0 }
{
    u64::from(is_of(Kind::Created, change))
}

impl KnownFarm {
    /// Nothing happened yet. It takes no memory.
    pub(crate) fn new(alloc: Global) -> KnownFarm
        ensures { known result ≡ no_farm }
    {
        KnownFarm {
            past: Recall::new(alloc),
            uses: Vec::new(alloc),
            draining: Vec::new(alloc),
            counts: Counts::new(),
            at: 0,
            hour: LastHour::new(alloc),
        }
    }

    /// Takes note of an entry. After an error what it knows is of no use.
    pub(crate) fn note(&mut self, entry: &Entry) -> Result<(), NoMemory>
        ensures { OnOk result (known self.new ≡ farm_after (known self.old) entry.now) }
    {
        note_uses(&mut self.uses, &self.past, &entry.change)?;
        note_draining(&mut self.draining, &entry.change)?;
        self.counts = self.counts.after(&self.past, entry);
        self.past.note(entry)?;
        self.at = clock_after(self.at, &entry.change);
        self.hour.note(
            minute_of(self.at),
            created_in(&entry.change),
            self.past.unsettled().len() as u64,
        )
    }
}
