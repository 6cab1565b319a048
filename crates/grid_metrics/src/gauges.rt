//! The metrics of a farm.
ghost use Rattle.std.specs.Prelude.{◌≡◌, IfOk, OnOk};
ghost use Rattle.grid_farm.specs.Known.{known};
ghost use Rattle.grid_metrics.specs.Metrics.{gauge_rows, level_rows, metrics, node_state_rows, slot_state_rows};
ghost use Rattle.grid_metrics.specs.Rows.{with_rows};

use crate::rows::Metrics;
use grid_farm::{KnownFarm, NodeStates, SlotStates};
use grid_types::NoMemory;
use std::alloc::Global;

impl Metrics {
    /// The registered nodes by their states.
    fn node_state_rows(&mut self, states: &NodeStates) -> Result<(), NoMemory>
        ensures { OnOk result (self.new.sheet.bytes.items
            ≡ with_rows self.old.sheet.bytes.items (node_state_rows states.now)) }
    {
        self.family("gauge", "grid_nodes", "Registered nodes by their state.")?;
        self.series("grid_nodes{state=\"up\"}", states.up)?;
        self.series("grid_nodes{state=\"suspect\"}", states.suspect)?;
        self.series("grid_nodes{state=\"draining\"}", states.draining)
    }

    /// The slots by their states.
    fn slot_state_rows(&mut self, states: &SlotStates) -> Result<(), NoMemory>
        ensures { OnOk result (self.new.sheet.bytes.items
            ≡ with_rows self.old.sheet.bytes.items (slot_state_rows states.now)) }
    {
        self.family("gauge", "grid_slots", "Slots by their state.")?;
        self.series("grid_slots{state=\"free\"}", states.free)?;
        self.series("grid_slots{state=\"starting\"}", states.starting)?;
        self.series("grid_slots{state=\"busy\"}", states.busy)?;
        self.series("grid_slots{state=\"closing\"}", states.closing)
    }

    /// What runs and waits, and how far the journal goes.
    fn level_rows(
        &mut self,
        sessions: u64,
        waiting: u64,
        entries: u64,
        at: u64,
    ) -> Result<(), NoMemory>
        ensures { OnOk result (self.new.sheet.bytes.items
            ≡ with_rows self.old.sheet.bytes.items (level_rows sessions waiting entries at)) }
    {
        self.single("gauge", "grid_sessions", "Sessions that run.", sessions)?;
        self.single(
            "gauge",
            "grid_queue_waiting",
            "Requests that wait for a slot.",
            waiting,
        )?;
        self.single(
            "counter",
            "grid_journal_entries_total",
            "Entries of the journal.",
            entries,
        )?;
        self.family(
            "gauge",
            "grid_last_entry_seconds",
            "The moment of the last entry, since the hub's clock began.",
        )?;
        self.time("grid_last_entry_seconds", at)
    }

    /// What is there now.
    fn gauge_rows(&mut self, farm: &KnownFarm) -> Result<(), NoMemory>
        ensures { OnOk result (self.new.sheet.bytes.items
            ≡ gauge_rows self.old.sheet.bytes.items (known farm.now)) }
    {
        let nodes = farm.nodes();
        let slots = farm.slots();
        self.node_state_rows(&nodes)?;
        self.slot_state_rows(&slots)?;
        let sessions = farm.past.sessions().len() as u64;
        self.level_rows(sessions, farm.waiting(), farm.counts.entries, farm.at)
    }
}

/// The metrics of a farm.
pub fn metrics(alloc: Global, farm: &KnownFarm) -> Result<Metrics, NoMemory>
    ensures { IfOk result (λ text. text.sheet.bytes.items ≡ metrics (known farm.now)) }
{
    let mut text = Metrics::new(alloc);
    text.count_rows(&farm.counts)?;
    text.histogram_rows(&farm.counts.waits)?;
    text.gauge_rows(farm)?;
    Ok(text)
}
