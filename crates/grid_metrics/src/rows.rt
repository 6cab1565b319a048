//! The lines of the text format of Prometheus, version 0.0.4.
ghost use Rattle.std.specs.Prelude.{◌≡◌, [], OnOk};
ghost use Rattle.grid_metrics.specs.Rows.{family, series, single, time, with_family, with_row, with_series, with_time};

use grid_types::NoMemory;
use std::alloc::Global;
use text_sheet::Sheet;

/// The metrics so far.
#[derive(Drop)]
pub struct Metrics {
    sheet: Sheet,
}

impl Metrics {
    /// No metrics yet.
    pub(crate) fn new(alloc: Global) -> Metrics
        ensures { result.sheet.bytes.items ≡ [] }
    {
        Metrics {
            sheet: Sheet::new(alloc),
        }
    }

    /// The text.
    pub fn as_bytes(&self) -> &[u8]
        ensures { result.now ≡ self.now.sheet.bytes.items }
    {
        self.sheet.as_bytes()
    }

    #[tactic(auto, unfolding(crate::specs::Rows::with_family))]
    fn put_family(&mut self, kind: &str, name: &str, help: &str) -> Result<(), NoMemory>
        ensures { OnOk result (self.new.sheet.bytes.items
            ≡ with_family self.old.sheet.bytes.items kind.now name.now help.now) }
    {
        self.sheet.text("# HELP ")?;
        self.sheet.text(name)?;
        self.sheet.text(" ")?;
        self.sheet.text(help)?;
        self.sheet.text("\n# TYPE ")?;
        self.sheet.text(name)?;
        self.sheet.text(" ")?;
        self.sheet.text(kind)?;
        self.sheet.text("\n")
    }

    #[tactic(auto, unfolding(crate::specs::Rows::with_series))]
    fn put_series(&mut self, name: &str, n: u64) -> Result<(), NoMemory>
        ensures { OnOk result (self.new.sheet.bytes.items
            ≡ with_series self.old.sheet.bytes.items name.now n) }
    {
        self.sheet.text(name)?;
        self.sheet.text(" ")?;
        self.sheet.number(n)?;
        self.sheet.text("\n")
    }

    #[tactic(auto, unfolding(crate::specs::Rows::with_time))]
    fn put_time(&mut self, name: &str, ms: u64) -> Result<(), NoMemory>
        ensures { OnOk result (self.new.sheet.bytes.items
            ≡ with_time self.old.sheet.bytes.items name.now ms) }
    {
        self.sheet.text(name)?;
        self.sheet.text(" ")?;
        self.sheet.seconds(ms)?;
        self.sheet.text("\n")
    }

    /// What a family is called, of which kind it is, and what its values are.
    #[tactic(auto, unfolding(crate::specs::Rows::with_row))]
    pub(crate) fn family(&mut self, kind: &str, name: &str, help: &str) -> Result<(), NoMemory>
        ensures { OnOk result (self.new.sheet.bytes.items
            ≡ with_row self.old.sheet.bytes.items (family kind.now name.now help.now)) }
    {
        self.put_family(kind, name, help)
    }

    /// A series, by its name and its labels, with its value.
    #[tactic(auto, unfolding(crate::specs::Rows::with_row))]
    pub(crate) fn series(&mut self, name: &str, n: u64) -> Result<(), NoMemory>
        ensures { OnOk result (self.new.sheet.bytes.items
            ≡ with_row self.old.sheet.bytes.items (series name.now n)) }
    {
        self.put_series(name, n)
    }

    /// A series with a time in milliseconds, which is told in seconds.
    #[tactic(auto, unfolding(crate::specs::Rows::with_row))]
    pub(crate) fn time(&mut self, name: &str, ms: u64) -> Result<(), NoMemory>
        ensures { OnOk result (self.new.sheet.bytes.items
            ≡ with_row self.old.sheet.bytes.items (time name.now ms)) }
    {
        self.put_time(name, ms)
    }

    /// A family that is a single series.
    #[tactic(auto, unfolding(crate::specs::Rows::with_row))]
    pub(crate) fn single(
        &mut self,
        kind: &str,
        name: &str,
        help: &str,
        n: u64,
    ) -> Result<(), NoMemory>
        ensures { OnOk result (self.new.sheet.bytes.items
            ≡ with_row self.old.sheet.bytes.items (single kind.now name.now help.now n)) }
    {
        self.put_family(kind, name, help)?;
        self.put_series(name, n)
    }
}
