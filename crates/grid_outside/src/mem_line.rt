//! Lines of which a list says which calls find nothing there yet.
ghost use Rattle.std.specs.Prelude.{◌≡◌, List, None, Some, length};
ghost use Rattle.grid_outside.specs.MemLines.{LineLooks, LineReads, LineWrites, is_gone, line_view};
ghost use Rattle.grid_outside.specs.Lines.{LooksSo, ReadsSo, WritesSo};

use crate::line::{Line, Reading, Writing};
use crate::link::Link;
use crate::mem_link::MemLink;
use crate::waits::Waits;

/// A connection in memory. Its reads and writes find nothing there where that is planned, and else do as those of its link.
/// Its other side is gone where that is planned.
#[derive(Drop)]
pub struct MemLine {
    link: MemLink,
    reads_wait: Waits,
    writes_wait: Waits,
    /// From this look on the other side is gone.
    leaves: Option<u64>,
    looks: u64,
}

impl MemLine {
    ghost use Rattle.grid_outside.specs.Waiting.{BeginsToWait};

    /// The lists have the numbers of the reads and of the writes, from 0, that find nothing there. Its other side is never
    /// gone.
    pub fn new(link: MemLink, reads_wait: Vec<u64>, writes_wait: Vec<u64>) -> MemLine
        ensures link { result.link ≡ link }
        ensures reads { BeginsToWait reads_wait.items result.reads_wait }
        ensures writes { BeginsToWait writes_wait.items result.writes_wait }
        ensures stays { (result.leaves ≡ None) × (result.looks ≡ 0) }
    {
        MemLine {
            link,
            reads_wait: Waits::new(reads_wait),
            writes_wait: Waits::new(writes_wait),
            leaves: None,
            looks: 0,
        }
    }

    /// The line whose other side is gone from this look on, of those that were not made yet, counted from 0.
    pub fn gone_from(self, look: u64) -> MemLine
        ensures { result ≡ record self { leaves = Some look; looks = 0 } }
    {
        MemLine {
            leaves: Some(look),
            looks: 0,
            ..self
        }
    }

    /// What it reads and writes by.
    pub fn link(&self) -> &MemLink
        ensures { result.now ≡ self.now.link }
    {
        &self.link
    }
}

/// Whether the other side is gone at a look.
fn is_gone(leaves: Option<u64>, look: u64) -> bool
    ensures { result ≡ is_gone leaves look }
{
    match leaves {
        Some(first) => first <= look,
        None => false,
    }
}

impl Line for MemLine {
    ghost view = { line_view };

    fn read(&mut self, into: &mut [u8]) -> Reading
        ensures tells { ReadsSo result (length into.old) into.new (line_view self.old)
            (line_view self.new) }
        ensures planned { LineReads self.old self.new into.old into.new result }
    {
        if self.reads_wait.next_waits() {
            return Reading::NotNow;
        }
        match self.link.read(into) {
            Ok(0) => Reading::End,
            Ok(count) => Reading::Bytes(count),
            Err(_) => Reading::Failed,
        }
    }

    fn write(&mut self, from: &[u8]) -> Writing
        ensures tells { WritesSo result from.now (line_view self.old) (line_view self.new) }
        ensures planned { LineWrites self.old self.new from.now result }
    {
        if self.writes_wait.next_waits() {
            return Writing::NotNow;
        }
        match self.link.write(from) {
            Ok(count) => Writing::Bytes(count),
            Err(_) => Writing::Failed,
        }
    }

    fn gone(&mut self) -> bool
        ensures tells { LooksSo result (line_view self.old) (line_view self.new) }
        ensures planned { LineLooks self.old self.new result }
    {
        let look = self.looks;
        self.looks = look.saturating_add(1);
        if !is_gone(self.leaves, look) {
            return false;
        }
        self.link.count_read_fault();
        true
    }
}
