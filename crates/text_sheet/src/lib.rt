//! A text that grows piece by piece.
#![tactic(auto)]

ghost use Rattle.std.specs.Prelude.{◌≡◌, ◌++◌, [], OnOk, decimal};
ghost use Rattle.text_sheet.specs.Numbers.{seconds};

use grid_types::NoMemory;
use itoa::Buffer;
use std::alloc::Global;

/// The bytes of a text so far.
#[derive(Drop)]
pub struct Sheet {
    bytes: Vec<u8>,
}

impl Sheet {
    /// No byte yet. It takes no memory.
    pub fn new(alloc: Global) -> Sheet
        ensures { result.bytes.items ≡ [] }
    {
        Sheet {
            bytes: Vec::new(alloc),
        }
    }

    /// The bytes.
    pub fn as_bytes(&self) -> &[u8]
        ensures { result.now ≡ self.now.bytes.items }
    {
        self.bytes.as_slice()
    }

    /// Puts bytes last.
    pub fn bytes(&mut self, bytes: &[u8]) -> Result<(), NoMemory>
        ensures { OnOk result (self.new.bytes.items ≡ self.old.bytes.items ++ bytes.now) }
    {
        self.bytes.extend_from_slice(bytes)?;
        Ok(())
    }

    /// Puts a text last.
    pub fn text(&mut self, text: &str) -> Result<(), NoMemory>
        ensures { OnOk result (self.new.bytes.items ≡ self.old.bytes.items ++ text.now) }
    {
        self.bytes(text.as_bytes())
    }

    /// Puts a number last.
    pub fn number(&mut self, n: u64) -> Result<(), NoMemory>
        ensures { OnOk result (self.new.bytes.items ≡ self.old.bytes.items ++ decimal n) }
    {
        let mut buffer = Buffer::new();
        self.text(buffer.format(n))
    }

    /// Puts milliseconds last, as seconds with three digits behind the point.
    #[tactic(auto, unfolding(crate::specs::Numbers::seconds))]
    pub fn seconds(&mut self, ms: u64) -> Result<(), NoMemory>
        ensures { OnOk result (self.new.bytes.items ≡ self.old.bytes.items ++ seconds ms) }
    {
        self.number(ms / 1000)?;
        self.text(".")?;
        self.number(ms / 100 % 10)?;
        self.number(ms / 10 % 10)?;
        self.number(ms % 10)
    }
}
