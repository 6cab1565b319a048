//! What keeps the bytes of a journal.
ghost use Rattle.std.specs.Prelude.{◌≡◌, ℕ, ◌≤◌, List, length, None, Option, OnOk, IfErr, IfSome, false};
ghost use Rattle.grid_outside.specs.Counts.{HasCause};
ghost use Rattle.journal_keeper.specs.Keeps.{Adds, AddsFront};

use grid_outside::Failed;
use std::sync::Wait;

/// An append failed: so many bytes from the front of its piece stand there, perhaps none, perhaps all.
#[derive(Clone, Copy, Debug, PartialEq, Eq)]
pub struct Short {
    pub taken: usize,
}

/// What becomes of a piece.
#[derive(Clone, Copy, Debug)]
pub enum News<'a> {
    /// It has the entries of a turn, and stands there.
    Kept(&'a [u8]),
    /// An append of it failed, and the turn waits.
    Waits,
}

/// A file that grows at its end. A kill while an append runs leaves what stood there and a front of the piece.
pub trait Keeper {
    /// How often it failed; it stays at 2^64 - 1 once it is there.
    ghost faults: { Self → ℕ };

    /// Its bytes, where it tells them.
    ghost kept: { Self → Option (List ℕ) };

    /// How many of them stay there at least when the power fails.
    ghost synced: { Self → ℕ };

    /// Whether it keeps anything. Where not, no piece need be made.
    fn is_kept(&self) -> bool
        ensures untold { result ≡ false → kept self.now ≡ None };

    /// Puts the piece behind all that stands there. Err: a front of it stands there.
    fn append(&mut self, piece: &[u8]) -> Result<(), Short>
        ensures whole { OnOk result (Adds (kept self.old) (kept self.new) piece.now) }
        ensures part { IfErr result (λ short.
            AddsFront (kept self.old) (kept self.new) piece.now short.taken) }
        ensures synced { synced self.old ≤ synced self.new }
        ensures cause { HasCause (faults self.old) (faults self.new) result };

    /// Makes all that stands there stay there when the power fails.
    fn sync(&mut self) -> Result<(), Failed>
        ensures same { kept self.new ≡ kept self.old }
        ensures all { OnOk result (IfSome (kept self.new) (λ bytes. length bytes ≤ synced self.new)) }
        ensures synced { synced self.old ≤ synced self.new }
        ensures cause { HasCause (faults self.old) (faults self.new) result };

    /// Tells whoever watches what became of a piece, where somebody does, and waits for nobody.
    fn tell<R: Wait>(&mut self, rt: &R, news: News<'_>)
        ensures { kept self.new ≡ kept self.old };
}

/// Keeps nothing and never fails.
#[derive(Clone, Copy, Debug)]
pub struct NoJournal;

impl Keeper for NoJournal {
    ghost faults = { λ k. 0 };

    ghost kept = { λ k. None };

    ghost synced = { λ k. 0 };

    fn is_kept(&self) -> bool {
        false
    }

    fn append(&mut self, _piece: &[u8]) -> Result<(), Short> {
        Ok(())
    }

    fn sync(&mut self) -> Result<(), Failed> {
        Ok(())
    }

    fn tell<R: Wait>(&mut self, _rt: &R, _news: News<'_>) {}
}
