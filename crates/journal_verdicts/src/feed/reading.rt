//! The input is read piece by piece.
ghost use Rattle.std.specs.Prelude.{◌≡◌, ◌+◌, ◌^◌, ◌<◌, ◌≤◌, ℕ, [], true, false, drop, length, OnOk, IsErrOf, nat_le};
ghost use Rattle.grid_outside.specs.Counts.{Rose};
ghost use Rattle.journal_verdicts.specs.Feeds.{waiting, Reads, HasMore};

use crate::feed::Feed;
use crate::verdict::CheckFault;
use grid_outside::{PIECE_BYTES, Source};
use std::alloc::Global;

/// The most bytes that are read.
const MOST_BYTES: u64 = 1 << 40;

impl Feed {
    /// Nothing was read yet. It takes no memory.
    pub(crate) fn new(alloc: Global) -> Feed
        ensures waiting { waiting result ≡ [] }
        ensures taken { result.taken ≡ 0 }
        ensures open { result.ended ≡ false }
    {
        Feed {
            bytes: Vec::new(alloc),
            start: 0,
            taken: 0,
            ended: false,
        }
    }

    /// The bytes that wait.
    pub(crate) fn waiting(&self) -> &[u8]
        ensures { result.now ≡ waiting self.now }
    {
        &self.bytes[self.start..]
    }

    /// How many bytes were taken off the front.
    pub(crate) fn taken(&self) -> u64
        ensures { result ≡ self.now.taken }
    {
        self.taken
    }

    /// How many bytes wait.
    pub(crate) fn count(&self) -> usize
        ensures count { result ≡ length (waiting self.now) }
        ensures most { self.now.taken + length (waiting self.now) ≤ 2 ^ 40 }
    {
        self.bytes.len() - self.start
    }

    /// Whether the input has ended.
    pub(crate) fn has_ended(&self) -> bool
        ensures { result ≡ self.now.ended }
    {
        self.ended
    }

    /// Whether as many bytes were read as are looked at.
    pub(crate) fn is_full(&self) -> bool
        ensures full { result ≡ nat_le (2 ^ 40) (self.now.taken + length (waiting self.now)) }
        ensures most { self.now.taken + length (waiting self.now) ≤ 2 ^ 40 }
    {
        self.taken + self.count() as u64 >= MOST_BYTES
    }

    /// Takes bytes off the front.
    pub(crate) fn take_off(&mut self, count: usize)
        requires { count ≤ length (waiting self.old) }
        ensures waiting { waiting self.new ≡ drop count (waiting self.old) }
        ensures taken { self.new.taken ≡ self.old.taken + count }
        ensures ended { self.new.ended ≡ self.old.ended }
    {
        self.start += count;
        self.taken += count as u64;
    }

    /// Moves the bytes that wait to the front of the buffer.
    fn move_down(&mut self)
        ensures waiting { waiting self.new ≡ waiting self.old }
        ensures start { self.new.start ≡ 0 }
        ensures taken { self.new.taken ≡ self.old.taken }
        ensures ended { self.new.ended ≡ self.old.ended }
    {
        self.bytes.drain(..self.start);
        self.start = 0;
    }

    /// Reads once, at most up to the limit.
    fn read_piece<S: Source>(&mut self, input: &mut S) -> Result<(), CheckFault>
        requires open { self.old.ended ≡ false }
        requires room { self.old.taken + length (waiting self.old) < 2 ^ 40 }
        ensures reads { OnOk result (Reads self.old self.new (S.view input.old).given
            (S.view input.new).given) }
        ensures more { OnOk result (HasMore self.old self.new) }
        ensures end { OnOk result (self.new.ended ≡ true →
            Rose (S.view input.old).ends (S.view input.new).ends) }
        ensures ends { (S.view input.old).ends ≤ (S.view input.new).ends }
        ensures faults { (S.view input.old).faults ≤ (S.view input.new).faults }
        ensures cause { IsErrOf result CheckFault.Read →
            Rose (S.view input.old).faults (S.view input.new).faults }
    {
        let mut piece = [0; PIECE_BYTES];
        let left = MOST_BYTES - self.taken - self.count() as u64;
        let room = if left < PIECE_BYTES as u64 {
            left as usize
        } else {
            PIECE_BYTES
        };
        match input.read(&mut piece[..room]) {
            Ok(0) => {
                self.ended = true;
                Ok(())
            }
            Ok(count) => match self.bytes.extend_from_slice(&piece[..count]) {
                Ok(()) => Ok(()),
                Err(_) => Err(CheckFault::Memory),
            },
            Err(_) => Err(CheckFault::Read),
        }
    }

    /// Reads until twice as many bytes wait and one more, or the input has ended, or the limit is reached.
    pub(crate) fn refill<S: Source>(&mut self, input: &mut S) -> Result<(), CheckFault>
        requires open { self.old.ended ≡ false }
        requires room { self.old.taken + length (waiting self.old) < 2 ^ 40 }
        ensures reads { OnOk result (Reads self.old self.new (S.view input.old).given
            (S.view input.new).given) }
        ensures more { OnOk result (HasMore self.old self.new) }
        ensures end { OnOk result (self.new.ended ≡ true →
            Rose (S.view input.old).ends (S.view input.new).ends) }
        ensures ends { (S.view input.old).ends ≤ (S.view input.new).ends }
        ensures faults { (S.view input.old).faults ≤ (S.view input.new).faults }
        ensures cause { IsErrOf result CheckFault.Read →
            Rose (S.view input.old).faults (S.view input.new).faults }
    {
        let wanted = self.count() * 2 + 1;
        self.move_down();
        'pieces: while self.count() < wanted && !self.has_ended() && !self.is_full() {
            self.read_piece(input)?;
        }
        Ok(())
    }
}
