//! A block of bytes as a connection.
ghost use Rattle.std.specs.Prelude.{◌≡◌, ◌≤◌, min, length, take, drop};
ghost use Rattle.grid_teams_top.specs.Blocks.{block_view, first_view};

use crate::block::BlockLink;
use grid_outside::{Failed, Link};
use grid_types::Bytes;
use std::alloc::Global;

/// Copies to the front of `into` as many bytes as both hold.
fn copy_front(into: &mut [u8], from: &[u8]) -> usize
    ensures count { result ≡ min (length into.old) (length from.now) }
    ensures front { take result into.new ≡ take result from.now }
{
    let count = into.len().min(from.len());
    let front = &mut into[..count];
    front.copy_from_slice(&from[..count]);
    count
}

/// The bytes from the place on.
fn behind(text: &[u8], at: usize) -> &[u8]
    requires { at ≤ length text.now }
    ensures { result.now ≡ drop at text.now }
{
    &text[at..]
}

impl<'a> BlockLink<'a> {
    /// A connection on which these bytes come, and then the end of input.
    pub(crate) fn new(alloc: Global, bytes: &'a [u8]) -> BlockLink<'a>
        ensures bytes { result.bytes ≡ bytes.entry }
        ensures view { block_view result ≡ first_view }
    {
        BlockLink {
            bytes,
            at: 0,
            taken: Vec::new(alloc),
            ends: 0,
            write_faults: 0,
        }
    }

    /// What was written.
    pub(crate) fn into_taken(self) -> Bytes
        ensures { result ≡ self.entry.taken.items }
    {
        Bytes::from_vec(self.taken)
    }
}

impl Link for BlockLink<'_> {
    ghost use Rattle.std.proofs.Common.{refl, ◌∙◌};
    ghost use Rattle.grid_teams_top.specs.Blocks.{block_view};

    ghost view = { block_view };

    ghost Same = { λ x y. y.bytes.now ≡ x.bytes.now };

    ghost same_refl = { λ x. refl };

    ghost same_trans = { λ x y z p q. q ∙ p };

    fn read(&mut self, into: &mut [u8]) -> Result<usize, Failed> {
        let rest = behind(self.bytes, self.at);
        if rest.is_empty() {
            self.ends = self.ends.saturating_add(1);
            return Ok(0);
        }
        let count = copy_front(into, rest);
        self.at += count;
        Ok(count)
    }

    fn write(&mut self, from: &[u8]) -> Result<usize, Failed> {
        if self.taken.extend_from_slice(from).is_err() {
            self.write_faults = self.write_faults.saturating_add(1);
            return Err(Failed);
        }
        Ok(from.len())
    }
}
