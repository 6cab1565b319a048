//! An input of which a copy is kept.
ghost use Rattle.std.specs.Prelude.{◌≡◌, ℕ, ◌<◌, ◌≤◌, None};

use grid_outside::{Failed, Source};
use std::alloc::Global;

/// Gives what another input gives, and keeps a copy of it, so that whoever reads by it can be told what is wrong with
/// the text. Where there is no memory for the copy none is kept, and the reads go on.
#[derive(Drop)]
pub struct KeptInput<S: Source + Drop> {
    input: S,
    kept: Option<Vec<u8>>,
}

impl<S: Source + Drop> KeptInput<S> {
    /// Keeps what is read from now on.
    pub fn new(alloc: Global, input: S) -> Self
        ensures { result.input ≡ input }
    {
        KeptInput {
            input,
            kept: Some(Vec::new(alloc)),
        }
    }

    /// What was read; None where there was no memory to keep it.
    pub fn kept(&self) -> Option<&[u8]> {
        match &self.kept {
            Some(kept) => Some(kept.as_slice()),
            None => None,
        }
    }

    fn keep(&mut self, piece: &[u8])
        ensures { self.new.input ≡ self.old.input }
    {
        let full = match &mut self.kept {
            Some(kept) => kept.extend_from_slice(piece).is_err(),
            None => false,
        };
        if full {
            self.kept = None;
        }
    }
}

impl<S: Source + Drop> Source for KeptInput<S> {
    ghost view = { λ k. S.view k.input };

    fn read(&mut self, into: &mut [u8]) -> Result<usize, Failed> {
        let came = self.input.read(into);
        if let Ok(count) = came {
            self.keep(&into[..count]);
        }
        came
    }
}
