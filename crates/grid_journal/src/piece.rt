//! The entries of one turn as they stand in a journal.
ghost use Rattle.std.specs.Prelude.{[]};

mod adding;
mod nodes;
mod requests;
mod sessions;

use crate::out::Out;
use std::alloc::Global;
use std::marker::Model;

/// Why an entry is not told.
#[derive(Clone, Copy, Debug, PartialEq, Eq)]
pub enum PieceFault {
    /// There was no memory.
    Memory,
    /// It could not be read again: it has more bytes than an entry may have, or a moment past the last one.
    Unreadable,
}

/// Entries one behind the other, seen as their bytes. Each call tells one more, from borrowed parts. Where one can't be
/// told none is left, so that a turn is kept whole or not at all.
#[derive(Drop)]
pub struct Piece {
    pub(crate) out: Out,
}

impl Model for Piece {
    ghost use Rattle.std.specs.Prelude.{ℕ, List};
    ghost use Rattle.grid_journal.specs.Pieces.{KeepsAll};

    ghost Value = { List ℕ };

    ghost view = { λ p. p.out.kept.items };

    ghost invariant = { λ p. KeepsAll p.out };
}
