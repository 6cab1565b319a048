//! The laws of the format, each as the contract of a function that does nothing.
ghost use Rattle.std.specs.Prelude.{◌≡◌};
ghost use Rattle.grid_journal.specs.declared.head.TheConstants.{HEAD_BYTES};
ghost use Rattle.grid_journal.specs.declared.reading.TheConstants.{MOST_ENTRY_BYTES};
ghost use Rattle.grid_journal.specs.EntryReads.{OneSpelling};
ghost use Rattle.grid_journal.specs.HeadReads.{OneHead};
ghost use Rattle.grid_journal.specs.RowReads.{OneRowSpelling};

/// No spelling of an entry begins that of another, and no head begins another.
pub fn one_spelling()
    ensures entries { OneSpelling }
    ensures heads { OneHead }
{}

/// No two rows are spelled the same.
pub fn one_row_spelling()
    ensures { OneRowSpelling }
{}

/// The number behind each name of a size in bytes, since definitions cite the names.
pub fn fixed_sizes()
    ensures head { HEAD_BYTES ≡ 57 }
    ensures entry { MOST_ENTRY_BYTES ≡ 20971520 }
{}
