//! What a check answers.

/// What bytes are, as a journal.
#[derive(Clone, Copy, Debug, PartialEq, Eq)]
pub enum Verdict {
    /// They are the journal of a valid configuration and a legal history of so many entries.
    Legal { entries: u64 },
    /// The entry with this number, from 0, is the first that is not permitted after those before it.
    Illegal { entry: u64 },
    /// Behind so many bytes no entry begins, and all entries before are permitted.
    Bad { at: u64 },
    /// The input ends inside the head, or inside an entry that begins behind so many bytes. All entries before are
    /// permitted.
    Cut { at: u64 },
    /// No head begins so, or its configuration is not valid.
    NotJournal,
    /// There are 2^40 bytes at least, and nothing is wrong with the first 2^40.
    Limit,
}

/// Why there is no verdict.
#[derive(Clone, Copy, Debug, PartialEq, Eq)]
pub enum CheckFault {
    /// A read failed.
    Read,
    /// Memory was wanted and there was none.
    Memory,
}
