//! What a journal that was read leaves.
use crate::verdict::Verdict;
use grid_ledger::GridLedger;

/// What stands for the whole entries of a journal: these are all that it has, or those before the one that is cut off at its
/// end.
#[derive(Drop)]
pub struct Journal<L: Drop> {
    /// The tables that stand for them.
    pub ledger: GridLedger,
    /// How many they are.
    pub entries: u64,
    /// The greatest number of a caller of one of them, or 0.
    pub most_caller: u64,
    /// How many bytes they take with the head.
    pub whole: u64,
    /// Who was told of each of them.
    pub listener: L,
}

/// What was read: the verdict on it, and what it leaves where it is the journal of a legal history, or one that is cut off
/// behind its head.
#[derive(Drop)]
pub struct ReadIn<L: Drop> {
    pub verdict: Verdict,
    pub journal: Option<Journal<L>>,
}
