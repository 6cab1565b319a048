//! How much is read.

/// The most bytes that a run reads: 2^40.
pub const MOST_INPUT_BYTES: u64 = 1_099_511_627_776;
