//! A check whose verdict is told on an output.
ghost use Rattle.std.specs.Prelude.{◌≡◌, OnOk, OnErr, ℕ};
ghost use Rattle.grid_outside.specs.Counts.{HasCause};
ghost use Rattle.grid_outside.specs.Told.{Gains};
ghost use Rattle.grid_check.specs.Running.{CheckEnds, TellEnds};

use crate::lines::{line_of, status_of};
use grid_outside::{Sink, Source, write_all};
use journal_verdicts::{CheckFault, Verdict, check};
use std::alloc::Global;

/// A read failed.
const READ_FAILED: u8 = 5;

/// The status where a write failed.
pub(crate) const WRITE_FAILED: u8 = 6;

/// The status where memory was wanted and there was none.
pub(crate) const NO_MEMORY: u8 = 7;

/// Writes the verdict's line: the status of a program that does just that.
fn tell<K: Sink>(alloc: Global, verdict: &Verdict, output: &mut K) -> u8
    ensures { TellEnds (K.view output.old) (K.view output.new) verdict.now result }
{
    match line_of(alloc, verdict) {
        Ok(line) => match write_all(output, line.as_str().as_bytes()) {
            Ok(()) => status_of(verdict),
            Err(_) => WRITE_FAILED,
        },
        Err(_) => NO_MEMORY,
    }
}

/// Checks the input and writes a line with the verdict: the status of a program that does just that. It is 0 where the
/// input is the journal of a legal history, 1 where an entry is not permitted, 2 where no entry begins, 3 where the input
/// is cut off, 4 where it is no journal and 9 where it has more bytes than are looked at; 5 where a read failed, 6 where
/// a write failed, and 7 out of memory.
pub fn run_check<S: Source, K: Sink>(alloc: Global, input: &mut S, output: &mut K) -> u8
    ensures { CheckEnds (S.view input.old) (S.view input.new)
        (K.view output.old) (K.view output.new) result }
{
    match check(alloc, input) {
        Ok(verdict) => tell(alloc, &verdict, output),
        Err(CheckFault::Read) => READ_FAILED,
        Err(CheckFault::Memory) => NO_MEMORY,
    }
}
