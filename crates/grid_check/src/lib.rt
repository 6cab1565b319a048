//! The words of a program that says whether bytes are the journal of a legal history (`journal_verdicts`), and writes the
//! journal of a simulation.
//!
//! Choices that concern this crate alone:
//!
//! - A journal is written entry by entry, and each is spelled only when the one before is written: besides the simulation there
//!   is never more in memory than the spelling of one entry. So where memory is wanted, a front of whole entries was written.
#![tactic(auto)]

mod lines;
mod making;
mod telling;
mod top;
mod writing;

pub use journal_verdicts::{CheckFault, Verdict, check, texts_have_one_verdict};
pub use making::make_journal;
pub use telling::run_check;
pub use top::check_main;
