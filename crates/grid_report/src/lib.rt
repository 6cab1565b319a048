//! What is told of a hub's journal, by the words of a program: its log, or a report of its whole history.
#![tactic(auto)]

mod telling;
mod top;
mod words;

pub use telling::report;
pub use top::report_main;
pub use words::Report;
