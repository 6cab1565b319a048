//! Trials of the log of a journal.
mod ends;
mod growing;
mod lines;
mod logs;
mod reports;
