//! Trials of simulations, of the check of a journal, of its log, and of what it tells of a farm; and of a hub that keeps its journal,
//! and goes on from it.
mod entries;
mod keeping;
mod log;
mod openings;
mod plays;
mod simulations;
mod verdicts;
mod words;
