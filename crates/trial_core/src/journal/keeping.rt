//! A hub whose journal can't always be written, and one that goes on from what a store has of a journal.
mod failing;
mod stores;
