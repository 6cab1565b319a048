//! What a hub's journal tells an operator: a line for each event, as text or as JSON.
//!
//! Choices that concern this crate alone:
//!
//! - Entries are not checked. What is told of an entry rests on what is remembered of those before it, and what is not known,
//!   as the name of a node that no entry registered, is left out.
//! - Nothing is remembered of nodes that are gone, of requests that are settled and of sessions that have ended, so that a
//!   journal of any length is read in the memory that the farm at its fullest takes.
//! - The lines of an entry are written before the next entry is read.
#![tactic(auto)]

mod facts;
mod form;
mod laws;
mod line;
mod log;
mod recall;
mod rows;
mod telling;
mod top;
mod words;

pub use facts::moment_of;
pub use form::Form;
pub use laws::logs_join;
pub use log::{CUT, NOT_JOURNAL, ending_status, fault_status, log_behind, log_lines};
pub use recall::Recall;
pub use rows::{Clearing, NodeRow, SessionRow, WaitRow};
pub use top::log_main;
pub use words::AskedLog;
