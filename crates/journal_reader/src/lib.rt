//! A journal is read from an input, entry by entry, without a look at whether they are permitted.
//!
//! Choices that concern this crate alone:
//!
//! - An entry that is cut off is read again only once twice as many bytes are there, so that reading is linear whatever
//!   the pieces and however long the entry is.
//! - After 2^40 bytes no more are asked for.
#![tactic(auto)]

mod feed;
mod reader;

pub use feed::{Feed, ReadFault};
pub use reader::{Ending, JournalReader, Next, Opened};
