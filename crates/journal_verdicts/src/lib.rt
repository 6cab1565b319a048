//! Whether bytes are the journal of a legal history, and what stands for that history.
//!
//! Choices that concern this crate alone:
//!
//! - Whether an entry is permitted is told by a ledger (`grid_ledger`), which keeps no history, so that a journal of any
//!   length is checked in the memory of a hub at its fullest.
//! - An entry that is cut off is read again only once twice as many bytes are there, so that reading is linear whatever
//!   the pieces and however long the entry is.
//! - `Limit` is answered as soon as 2^40 bytes were given without another verdict, and no byte is asked for after that.
//! - The head is checked as soon as its first bytes are there: a wrong letter is no journal, however short the input is.
#![tactic(auto)]

mod checking;
mod feed;
mod found;
mod laws;
mod verdict;

pub use checking::{check, read_in};
pub use found::{Journal, ReadIn};
pub use laws::texts_have_one_verdict;
pub use verdict::{CheckFault, Verdict};
