//! The programs of the hub, of a node and of a driver behind a hub, by a configuration in TOML: it is read from an
//! input, and the program does what it does for the words that the configuration stands for.
//!
//! Choices that concern this crate alone:
//!
//! - The sections are named after those of a Selenium Grid's configuration; which keys there are, and what may stand
//!   for each, is this project's own.
//! - A key that stands nowhere in a document gives no word, so the program takes its own default.
//! - A new key is one row in `rows` and the same row in the definitions.
//! - A text with any fault says no words at all, so that nothing in it is passed over.
//! - Of several faults the first by the bytes of sections and keys is told, as a parsed document keeps them in that order.
//! - A configuration is read whole before anything is done, so a program either begins by all of it or not at all.
//! - What is wrong with a text is told by reading it once more (`KeptInput`), since a status is all that a program ends
//!   with.
#![tactic(auto)]

mod checking;
mod driver;
mod fault;
mod input;
mod kept;
mod laws;
mod ordered;
mod reading;
mod reasons;
mod rows;
mod statuses;
mod top;
mod value;
mod words;

pub use driver::attach_config_main;
pub use fault::ConfigFault;
pub use kept::KeptInput;
pub use laws::{fixed_limits, nothing_is_left_out, texts_say_one_thing};
pub use reading::{MOST_TEXT_BYTES, attach_config_words, config_words};
pub use reasons::reason_of;
pub use rows::{Form, Kind, Mode, Row, attach_rows, rows_of};
pub use top::{config_main, config_main_by};
pub use words::WordList;
