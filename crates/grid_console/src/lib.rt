//! What the programs take from their command line, and what they say on standard error.
#![tactic(auto)]

mod answers;
mod arguments;
mod asked;
mod binding;
mod contacts;
mod nodes;

pub use arguments::{NoWords, words};
pub use asked::{Asked, VERSION};
pub use binding::ToldBind;
pub use contacts::ToldHub;
pub use nodes::ToldNodes;
