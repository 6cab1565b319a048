//! The words of a play: the nodes that a grid in memory has, and how its hub is set up.
#![tactic(auto)]

mod laws;
mod node;
mod nodes;
mod number;
mod options;
mod play;
mod words;

pub use laws::words_say_one_play;
pub use nodes::{is_node, read_node};
pub use play::{PlayNode, PlayNodes, PlayWords, WordsFault};
pub use words::{read_numbered, read_play, read_simulate};
