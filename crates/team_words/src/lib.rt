//! The words of teams in memory: for each node the team that it is of, and what it is.
#![tactic(auto)]

mod laws;
mod nodes;
mod team_play;
mod words;

pub use laws::words_say_one_list;
pub use team_play::TeamPlay;
pub use words::read_teams;
