//! Connections of teams whose hubs threads share: each is served by the hub of the team that its first head names.
//!
//! Choices that concern this crate alone:
//!
//! - The head is read by a reader of its own. What was read is handed out again to the hub, so that what a hub answers is the
//!   conversation about all bytes.
//! - A connection without an accepted head is answered without any hub.
//! - Which of the bytes that were read for the head the conversation did not come to is told: they are the last ones.
#![tactic(auto)]

mod ahead;
mod heads;
mod serving;
mod teams;
mod telling;
mod writing;

pub use hub_serving::{ConnFault, End, Served};
pub use serving::serve_teams_shared;
pub use teams::{SharedTeam, SharedTeams, TeamPasses};
