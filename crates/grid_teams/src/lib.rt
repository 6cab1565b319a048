//! Teams: each has a hub of its own, and a connection belongs to the team that its first head names.
//!
//! Choices that concern this crate alone:
//!
//! - A team is named by the first `Grid-Team` header of the first accepted head of a connection; later heads are not looked at.
//!   Names are compared byte by byte.
//! - The name is no password: it keeps apart those who mean well.
#![tactic(auto)]

mod naming;
mod places;
mod telling;

pub use naming::{TEAM_HEADER, TeamName, team_of};
pub use places::{Named, place_in};
pub use telling::{NO_SUCH_TEAM, NOT_NAMED, texts_are};
