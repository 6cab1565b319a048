//! The table of live sessions: where each runs, under which binding, and when it was used last.
//!
//! Choices that concern this crate alone:
//!
//! - Sessions by id stand in a `BTreeMap` in the order of the ids' bytes. Nodes choose ids, std's `RandomState` needs
//!   a random source that no constructor of the hub hands in, and `indexmap`'s default hasher has a known seed. So a
//!   look-up is logarithmic whatever ids nodes choose: at 65,536 sessions at most 17 comparisons of at most 128
//!   bytes. The hub itself gives bindings and numbers of nodes, so `indexmap` serves there.
//! - The room for a session is a placeholder: an ordered map has no room ahead, so `ready` puts the session's place
//!   in early and notes that it is none yet, which `find` passes over. There is one at a time.
//! - The next idle session is found without looking at any while the earliest last use that was noted (`note_quiet`)
//!   is too late, else by going over all of them. A use at an earlier moment lowers what is noted, and `note_quiet` raises
//!   it where that does not tell enough.
#![tactic(auto)]

mod laws;
mod live_map;
mod session_key;

pub use laws::other_changes_keep;
pub use live_map::LiveMap;
