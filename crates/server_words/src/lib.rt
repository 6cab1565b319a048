//! The words of the grid's programs: their options, limits and defaults, read by `clap`.
//!
//! A word that is no option of the program, an option that is set twice, and a value out of form
//! or limits are refused. A number is read as Rust reads one, so it may have a sign and leading
//! zeros: `--port +080` is port 80.
//!
//! Choices that concern this crate alone:
//!
//! - The words for a driver are options with defaults. The platform is `linux` unless told. A version that is not given is
//!   left to whoever looks at the driver, since one in words goes stale with each update of the browser. A name that a hub
//!   would refuse is refused, and so are texts of over 64 bytes.
//! - The address that the hub listens at is none of `HubWords`: it is read for whoever makes the door. Nor is its journal's file,
//!   which is read for whoever opens that.
//! - A capability of one's own is JSON where it reads so, so `true`, `7` and `{}` need no marks, and a text that looks so
//!   needs them: `acme:build="7"`. Whether the hub takes it the hub says.
#![tactic(auto)]

mod address;
mod attach;
mod host;
mod hub;
mod journal;
mod node;
mod options;
mod own_capabilities;
mod tables;

pub use address::address_in;
pub use attach::{ATTACH_USAGE, AttachFault, AttachWords, attach_words};
pub use host::hub_host;
pub use hub::{HUB_USAGE, HubWords, hub_reason, hub_words};
pub use journal::{JournalWords, hub_journal};
pub use node::{NODE_USAGE, NodeWords, node_reason, node_words};
pub use options::WordsFault;
pub use own_capabilities::names_capability;
